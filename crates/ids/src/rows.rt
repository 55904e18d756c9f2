// Ids in rows: an id is looked up among the few that share its bucket.
ghost use Rattle.std.specs.Prelude.{◌≡◌, map, ◌≤◌, ◌<◌, take};
ghost use Rattle.network.specs.Limits.{bus_id};
ghost use Rattle.ids.specs.Ids.{bucket_of, no_rows, put_at, id_rows, position_of};

use network::bus::Bus;
use network::topology::PowerNetwork;
use numbers::at_most;

// The ids of a list by position, and the positions by their ids' buckets: first has the lowest position in a bucket, next the next higher one, NO_POSITION is none.
#[derive(Clone, Copy)]
pub struct IdRows {
    pub ids: [u16; IdRows::MAX_IDS],
    pub first: [u16; IdRows::BUCKETS],
    pub next: [u16; IdRows::MAX_IDS],
}

impl IdRows {
    // Of the two lists whose ids are looked up, buses and switches, the second is the longer one.
    pub const MAX_IDS: usize = PowerNetwork::MAX_SWITCHES;

    pub const BUCKETS: usize = 256;

    // What stands in a row's first and next where there is no position: one more than the last. The definitions `rows_from` and `seek` speak of it.
    pub const NO_POSITION: u16 = IdRows::MAX_IDS as u16;

    // No ids yet.
    pub fn new() -> IdRows
        ensures { result ≡ no_rows }
    {
        IdRows {
            ids: [0; IdRows::MAX_IDS],
            first: [IdRows::NO_POSITION; IdRows::BUCKETS],
            next: [IdRows::NO_POSITION; IdRows::MAX_IDS],
        }
    }

    // The id at this position is put in front of its row. From MAX_IDS on there is no position.
    pub fn put(&mut self, at: usize, id: u16)
        ensures stored { at < 512 → self.new ≡ put_at at id self.old }
        ensures beyond { 512 ≤ at → self.new ≡ self.old }
    {
        if IdRows::MAX_IDS <= at {
            return;
        }
        let row = bucket(id);
        self.ids[at] = id;
        self.next[at] = self.first[row];
        self.first[row] = at as u16;
    }

    // The first position of an id among count ids, and count where it has none (`IdLaws.position_found`); in rows that are being filled, some position of it
    // (`PutIds.put_before`). Rows of no list of ids are followed all the same, count steps at most.
    pub fn position_of(&self, count: usize, id: u16) -> usize
        ensures { result ≡ position_of self.now.ids self.now.first self.now.next count id }
    {
        let mut at = usize::from(self.first[bucket(id)]);
        'row: for _ in 0..count {
            if IdRows::MAX_IDS <= at {
                return count;
            }
            if self.ids[at] == id {
                return at;
            }
            at = usize::from(self.next[at]);
        }
        count
    }
}

// Any number below BUCKETS is right. This one, by 65,536 times the golden ratio's fraction, spreads ids that rise in equal steps.
#[tactic(auto, unfolding(crate::specs::Ids::bucket_of))]
pub fn bucket(id: u16) -> usize
    ensures { (result ≡ bucket_of id) × (result < 256) }
{
    usize::from(id) * 40503 % 65536 / 256
}

// The rows of the listed buses: from the last position to the first, each in front of its row.
pub fn bus_rows(buses: [Bus; PowerNetwork::MAX_BUSES], count: usize) -> IdRows
    ensures { result ≡ id_rows (map bus_id (take count buses)) }
{
    let n = at_most(count, PowerNetwork::MAX_BUSES);
    let mut rows = IdRows::new();
    for at in (0..n).rev() {
        rows.put(at, buses[at].id);
    }
    rows
}
