// Translated and changed from src/network/reconfiguration.rs of oxigrid. Copyright 2024-2026 COOLJAPAN OU (Team Kitasan), Apache License 2.0.
// The ids that the tabu search bars.
ghost use Rattle.std.specs.Prelude.{◌≡◌, ℕ, List, [], ◌∷◌, ◌++◌, ◌<◌, ◌≤◌, length, take, drop};
ghost use Rattle.numbers.specs.Choose.{among};
ghost use Rattle.tabu.specs.Tabu.{last_seven};

use std::marker::Model;

// The ids of the last switches that were moved, the earliest first: the first `count` of the array. The clauses see the list of them.
#[derive(Drop)]
pub(crate) struct TabuList {
    ids: [u16; TabuList::TABU_SIZE],
    count: usize,
}

impl Model for TabuList {
    ghost Value = { List ℕ };

    ghost view = { λ t. take t.count t.ids };

    ghost invariant = { λ t. t.count ≤ 7 };
}

impl TabuList {
    // Document 01: "The last 7 moved ids are barred".
    pub(crate) const TABU_SIZE: usize = 7;

    // Nothing is barred.
    pub(crate) fn new() -> TabuList
        ensures { result ≡ [] }
    {
        TabuList {
            ids: [0; TabuList::TABU_SIZE],
            count: 0,
        }
    }

    // Is this id barred?
    pub(crate) fn contains(&self, id: u16) -> bool
        ensures { result ≡ among id self.now }
    {
        self.ids[..self.count].contains(&id)
    }

    // One id more, where there is room.
    fn push_back(&mut self, id: u16)
        requires { length self.old < 7 }
        ensures { self.new ≡ self.old ++ (id ∷ []) }
    {
        self.ids[self.count] = id;
        self.count += 1;
    }

    // Without the earliest id.
    fn pop_front(&mut self)
        requires { 0 < length self.old }
        ensures { self.new ≡ drop 1 self.old }
    {
        self.ids.copy_within(1..self.count, 0);
        self.count -= 1;
    }

    // One id more, for which the earliest leaves a full list.
    pub(crate) fn push(&mut self, id: u16)
        ensures { self.new ≡ last_seven (self.old ++ (id ∷ [])) }
    {
        if self.count == TabuList::TABU_SIZE {
            self.pop_front();
        }
        self.push_back(id);
    }
}
