// A list of a fixed size: there is no heap to hold one that grows.
ghost use Rattle.std.specs.Prelude.{◌≡◌, [], ◌∷◌, ◌++◌, ◌<◌, ◌≤◌, length, ⊤};

use network::topology::PowerNetwork;
use std::alloc::AllocError;

// At most as many values as a network has switches, in order.
pub struct SwitchList<T: Copy> {
    count: u16,
    values: [T; PowerNetwork::MAX_SWITCHES],
    ghost few: { count ≤ 512 },
}

// A clone is a copy, whatever `T` clones.
impl<T: Copy> Clone for SwitchList<T> {
    ghost is_clone = { λ l k. k ≡ l };

    ghost is_infallible = { λ _. ⊤ };

    fn clone(&self) -> Result<SwitchList<T>, AllocError> {
        Ok(*self)
    }
}

impl<T: Copy> Copy for SwitchList<T> {}

impl<T: Copy> SwitchList<T> {
    ghost use Rattle.plan.specs.SwitchLists.{listed};

    // No values; `filler` stands where none is.
    pub fn new(filler: T) -> SwitchList<T>
        ensures { listed result ≡ [] }
    {
        SwitchList {
            count: 0,
            values: [filler; PowerNetwork::MAX_SWITCHES],
        }
    }

    // One value more, while there is room.
    pub fn push(&mut self, value: T)
        ensures stored { length (listed self.old) < 512 → listed self.new ≡ listed self.old ++ value ∷ [] }
        ensures full { 512 ≤ length (listed self.old) → self.new ≡ self.old }
    {
        let at = usize::from(self.count);
        if at < PowerNetwork::MAX_SWITCHES {
            self.values[at] = value;
            self.count += 1;
        }
    }

    // The values as a slice.
    pub fn as_slice(&self) -> &[T]
        ensures values { result.now ≡ listed self.now }
        ensures few { length result.now ≤ 512 }
    {
        &self.values[..usize::from(self.count)]
    }
}
