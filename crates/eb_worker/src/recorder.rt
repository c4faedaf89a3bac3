// What workers record: a list for each item, of entries that have a sort key.
ghost use Rattle.std.specs.Prelude.{◌≡◌, ℕ, List, IfOk};
ghost use Rattle.eb_worker.specs.Recording.{SortKey, IsNumbered};

use eb_base::Memory;
use std::alloc::Global;

/// An entry of a recorded list. `docs/claims.md`, "The recorded list".
pub trait Keyed {
    ghost key_of: { Self → SortKey };

    /// The key, the item and the place in the item's list: by these, in this order, entries are sorted.
    fn sort_key(&self) -> (i32, u32, u32)
        ensures { result ≡ key_of self.now };
}

/// Records items. What it records of an item is one list, whichever thread asks. `docs/claims.md`, "The recorded list".
pub trait Recorder<E: Keyed> {
    // The list of each item.
    ghost lists: { Self → ℕ → List E };

    /// The list of this item. Memory is the one error.
    fn commands_of(&self, alloc: Global, item: u32) -> Result<Vec<E>, Memory>
        ensures { IfOk result (λ list. list.items ≡ lists self.now item) };

    // Each entry has the number of its item, and its place in the item's list.
    ghost numbered: { (r : Self) (item : ℕ) → IsNumbered E.key_of item 0 (lists r item) };
}
