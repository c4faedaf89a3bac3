// Whether lists ascend.
ghost use Rattle.std.specs.Prelude.{◌≡◌};
ghost use Rattle.eb_base.specs.Maps.{is_ascending};

/// Whether each item is less than the next one. Takes no memory.
pub fn ascends<T: Ord>(items: &[T]) -> bool
    ensures { result ≡ is_ascending T.cmp items.now }
{
    for at in 1..items.len() {
        if !items[at - 1].cmp(&items[at]).is_lt() {
            return false;
        }
    }
    true
}
