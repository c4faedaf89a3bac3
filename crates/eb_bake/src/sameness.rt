// Whether values, components and lists of them are the same.
ghost use Rattle.std.specs.Prelude.{◌≡◌, Bool};
ghost use Rattle.std.specs.Cmp.Lexicographic.{pointwise};
ghost use Rattle.eb_bake.specs.Changed.{same_cell, same_val};

use eb_schema::{Cell, Val};

/// What can be compared.
pub trait Same {
    ghost same_as: { Self → Self → Bool };

    /// Whether this is the same as the other. Takes no memory.
    fn same(&self, other: &Self) -> bool
        ensures { result ≡ same_as self.now other.now };
}

impl Same for Val {
    ghost same_as = { same_val };

    fn same(&self, other: &Self) -> bool {
        match (*self, *other) {
            (Val::Num(a), Val::Num(b)) => a == b,
            (Val::To(a), Val::To(b)) => a == b,
            (Val::Null, Val::Null) => true,
            (Val::Gone, Val::Gone) => true,
            _ => false,
        }
    }
}

impl Same for Cell {
    ghost same_as = { same_cell };

    fn same(&self, other: &Self) -> bool {
        self.kind == other.kind && same_lists(self.values.items(), other.values.items())
    }
}

/// Whether two lists are the same.
pub fn same_lists<T: Same>(some: &[T], others: &[T]) -> bool
    ensures { result ≡ pointwise T.same_as some.now others.now }
{
    let mut rest = others;
    for one in some {
        match rest.split_first() {
            Some((other, more)) => {
                if !one.same(other) {
                    return false;
                }
                rest = more;
            }
            None => return false,
        }
    }
    rest.is_empty()
}
