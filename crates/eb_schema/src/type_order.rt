// Finding by type in lists that ascend by type.
ghost use Rattle.std.specs.Prelude.{◌≡◌, length, map};
ghost use Rattle.std.specs.List.Sorted.{IsStrictlySortedBy, IsSearchInRange};
ghost use Rattle.std.specs.Ordering.{nat_cmp};
ghost use Rattle.eb_schema.specs.TypeOrder.{place_of};

use eb_base::TypeNo;

/// What has a component type.
pub trait Typed {
    ghost use Rattle.std.specs.Prelude.{ℕ};

    ghost kind_of: { Self → ℕ };

    fn kind(&self) -> TypeNo
        ensures { result ≡ kind_of self.now };
}

impl Typed for TypeNo {
    ghost kind_of = { λ k. k };

    fn kind(&self) -> TypeNo {
        *self
    }
}

/// The place of the item of a type, or else the one where it would stand. Takes time by the logarithm of the length.
pub fn place<T: Typed>(items: &[T], kind: TypeNo) -> Result<usize, usize>
    requires { IsStrictlySortedBy nat_cmp (map T.kind_of items.now) }
    ensures place { result ≡ place_of T.kind_of kind items.now }
    ensures bound { IsSearchInRange result (length items.now) }
{
    items.binary_search_by_key(&kind.number(), |item| item.kind().number())
}
