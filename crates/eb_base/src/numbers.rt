// The numbers of component types and of authoring types, 1 to 128 each.
ghost use Rattle.std.specs.Prelude.{◌≡◌, ℕ, ◌<◌, ◌≤◌, ◌↔◌, IsSome, IfSome};

use std::marker::Model;

/// The number of a component type, 1 to 128.
#[derive(Clone, Copy, Debug, PartialEq, Eq, PartialOrd, Ord, Hash)]
pub struct TypeNo {
    number: u8,
}

impl Model for TypeNo {
    ghost Value = { ℕ };

    ghost view = { λ t. t.number };

    ghost invariant = { λ t. (0 < t.number) × (t.number ≤ 128) };

    ghost inverse = { λ n. record { number = n } };
}

impl TypeNo {
    /// The first number, 1.
    pub const FIRST: TypeNo = TypeNo { number: 1 };

    /// The type of this number, if it is 1 to 128.
    pub fn new(number: u8) -> Option<Self>
        ensures valid { IsSome result ↔ ((0 < number) × (number ≤ 128)) }
        ensures value { IfSome result (λ t. t ≡ number) }
    {
        if number > 0 && number <= 128 {
            Some(TypeNo { number })
        } else {
            None
        }
    }

    /// The number, 1 to 128.
    pub fn number(self) -> u8
        ensures value { result ≡ self }
        ensures range { (0 < result) × (result ≤ 128) }
    {
        self.number
    }
}

/// The number of an authoring type, 1 to 128.
#[derive(Clone, Copy, Debug, PartialEq, Eq, PartialOrd, Ord, Hash)]
pub struct AuthorNo {
    number: u8,
}

impl Model for AuthorNo {
    ghost Value = { ℕ };

    ghost view = { λ t. t.number };

    ghost invariant = { λ t. (0 < t.number) × (t.number ≤ 128) };

    ghost inverse = { λ n. record { number = n } };
}

impl AuthorNo {
    /// The first number, 1.
    pub const FIRST: AuthorNo = AuthorNo { number: 1 };

    /// The type of this number, if it is 1 to 128.
    pub fn new(number: u8) -> Option<Self>
        ensures valid { IsSome result ↔ ((0 < number) × (number ≤ 128)) }
        ensures value { IfSome result (λ t. t ≡ number) }
    {
        if number > 0 && number <= 128 {
            Some(AuthorNo { number })
        } else {
            None
        }
    }

    /// The number, 1 to 128.
    pub fn number(self) -> u8
        ensures value { result ≡ self }
        ensures range { (0 < result) × (result ≤ 128) }
    {
        self.number
    }
}
