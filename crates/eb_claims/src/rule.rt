// The rule of the shared table, and what each of its steps tells. No line of this file runs.
ghost use Rattle.std.specs.Prelude.{ℕ};

use atomic_table::{Join, Play, Split, TableRule};
use std::collections::LinkedList;
use std::marker::{Brand, PhantomData};

/// What the table is told once: how many items there are, and by how many workers they are claimed.
#[derive(Drop)]
pub(crate) struct Work {
    pub items: u32,
    pub workers: u32,
}

/// What a seat knows. It stands in proofs alone: no value of it is made. `docs/claims.md`, "What a seat knows".
pub struct View {
    /// The items claimed by this seat and by those that it took in, in the order of the claims.
    pub list: LinkedList<u64>,
    /// How many claims of these seats found no item.
    pub stops: u64,
    /// How many of the workers this seat stands for. At 0 the seat is spent.
    pub share: u64,
    pub items: u64,
    pub workers: u64,
}

// The rule of five parts.
pub(crate) struct Fair;

impl TableRule<(), View, Work> for Fair {
    ghost use Rattle.eb_claims.specs.Claiming.{Holds, first};

    ghost holds = { Holds };

    ghost first = { first };
}

// One claim.
pub(crate) struct Claim;

impl Play<(), View> for Claim {
    ghost use Rattle.eb_claims.specs.Claiming.{Claimed};

    ghost then = { Claimed };
}

// A look, which changes nothing.
pub(crate) struct Look;

impl Play<(), View> for Look {
    ghost use Rattle.eb_claims.specs.Claiming.{Learned};

    ghost then = { Learned };
}

// How many workers a new seat stands for: known as the program runs, and so picked at the call.
pub(crate) trait Part {
    ghost part: { ℕ };
}

impl Part for Brand {
    ghost part = { 0 };
}

// A seat is cut in two.
pub(crate) struct Cut<P> {
    part: PhantomData<P>,
}

impl<P: Part> Split<View> for Cut<P> {
    ghost use Rattle.eb_claims.specs.Claiming.{less, fresh};

    ghost left = { less P.part };

    ghost right = { fresh P.part };
}

// A seat takes another in.
pub(crate) struct Glue;

impl Join<View> for Glue {
    ghost use Rattle.eb_claims.specs.Claiming.{joined, spent};

    ghost both = { joined };

    ghost spent = { spent };
}
