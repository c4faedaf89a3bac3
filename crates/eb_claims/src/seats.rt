// What a worker claims with.
use crate::rule::View;
use atomic_table::Seat;
use std::marker::Model;

/// A worker's right to claim: a token of no bytes, which goes to another thread by value and is never copied. Contracts see
/// the table that it is of, and its view: the items that it claimed, its stops, and its share of the workers.
#[derive(Drop)]
pub struct ClaimSeat {
    pub(crate) seat: Seat<(), View>,
}

impl Model for ClaimSeat {
    ghost use Rattle.std.specs.Prelude.{◌≡◌, ◌<◌, []};
    ghost use Rattle.eb_claims.specs.Seats.{Held, held, held_coded};
    ghost use Rattle.eb_claims.specs.contracts.rule.View as known;

    ghost Value = { Held };

    ghost coded = { held_coded known.the_row.coded };

    ghost view = { λ s. held s.seat.table_id s.seat.me.0 };

    ghost invariant = { λ s. (s.seat.me.1 ≡ []) × (0 < s.seat.me.0.share) };
}
