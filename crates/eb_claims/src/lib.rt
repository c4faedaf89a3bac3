//! Claims: threads share one word, and each item is claimed once, whatever the schedule. The rule that every step keeps
//! is stated in `specs/Claiming.antt`, and told for a reader in `docs/claims.md`.
#![tactic(auto)]

mod claims;
mod crossing;
mod rule;
mod seats;

pub use claims::{Claims, MOST_ITEMS, MOST_WORKERS};
pub use crossing::claims_are_shared_and_seats_move;
pub use rule::View;
pub use seats::ClaimSeat;
