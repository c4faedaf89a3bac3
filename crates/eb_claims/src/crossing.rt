// What may cross threads.
use crate::claims::Claims;
use crate::seats::ClaimSeat;

/// The law that claims may be shared by threads, and that a seat may go from one to another: these calls are proved at types
/// alone that may.
pub fn claims_are_shared_and_seats_move() {
    may_be_shared::<Claims>();
    may_move::<ClaimSeat>();
}

fn may_be_shared<T: Sync>() {}

fn may_move<T: Send>() {}
