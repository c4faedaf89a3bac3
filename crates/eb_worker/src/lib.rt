//! Recording by workers: threads claim items, each records what it claimed, and the list is that of one thread. What is
//! recorded and how it is sorted is stated in `specs/Recording.antt`, and told for a reader in `docs/claims.md`.
#![tactic(auto)]

mod finishing;
mod gathered;
pub mod laws;
mod recorder;
mod recording;

pub use eb_claims::{ClaimSeat, Claims};
pub use recorder::{Keyed, Recorder};
pub use recording::{Recording, record_all};
