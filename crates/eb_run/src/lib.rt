//! The whole run: words, opening, the lines of the input under limits, status. What it ends with is stated in
//! `specs/Told.antt`.
#![tactic(auto)]

pub mod responding;
pub mod runs;
pub mod words;

pub use eb_serve::Limits;
pub use runs::{run, run_within};
