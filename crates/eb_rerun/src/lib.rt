//! Which runs an edit makes anew, and their evaluation: what is kept of runs is brought up to the project after an edit.
#![tactic(auto)]

pub mod again;
pub mod evaluating;
pub mod laws;
pub mod near;

pub use again::renew_runs;
pub use evaluating::{evaluate_all, evaluate_project, runs_of};
pub use laws::renewals_are_exact;
pub use near::scene_gone;
