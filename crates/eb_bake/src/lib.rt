//! Baking: what the rules make of a project, and what each edit makes anew.
#![tactic(auto)]

pub mod bakers;
mod changed;
mod issue_texts;
mod merging;
pub mod renewing;
mod sameness;

pub use bakers::{Baker, BakerFault};
pub use renewing::Rebaked;
