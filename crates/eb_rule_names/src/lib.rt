//! The names that are visible at a place of a rule, found by a map.
#![tactic(auto)]

pub mod named;
mod places;
pub mod visible;

pub use named::Named;
pub use visible::VisibleNames;
