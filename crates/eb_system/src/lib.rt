//! The systems of rules: each looks at all entities as they were before it, and adds components to those that its query
//! matches.
#![tactic(auto)]

mod before;
mod changes;
mod filling;
mod matching;
mod reads;
pub mod stages;
mod totals;
mod turns;
mod values;
mod wanted;

pub use stages::{Stages, run_all};
