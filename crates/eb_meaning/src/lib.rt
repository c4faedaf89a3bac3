//! What the rules of a project say: values of expressions and what statements add, with all that they look at on the way.
#![tactic(auto)]

pub mod additions;
pub mod fields;
pub mod laws;
pub mod operators;
pub mod scopes;
pub mod sights;
pub mod statements;
pub mod terms;
pub mod values;

pub use additions::{cell, cells};
pub use laws::{alike_answers_end_alike, reads_alone_ask, runs_note_what_they_ask};
pub use scopes::{Extra, Scope};
pub use sights::Reads;
pub use statements::act_all;
pub use terms::value;
pub use values::{Link, RunFault, Stop, Value};
