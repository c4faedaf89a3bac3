//! The rules of a project: names and types of the rule language over a schema.
#![tactic(auto)]

mod adds;
pub mod bakers;
mod commands;
pub mod faults;
mod fields;
pub mod finds;
mod inits;
pub mod jobs;
pub mod plans;
pub mod queries;
mod reads;
mod rules;
pub mod scopes;
mod shapes;
pub mod statements;
pub mod texts;
pub mod typing;
pub mod walk_laws;
pub mod walking;

pub use faults::{Refusal, RuleFault, RuleKind};
pub use jobs::Job;
pub use plans::{
    Addition, Aim, AuthoredField, BakerPlan, ComponentField, FieldPlace, Filling, FindTerm,
    JobPlan, Order, ReadTerm, RulesPlan, Step, SystemPlan, Term,
};
pub use queries::Query3;
pub use scopes::{Bound, Scope, Visible};
pub use shapes::Shape;
pub use statements::{inside, walk};
pub use texts::{Rules, rules_text};
pub use typing::{Resolved, typed};
pub use walking::{Ground, State, WalkError};
