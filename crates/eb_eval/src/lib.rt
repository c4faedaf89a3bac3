//! One run of baking: which runs a project has, what each looks at, and what it gives.
#![tactic(auto)]

mod copying;
pub mod entities;
pub mod fields;
pub mod ids;
pub mod issues;
mod key_order;
pub mod laws;
pub mod listing;
pub mod outcomes;
mod outputs;
pub mod runs;
pub mod sealed;
mod sights;
pub mod sums;
mod walks;

pub use eb_meaning::RunFault;
pub use entities::own_entity;
pub use fields::value_as;
pub use ids::RunId;
pub use issues::Issue;
pub use laws::{
    alike_answers_bake_alike, runs_not_made_anew_stay, what_is_read_and_changes_is_touched,
};
pub use listing::{is_run, object_runs};
pub use outcomes::{Outcome, Output};
pub use runs::{eval_run, run_baker};
pub use sealed::{Run, Sealed};
