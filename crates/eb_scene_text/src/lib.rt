//! Edits and projects as JSON documents: reading both, and printing a project.
#![tactic(auto)]

mod draft_edits;
mod drafts;
mod edit_forms;
pub mod edit_reading;
pub mod faults;
pub mod laws;
mod members;
mod project_forms;
pub mod project_printing;
pub mod project_reading;
mod value_printing;
mod values;
mod words;

pub use edit_reading::edit_read;
pub use faults::{ProjectFault, ReadFault};
pub use project_printing::project_text;
pub use project_reading::project_read;
