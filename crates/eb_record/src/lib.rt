//! What runs gave and read, kept under their names, and which of them looked at a key.
#![tactic(auto)]

pub mod laws;
mod looks;
pub mod naming;
pub mod records;

pub use laws::{others_stay_where_one_is_put, others_stay_where_one_is_undone};
pub use naming::run_name;
pub use records::Record;
