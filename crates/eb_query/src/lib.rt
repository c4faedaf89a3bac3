//! Queries over a running world, and the text of entities.
#![tactic(auto)]

mod entities;
pub mod lines;
mod listing;
pub mod queries;

pub use lines::{put_field, put_name, put_tag};
pub use queries::{Query, QueryFault, the_empty_query_lists_all};
