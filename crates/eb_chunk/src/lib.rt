//! Chunks: rows of entities in the columns of one block. Contracts see a chunk as the list of its rows.
#![tactic(auto)]

mod carrying;
mod cells;
pub mod chunks;
mod rows;
pub mod views;

pub use chunks::{Chunk, layouts_of_a_schema_are_alike};
pub use views::ColumnView;
