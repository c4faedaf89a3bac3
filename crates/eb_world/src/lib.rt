//! The running world: entities by name, with the rows that they have and the sections that they came from.
#![tactic(auto)]

mod beings;
mod name_table;
mod sections;
mod spares;
mod worlds;

pub use worlds::World;
