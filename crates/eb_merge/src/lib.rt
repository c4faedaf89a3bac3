//! What the runs of a project give, brought together: the entities of each object, and what was left out.
#![tactic(auto)]

pub mod laws;
pub mod merging;
pub mod objects;
pub mod own_cells;

pub use laws::the_lowest_stands;
pub use merging::Merged;
pub use objects::give_run;
pub use own_cells::{OwnCells, Standing};
