//! Sections of a running world: loading the image of one, and unloading it. What the world is then is stated in
//! `specs/Loading.antt`.
#![tactic(auto)]

pub mod laws;
pub mod load_faults;
pub mod loading;
pub mod world_rows;

pub use load_faults::LoadFault;
pub use loading::{load, unload};
