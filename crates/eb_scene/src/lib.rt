//! The project of a level builder: scenes of objects with components, assets, and the edits that change them.
#![tactic(auto)]

mod assets;
mod below;
mod component_edits;
pub mod edits;
mod fits;
pub mod keys;
pub mod laws;
mod numbers;
pub mod objects;
mod parts;
pub mod project_laws;
pub mod projects;
mod scene_edits;
mod scenes;
mod table;
mod touching;
mod tree;

pub use edits::{Edit, EditFault, Raw, RawField};
pub use keys::Key;
pub use objects::{Given, Object, Part};
pub use projects::Project;
