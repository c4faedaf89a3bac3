//! Section files: the image of a section, and its one spelling as bytes.
#![tactic(auto)]

pub mod images;
pub mod laws;
pub mod writing;

pub use images::{Image, ImageRow, Link, Stored, StoredCell};
pub use writing::encode;
