//! The schema of a project: which component types and authoring types there are, and their fields; and the
//! rows of entities, which have cells of these types.
#![tactic(auto)]

mod authoring_drafts;
pub mod baked;
mod copies;
mod drafts;
pub mod faults;
pub mod kinds;
pub mod laws;
pub mod layouts;
mod making;
mod reading;
pub mod rows;
pub mod schemas;
pub mod slots;
mod tables;
mod testing;
pub mod type_order;
pub mod type_sets;

pub use baked::{Baked, BakedEntity};
pub use faults::SchemaFault;
pub use kinds::{Authoring, Component, Field, Kind, Mode};
pub use layouts::{Column, Layout};
pub use rows::{Cell, MOST_KINDS, Row, Val};
pub use schemas::Schema;
pub use slots::{Slot, get_entity, get_name, get_slot, put_entity, put_name, put_slot};
pub use type_order::{Typed, place};
pub use type_sets::{TypeSet, TypeSetFault};
