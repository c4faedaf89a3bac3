//! The ground of every crate: names and places of entities, small lists and texts that contracts see
//! as plain lists, and want of memory as an error.
#![tactic(auto)]

pub mod calc;
pub mod digits;
pub mod fixed;
pub mod items;
pub mod memory;
pub mod name_map;
pub mod names;
pub mod numbers;
pub mod order;
pub mod reserved;
pub mod steps;
pub mod texts;
pub mod words;

pub use calc::{Calc, CalcFault};
pub use digits::{digits_read, number_read};
pub use fixed::{fix_read, fix_write, fraction_write};
pub use items::Items;
pub use memory::Memory;
pub use name_map::NameMap;
pub use names::{Entity, Name, Place, Tag, name_read, name_write};
pub use numbers::{AuthorNo, TypeNo};
pub use order::ascends;
pub use reserved::Reserved;
pub use steps::Steps;
pub use texts::Text;
pub use words::is_name;
