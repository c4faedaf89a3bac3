//! JSON documents: reading bytes, and looking into what was read, so that each answer is a function of the document.
#![tactic(auto)]

pub mod documents;
pub mod faults;
pub mod forms;
pub mod laws;
pub mod lists;
pub mod members;
pub mod places;

pub use documents::{document, is_null, is_text, whole_number, whole_number_within};
pub use faults::FormFault;
pub use forms::{Form, member, natural_in, object, pair, text, whole_number_in};
pub use lists::{list_of, list_within, null_or};
pub use members::has_keys;
pub use places::{after, inside};
