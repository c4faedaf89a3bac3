//! A session over a folder: its opening, and the answer to each request line. What it answers and leaves is
//! the abstract machine's (`specs/Machine.antt`).
#![tactic(auto)]

pub mod errors;
pub mod imaging;
pub mod opening;
pub mod refusals;
pub mod replies;
pub mod requests;
pub mod sections;
pub mod sessions;

pub use errors::{OpenEnd, SessionEnd};
pub use replies::Reply;
pub use requests::{LineMode, Request, RequestFault};
pub use sessions::Session;
