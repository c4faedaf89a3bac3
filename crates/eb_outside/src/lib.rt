//! The world outside the process: a flat folder, a source and a sink of bytes. Each call may fail, and counts it.
//! Each comes in memory, for tests, and over the system's files and streams.
#![tactic(auto)]

mod calls;
pub mod errors;
pub mod folder_shelf;
pub mod mem_shelf;
pub mod mem_sink;
pub mod mem_source;
pub mod shelf;
pub mod sink;
pub mod source;
pub mod std_sink;
pub mod std_source;
mod system;

pub use errors::{Fault, OutsideError};
pub use folder_shelf::FolderShelf;
pub use mem_shelf::MemShelf;
pub use mem_sink::MemSink;
pub use mem_source::MemSource;
pub use shelf::Shelf;
pub use sink::Sink;
pub use source::Source;
pub use std_sink::StdSink;
pub use std_source::StdSource;
