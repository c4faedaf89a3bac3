//! Reads files of cases: parts below heads such as `-- hex after NAME --`, as `docs/cases.md` says. Programs that play
//! cases stand above it.
#![tactic(auto)]

mod bodies;
mod differences;
mod faults;
mod folders;
mod heads;
mod lines;
mod parts;
mod tallies;

pub use crate::differences::{first_difference, line_at};
pub use crate::faults::CaseFault;
pub use crate::folders::{read_file, sorted_names};
pub use crate::lines::{lines_of, without_line_feed};
pub use crate::parts::{Part, cases_start, read_parts};
pub use crate::tallies::Tally;
