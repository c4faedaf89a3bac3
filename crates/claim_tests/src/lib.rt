//! Tests of claims and of recording by workers, at threads that run: expected values are worked out by hand.
#![tactic(auto)]

#[cfg(test)]
mod meeting;
pub mod notes;
#[cfg(test)]
mod tests;
