//! Tests of the project and its documents, by their public calls.
#![tactic(auto)]

#[cfg(test)]
mod edit_tests;
#[cfg(test)]
mod edit_texts;
#[cfg(test)]
mod limit_tests;
#[cfg(test)]
mod making;
#[cfg(test)]
mod text_tests;
