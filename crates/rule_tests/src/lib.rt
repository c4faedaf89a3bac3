//! Tests of the rule language that no row of `rule_cases` makes: visible names, and bakers by number and by type.
#![tactic(auto)]

#[cfg(test)]
mod baker_tests;
#[cfg(test)]
mod name_tests;
