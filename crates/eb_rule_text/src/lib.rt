//! The text of the rule language: its tokens, its syntax trees, and the reader that makes the one of the other.
#![tactic(auto)]

mod blocks;
mod cursor;
mod cutting;
pub mod errors;
mod exprs;
mod jobs;
pub mod laws;
pub mod lexemes;
pub mod lexing;
pub mod marks;
pub mod parsing;
pub mod passes;
pub mod printing;
mod put_reads;
mod put_trees;
mod queries;
mod reads;
mod spelling;
pub mod trees;

pub use errors::{ReadError, TextError, TokenError};
pub use lexemes::{Lexed, Lexeme};
pub use lexing::lex;
pub use marks::Mark;
pub use parsing::{parse_job, parse_rules};
pub use passes::{Placed, read_job, read_rules};
pub use printing::{print_job, print_rules};
pub use trees::{
    Add, Baker, Command, Context, Expr, FieldPath, Find, Init, JobTree, Link, Op, Query, Reach,
    Read, Rule, RulesTree, Stmt, System, Target,
};
