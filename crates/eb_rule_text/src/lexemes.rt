// What the tokens of a text are, and where they begin.
use crate::marks::Mark;
use eb_base::{Items, Text};

/// A token, without its place. `docs/rules.md`, "Tokens".
#[derive(Debug, Drop)]
pub enum Lexeme {
    /// A reserved word or a sign.
    Mark(Mark),
    /// A word that can be a name: a letter, at most 31 letters, digits or underscores behind it, and not reserved.
    Name(Text),
    /// A word that begins with an underscore. It can be no name, and no text with it is in the grammar.
    Underscored,
    /// A whole number, from 0 to 9223372036854775807.
    Int(i64),
    /// A number with a point, in units of 1/65536, not below 0.
    Fix(i64),
}

/// The tokens of a text, in order, and beside them the byte where each begins.
#[derive(Debug, Drop)]
pub struct Lexed {
    /// The first byte of each token, ascending.
    pub places: Items<usize>,
    /// The tokens.
    pub lexemes: Items<Lexeme>,
}
