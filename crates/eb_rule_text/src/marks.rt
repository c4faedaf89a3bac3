// The tokens that are always spelled alike: reserved words and signs.

/// A reserved word or a sign. `docs/rules.md`, "Tokens".
#[derive(Clone, Copy, Debug, PartialEq, Eq)]
pub enum Mark {
    Baker,
    System,
    Job,
    On,
    Let,
    If,
    Else,
    Add,
    Set,
    Remove,
    Create,
    Destroy,
    Extra,
    This,
    Own,
    Parent,
    Children,
    Within,
    Asset,
    Entity,
    At,
    Sum,
    Count,
    Min,
    Max,
    All,
    Any,
    None,
    Key,
    Or,
    Fix,
    Int,
    Null,
    True,
    False,
    /// `{`
    LBrace,
    /// `}`
    RBrace,
    /// `(`
    LParen,
    /// `)`
    RParen,
    /// `,`
    Comma,
    /// `:`
    Colon,
    /// `;`
    Semicolon,
    /// `.`
    Dot,
    /// `=`
    Assign,
    /// `==`
    Equal,
    /// `!=`
    NotEqual,
    /// `<`
    Less,
    /// `<=`
    AtMost,
    /// `>`
    Greater,
    /// `>=`
    AtLeast,
    /// `+`
    Plus,
    /// `-`
    Minus,
    /// `*`
    Star,
    /// `/`
    Slash,
    /// `&&`
    And,
    /// `||`
    Either,
    /// `!`
    Not,
}
