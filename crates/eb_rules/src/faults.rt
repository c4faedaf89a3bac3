// Why a text isn't one of rules or of a job.

/// A refusal's kind. `docs/rules.md`, "Refusals".
#[derive(Clone, Copy, Debug, PartialEq, Eq)]
pub enum RuleKind {
    /// No token begins there, or a number is out of range.
    Token,
    /// A token that can't follow those before it.
    Syntax,
    /// A name that is no type, no field or no visible name.
    UnknownName,
    /// A breach of the typing.
    TypeFault,
    /// A number that was used before, or a name that is still visible.
    NameTaken,
    /// Too many of something, or a number out of range.
    TooMany,
    /// The 33rd level.
    Depth,
}

/// A refusal and its byte.
#[derive(Clone, Copy, Debug, PartialEq, Eq)]
pub struct Refusal {
    pub kind: RuleKind,
    pub at: usize,
}

/// Why a text isn't one of rules or of a job.
#[derive(Clone, Copy, Debug, PartialEq, Eq)]
pub enum RuleFault {
    /// Want of memory.
    Memory,
    /// A refusal and its byte; one above 4294967295 is given as that.
    At { at: u32, kind: RuleKind },
}
