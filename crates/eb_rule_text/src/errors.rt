// Why a text has no tokens, or its tokens no tree.
use eb_base::Memory;
use std::alloc::AllocError;

/// Why a text isn't a list of tokens.
#[derive(Clone, Copy, Debug, PartialEq, Eq)]
pub enum TokenError {
    /// Want of memory.
    Memory,
    /// No token begins at this byte, or the number that begins there is out of range.
    Token(usize),
}

impl From<AllocError> for TokenError {
    ghost use Rattle.std.specs.Prelude.{◌≡◌};
    ghost use Rattle.eb_rule_text.specs.declared.errors.TokenError.TheVariants.{Memory};

    ghost from_gives = { λ _ e. e ≡ Memory };

    fn from(_: AllocError) -> TokenError {
        TokenError::Memory
    }
}

impl From<Memory> for TokenError {
    ghost use Rattle.std.specs.Prelude.{◌≡◌};
    ghost use Rattle.eb_rule_text.specs.declared.errors.TokenError.TheVariants.{Memory};

    ghost from_gives = { λ _ e. e ≡ Memory };

    fn from(_: Memory) -> TokenError {
        TokenError::Memory
    }
}

/// Why a list of tokens has no tree. A token is named by how many tokens there are from it to the end; 0 names the end.
#[derive(Clone, Copy, Debug, PartialEq, Eq)]
pub enum ReadError {
    /// Want of memory.
    Memory,
    /// The token can't follow those before it.
    Syntax(usize),
    /// The token would open the 33rd level.
    Depth(usize),
}

impl From<AllocError> for ReadError {
    ghost use Rattle.std.specs.Prelude.{◌≡◌};
    ghost use Rattle.eb_rule_text.specs.declared.errors.ReadError.TheVariants.{Memory};

    ghost from_gives = { λ _ e. e ≡ Memory };

    fn from(_: AllocError) -> ReadError {
        ReadError::Memory
    }
}

impl From<Memory> for ReadError {
    ghost use Rattle.std.specs.Prelude.{◌≡◌};
    ghost use Rattle.eb_rule_text.specs.declared.errors.ReadError.TheVariants.{Memory};

    ghost from_gives = { λ _ e. e ≡ Memory };

    fn from(_: Memory) -> ReadError {
        ReadError::Memory
    }
}

/// Why a text has no tree.
#[derive(Clone, Copy, Debug, PartialEq, Eq)]
pub enum TextError {
    /// Want of memory.
    Memory,
    /// No token begins at this byte, or the number that begins there is out of range.
    Token(usize),
    /// The token at this byte can't follow those before it, or the text ends here and must not.
    Syntax(usize),
    /// The token at this byte would open the 33rd level.
    Depth(usize),
}
