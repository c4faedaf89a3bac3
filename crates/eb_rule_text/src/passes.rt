// From the bytes of a text to its tree: tokens first, then syntax, each refusal with its byte.
ghost use Rattle.std.specs.Prelude.{◌≡◌, length};
ghost use Rattle.eb_rule_text.specs.Blocks as blocks;
ghost use Rattle.eb_rule_text.specs.Passes as spec;
ghost use Rattle.eb_rule_text.specs.Passes.{Gives};

use crate::errors::{ReadError, TextError, TokenError};
use crate::lexing::lex;
use crate::parsing::{parse_job, parse_rules};
use crate::trees::{JobTree, RulesTree};
use eb_base::Items;
use std::alloc::Global;

/// A tree, and the bytes where the tokens of its text begin.
#[derive(Drop)]
pub struct Placed<T> {
    pub tree: T,
    /// The first byte of each token, in the order of the text.
    pub places: Items<usize>,
}

/// The tree of a text of rules, and the places of its tokens. The first refusal of the first pass that has one:
/// `Token` of the tokens, then `Syntax` or `Depth` of the syntax. `docs/rules.md`, "Refusals".
pub fn read_rules(alloc: Global, text: &[u8]) -> Result<Placed<RulesTree>, TextError>
    ensures { Gives (spec.read_text blocks.rules text.now) result }
{
    match lex(alloc, text) {
        Err(e) => Err(token_refusal(e)),
        Ok(lexed) => match parse_rules(alloc, lexed.lexemes.items()) {
            Err(e) => Err(read_refusal(e, lexed.places.items(), text.len())),
            Ok(tree) => Ok(Placed {
                tree,
                places: lexed.places,
            }),
        },
    }
}

/// The tree of a text of a job, and the places of its tokens. The same refusals.
pub fn read_job(alloc: Global, text: &[u8]) -> Result<Placed<JobTree>, TextError>
    ensures { Gives (spec.read_text blocks.job text.now) result }
{
    match lex(alloc, text) {
        Err(e) => Err(token_refusal(e)),
        Ok(lexed) => match parse_job(alloc, lexed.lexemes.items()) {
            Err(e) => Err(read_refusal(e, lexed.places.items(), text.len())),
            Ok(tree) => Ok(Placed {
                tree,
                places: lexed.places,
            }),
        },
    }
}

fn token_refusal(e: TokenError) -> TextError
    ensures { result ≡ spec.token_refusal e }
{
    match e {
        TokenError::Memory => TextError::Memory,
        TokenError::Token(at) => TextError::Token(at),
    }
}

fn read_refusal(e: ReadError, places: &[usize], end: usize) -> TextError
    ensures { result ≡ spec.read_refusal e places.now end }
{
    match e {
        ReadError::Memory => TextError::Memory,
        ReadError::Syntax(left) => TextError::Syntax(byte_of(places, left, end)),
        ReadError::Depth(left) => TextError::Depth(byte_of(places, left, end)),
    }
}

// The byte where the token begins that so many tokens are left from, or the end of the text.
fn byte_of(places: &[usize], left: usize, end: usize) -> usize
    ensures { result ≡ spec.byte_of places.now left end }
{
    if left == 0 || left > places.len() {
        end
    } else {
        places[places.len() - left]
    }
}
