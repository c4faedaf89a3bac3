// From the bytes of a text to its tokens.
ghost use Rattle.std.specs.Prelude.{◌≡◌, ◌≢◌, ◌<◌, ◌≤◌, ◌+◌, ◌^◌, length, drop, map, IfOk, OnOk};
ghost use Rattle.eb_base.specs.Digits.{below, digits_after};
ghost use Rattle.eb_base.specs.FixedPoint.{fixed_of};
ghost use Rattle.eb_rule_text.specs.Tokens as spec;
ghost use Rattle.eb_rule_text.specs.Tokens.{Tells};

use crate::cutting::{Sort, cut};
use crate::errors::TokenError;
use crate::lexemes::{Lexed, Lexeme};
use crate::marks::Mark;
use eb_base::words::is_letter;
use eb_base::{Items, Memory, Text, digits_read, fix_read};
use std::alloc::Global;

// One more than the greatest whole number.
const INT_LIMIT: u128 = 1 << 63;

/// The reserved words.
pub const WORDS: [(&[u8], Mark); 35] = [
    (b"baker", Mark::Baker),
    (b"system", Mark::System),
    (b"job", Mark::Job),
    (b"on", Mark::On),
    (b"let", Mark::Let),
    (b"if", Mark::If),
    (b"else", Mark::Else),
    (b"add", Mark::Add),
    (b"set", Mark::Set),
    (b"remove", Mark::Remove),
    (b"create", Mark::Create),
    (b"destroy", Mark::Destroy),
    (b"extra", Mark::Extra),
    (b"this", Mark::This),
    (b"own", Mark::Own),
    (b"parent", Mark::Parent),
    (b"children", Mark::Children),
    (b"within", Mark::Within),
    (b"asset", Mark::Asset),
    (b"entity", Mark::Entity),
    (b"at", Mark::At),
    (b"sum", Mark::Sum),
    (b"count", Mark::Count),
    (b"min", Mark::Min),
    (b"max", Mark::Max),
    (b"all", Mark::All),
    (b"any", Mark::Any),
    (b"none", Mark::None),
    (b"key", Mark::Key),
    (b"or", Mark::Or),
    (b"fix", Mark::Fix),
    (b"int", Mark::Int),
    (b"null", Mark::Null),
    (b"true", Mark::True),
    (b"false", Mark::False),
];

/// What a piece of the text means.
#[derive(Drop)]
pub enum Found {
    /// No token: no byte of the language, or a number out of range.
    Nothing,
    /// A blank or a comment.
    Blank,
    Token(Lexeme),
}

/// The tokens of a text and their places. `Token` at the first byte where no token begins, or where a number begins that is out
/// of range. Takes time linear in the text. `docs/rules.md`, "Tokens".
#[tactic(auto, unfolding(crate::specs::Tokens::tokens), using(crate::proofs::TokenFacts::after_nothing))]
pub fn lex(alloc: Global, text: &[u8]) -> Result<Lexed, TokenError>
    ensures { Tells (spec.tokens text.now) result }
{
    let mut lexed = Lexed {
        places: Items::new(alloc),
        lexemes: Items::new(alloc),
    };
    let mut rest = text;
    let mut at = 0;
    while !rest.is_empty() {
        let len = advance(alloc, rest, at, &mut lexed)?;
        let (_, tail) = rest.split_at(len);
        rest = tail;
        at += len;
    }
    Ok(lexed)
}

// Takes what stands at the front, and answers how long it is.
fn advance(alloc: Global, rest: &[u8], at: usize, lexed: &mut Lexed) -> Result<usize, TokenError>
    requires { 0 < length rest.now }
    ensures onward { IfOk result (λ n. spec.after lexed.new (spec.tokens_from 0 (at + n) (drop n rest.now)) ≡ spec.after lexed.old (spec.tokens_from 0 at rest.now)) }
    ensures within { IfOk result (λ n. (1 ≤ n) × (n ≤ length rest.now)) }
    ensures err { spec.Refuses result (spec.after lexed.old (spec.tokens_from 0 at rest.now)) }
{
    let (sort, len) = cut(rest);
    match meaning(alloc, sort, &rest[..len])? {
        Found::Nothing => Err(TokenError::Token(at)),
        Found::Blank => Ok(len),
        Found::Token(lexeme) => {
            keep(lexed, at, lexeme)?;
            Ok(len)
        }
    }
}

fn keep(lexed: &mut Lexed, at: usize, lexeme: Lexeme) -> Result<(), Memory>
    ensures { OnOk result (lexed.new ≡ spec.kept lexed.old at lexeme) }
{
    lexed.places.push(at)?;
    lexed.lexemes.push(lexeme)?;
    Ok(())
}

fn meaning(alloc: Global, sort: Sort, spelling: &[u8]) -> Result<Found, Memory>
    ensures { IfOk result (λ found. found ≡ spec.meaning sort spelling.now) }
{
    match sort {
        Sort::Blank => Ok(Found::Blank),
        Sort::Illegal => Ok(Found::Nothing),
        Sort::Sign(mark) => Ok(Found::Token(Lexeme::Mark(mark))),
        Sort::Int => Ok(int_found(spelling)),
        Sort::Fix => Ok(fix_found(spelling)),
        Sort::Word => {
            let lexeme = word_found(alloc, spelling)?;
            Ok(Found::Token(lexeme))
        }
    }
}

fn int_found(spelling: &[u8]) -> Found
    ensures { result ≡ spec.int_found (below (2 ^ 63) (digits_after 0 spelling.now)) }
{
    match digits_read(0, INT_LIMIT, spelling) {
        None => Found::Nothing,
        Some(n) => Found::Token(Lexeme::Int(n as i64)),
    }
}

fn fix_found(spelling: &[u8]) -> Found
    ensures { result ≡ spec.fix_found (fixed_of spelling.now) }
{
    match fix_read(spelling) {
        None => Found::Nothing,
        Some(units) => Found::Token(Lexeme::Fix(units)),
    }
}

#[tactic(auto, unfolding(crate::specs::Tokens::keyword))]
fn word_found(alloc: Global, word: &[u8]) -> Result<Lexeme, Memory>
    ensures { IfOk result (λ lexeme. lexeme ≡ spec.word_found (spec.keyword word.now) word.now) }
{
    match lookup(&WORDS, word) {
        Some(mark) => Ok(Lexeme::Mark(mark)),
        None => name_found(alloc, word),
    }
}

fn name_found(alloc: Global, word: &[u8]) -> Result<Lexeme, Memory>
    ensures { IfOk result (λ lexeme. lexeme ≡ spec.name_found word.now) }
{
    match word {
        [] => Ok(Lexeme::Underscored),
        [first, ..] => {
            if !is_letter(*first) {
                return Ok(Lexeme::Underscored);
            }
            Ok(Lexeme::Name(Text::of(alloc, word)?))
        }
    }
}

// What the table says of the word, by its first entry of that name.
fn lookup(table: &[(&[u8], Mark)], word: &[u8]) -> Option<Mark>
    ensures { result ≡ spec.lookup (map (λ k. (k.0.now, k.1)) table.now) word.now }
{
    for entry in table {
        if entry.0 == word {
            return Some(entry.1);
        }
    }
    None
}
