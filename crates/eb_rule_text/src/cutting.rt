// Where the token at the front of a text ends, and of which sort it is. Each is the longest one.
ghost use Rattle.std.specs.Prelude.{◌≡◌, ◌≢◌, ◌<◌, ◌≤◌, min, true, slice_index, length, None};
ghost use Rattle.std.specs.List.{prefix_len};
ghost use Rattle.eb_rule_text.specs.Tokens as spec;

use crate::marks::Mark;
use eb_base::words::is_word_byte;

// A word is cut behind so many bytes, and what follows begins the next token.
const WORD_BYTES: usize = 32;

/// What stands at the front of a text.
#[derive(Clone, Copy, Debug)]
pub enum Sort {
    /// A blank byte, or a comment.
    Blank,
    /// A letter or underscore, and letters, digits and underscores behind it.
    Word,
    /// Digits.
    Int,
    /// Digits, a point, and digits.
    Fix,
    /// A sign.
    Sign(Mark),
    /// A byte that begins nothing.
    Illegal,
}

/// What the first byte of a token says of it.
#[derive(Clone, Copy, Debug)]
pub enum Start {
    Blank,
    Comment,
    Number,
    Word,
    Other,
}

/// Bytes that go on.
#[derive(Clone, Copy, Debug)]
pub enum Run {
    /// Up to the end of the line.
    Line,
    Digits,
    Word,
}

/// The sort of what stands at the front of the text, and how many bytes it has.
#[tactic(auto, unfolding(crate::specs::Tokens::cut))]
pub fn cut(z: &[u8]) -> (Sort, usize)
    requires { 0 < length z.now }
    ensures value { result ≡ spec.cut z.now }
    ensures within { (1 ≤ result.1) × (result.1 ≤ length z.now) }
{
    match start_of(z[0]) {
        Start::Blank => (Sort::Blank, 1),
        Start::Comment => (Sort::Blank, past(Run::Line, z)),
        Start::Number => number(z),
        Start::Word => (Sort::Word, word(z)),
        Start::Other => sign(z[0], byte_at(z, 1)),
    }
}

fn start_of(b: u8) -> Start
    ensures { result ≡ spec.start_of b }
{
    if b == b' ' || b == b'\t' || b == b'\n' || b == b'\r' {
        Start::Blank
    } else if b == b'#' {
        Start::Comment
    } else if is_digit(b) {
        Start::Number
    } else if is_word_byte(b) {
        Start::Word
    } else {
        Start::Other
    }
}

fn is_digit(b: u8) -> bool
    ensures { result ≡ spec.is_digit b }
{
    b >= b'0' && b <= b'9'
}

fn is_in(run: Run, b: u8) -> bool
    ensures { result ≡ spec.is_in run b }
{
    match run {
        Run::Line => b != b'\n',
        Run::Digits => is_digit(b),
        Run::Word => is_word_byte(b),
    }
}

// The byte at a place, and behind the end 0, which is in no run and no sign.
fn byte_at(text: &[u8], place: usize) -> u8
    ensures value { result ≡ slice_index text.now place }
    ensures inside { result ≢ 0 → place < length text.now }
{
    match text.get(place) {
        Some(byte) => *byte,
        None => 0,
    }
}

// How many bytes at the front go on.
fn past(run: Run, z: &[u8]) -> usize
    ensures value { result ≡ prefix_len (spec.is_in run) z.now }
    ensures within { result ≤ length z.now }
    ensures moves { 0 < length z.now → spec.is_in run (slice_index z.now 0) ≡ true → 1 ≤ result }
{
    z.iter().take_while(|b| is_in(run, **b)).count()
}

// A word, of which no byte is looked at behind the greatest length.
fn word(z: &[u8]) -> usize
    requires some { 0 < length z.now }
    requires begins { spec.is_in Run.Word (slice_index z.now 0) ≡ true }
    ensures value { result ≡ min (prefix_len (spec.is_in Run.Word) z.now) 32 }
    ensures within { (1 ≤ result) × (result ≤ length z.now) }
{
    past(Run::Word, &z[..z.len().min(WORD_BYTES)])
}

// A number, with its fraction where a digit stands behind the point.
fn number(z: &[u8]) -> (Sort, usize)
    requires some { 0 < length z.now }
    requires digit { spec.is_digit (slice_index z.now 0) ≡ true }
    ensures value { result ≡ spec.number z.now }
    ensures within { (1 ≤ result.1) × (result.1 ≤ length z.now) }
{
    let whole = past(Run::Digits, z);
    if byte_at(z, whole) == b'.' && is_digit(byte_at(z, whole + 1)) {
        (Sort::Fix, whole + 1 + past(Run::Digits, &z[whole + 1..]))
    } else {
        (Sort::Int, whole)
    }
}

// A sign of two bytes, or else of one.
fn sign(b: u8, next: u8) -> (Sort, usize)
    ensures value { result ≡ spec.sign b next }
    ensures within { spec.IsShort next result.1 }
{
    if let Some(mark) = double(b, next) {
        return (Sort::Sign(mark), 2);
    }
    match single(b) {
        Some(mark) => (Sort::Sign(mark), 1),
        None => (Sort::Illegal, 1),
    }
}

fn double(b: u8, next: u8) -> Option<Mark>
    ensures value { result ≡ spec.double b next }
    ensures within { next ≡ 0 → result ≡ None }
{
    match b {
        b'=' => pair(next, b'=', Mark::Equal),
        b'!' => pair(next, b'=', Mark::NotEqual),
        b'<' => pair(next, b'=', Mark::AtMost),
        b'>' => pair(next, b'=', Mark::AtLeast),
        b'&' => pair(next, b'&', Mark::And),
        b'|' => pair(next, b'|', Mark::Either),
        _ => None,
    }
}

fn pair(next: u8, second: u8, mark: Mark) -> Option<Mark>
    ensures { result ≡ spec.pair next second mark }
{
    if next == second { Some(mark) } else { None }
}

fn single(b: u8) -> Option<Mark>
    ensures { result ≡ spec.single b }
{
    match b {
        b'{' => Some(Mark::LBrace),
        b'}' => Some(Mark::RBrace),
        b'(' => Some(Mark::LParen),
        b')' => Some(Mark::RParen),
        b',' => Some(Mark::Comma),
        b':' => Some(Mark::Colon),
        b';' => Some(Mark::Semicolon),
        b'.' => Some(Mark::Dot),
        b'=' => Some(Mark::Assign),
        b'<' => Some(Mark::Less),
        b'>' => Some(Mark::Greater),
        b'+' => Some(Mark::Plus),
        b'-' => Some(Mark::Minus),
        b'*' => Some(Mark::Star),
        b'/' => Some(Mark::Slash),
        b'!' => Some(Mark::Not),
        _ => None,
    }
}
