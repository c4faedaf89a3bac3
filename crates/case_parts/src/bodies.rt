// The bytes of a part, from its lines.
use crate::faults::CaseFault;
use crate::heads::Form;
use eb_base::Text;
use hex::FromHexError;
use std::alloc::Global;

/// The most bytes that one repetition makes.
const MOST_REPEATED: usize = 1 << 20;

/// The bytes that the lines of a part stand for. `at` is the line of the part's head.
pub fn body_of(alloc: Global, at: u64, form: Form, lines: &str) -> Result<Text, CaseFault> {
    match form {
        Form::Text => Ok(Text::of(alloc, lines.as_bytes())?),
        Form::Bare => Ok(Text::of(alloc, without_line_feed(lines).as_bytes())?),
        Form::Hex => {
            let mut bytes = Vec::new(alloc);
            for word in lines.split_whitespace() {
                push_word(alloc, at, &mut bytes, word)?;
            }
            Ok(Text::from_vec(bytes))
        }
    }
}

fn without_line_feed(lines: &str) -> &str {
    lines.strip_suffix('\n').unwrap_or(lines)
}

/// Adds the bytes of a word: hexadecimal digits, or `DIGITS*COUNT`, which stands for so many of them.
fn push_word(alloc: Global, at: u64, bytes: &mut Vec<u8>, word: &str) -> Result<(), CaseFault> {
    let (digits, count) = match word.split_once('*') {
        None => (word, 1),
        Some((digits, count)) => (digits, count_of(at, count)?),
    };
    let once = decoded(alloc, at, digits)?;
    for _ in 0..count {
        bytes.extend_from_slice(once.as_slice())?;
    }
    Ok(())
}

fn count_of(at: u64, count: &str) -> Result<usize, CaseFault> {
    match count.parse::<usize>() {
        Ok(count) if count <= MOST_REPEATED => Ok(count),
        _ => Err(CaseFault::Line(
            at,
            "a count of hexadecimal digits is no number up to 1048576",
        )),
    }
}

fn decoded(alloc: Global, at: u64, digits: &str) -> Result<Vec<u8>, CaseFault> {
    match hex::decode(alloc, digits) {
        Ok(bytes) => Ok(bytes),
        Err(FromHexError::OutOfMemory) => Err(CaseFault::Memory),
        Err(_) => Err(CaseFault::Line(at, "hexadecimal digits are none, or odd")),
    }
}
