// The parts of a file: heads, and the lines behind them.
ghost use Rattle.std.specs.Prelude.{◌≤◌, length};

use crate::bodies::body_of;
use crate::faults::CaseFault;
use crate::heads::{Form, Head, head_of};
use eb_base::Text;
use std::alloc::Global;

/// A part of a file of cases.
#[derive(Drop)]
pub struct Part {
    /// The line of its head, from 1.
    pub line: u64,
    /// The first word of its head.
    pub word: Text,
    /// What stands behind that word, or nothing.
    pub name: Text,
    pub body: Text,
}

/// The head of the part that is being read.
#[derive(Drop)]
struct Open {
    line: u64,
    form: Form,
    word: Text,
    name: Text,
}

/// The parts that have been read, and the one that is being read.
#[derive(Drop)]
struct Reading {
    parts: Vec<Part>,
    open: Option<Open>,
    lines: String,
}

/// The parts of a file, in order. What stands before the first head is a comment.
///
/// Refused at its line: a text that doesn't end in a line feed, a line that begins with two hyphens and is no head, a
/// head that stands twice in a case or before all cases, and hexadecimal digits that are none.
pub fn read_parts(alloc: Global, text: &str) -> Result<Vec<Part>, CaseFault> {
    let mut reading = Reading {
        parts: Vec::new(alloc),
        open: None,
        lines: String::new(alloc),
    };
    let mut number = 0u64;
    for line in text.split_inclusive('\n') {
        number = number.saturating_add(1);
        reading.take(alloc, number, line)?;
    }
    reading.close(alloc)?;
    Ok(reading.parts)
}

/// How many parts stand before the first that begins a case.
pub fn cases_start(parts: &[Part]) -> usize
    ensures { result ≤ length parts.now }
{
    parts
        .iter()
        .position(|part| part.word.is(b"case"))
        .unwrap_or(parts.len())
}

impl Reading {
    fn take(&mut self, alloc: Global, number: u64, line: &str) -> Result<(), CaseFault> {
        let Some(inner) = line.strip_suffix('\n') else {
            return Err(CaseFault::Line(number, "no line feed at the end"));
        };
        if !inner.starts_with("--") {
            self.lines.push_str(line)?;
            return Ok(());
        }
        let Some(head) = head_of(inner) else {
            return Err(CaseFault::Line(number, "no head of a part"));
        };
        self.begin(alloc, number, &head)
    }

    /// Ends the part that is being read, and begins one.
    fn begin(&mut self, alloc: Global, line: u64, head: &Head<'_>) -> Result<(), CaseFault> {
        if head.word == "case" {
            drop_empty_line(&mut self.lines);
        }
        self.close(alloc)?;
        if is_taken(self.parts.as_slice(), head) {
            return Err(CaseFault::Line(line, "a part that is there twice"));
        }
        self.open = Some(Open {
            line,
            form: head.form,
            word: Text::of(alloc, head.word.as_bytes())?,
            name: Text::of(alloc, head.name.as_bytes())?,
        });
        Ok(())
    }

    /// Ends the part that is being read, if there is one.
    fn close(&mut self, alloc: Global) -> Result<(), CaseFault> {
        if let Some(
            Open {
                line,
                form,
                word,
                name,
            },
        ) = self.open.take()
        {
            let body = body_of(alloc, line, form, self.lines.as_str())?;
            self.parts.push(Part {
                line,
                word,
                name,
                body,
            })?;
        }
        self.lines.clear();
        Ok(())
    }
}

/// An empty line before a case belongs to no part.
fn drop_empty_line(lines: &mut String) {
    if lines.as_str() == "\n" || lines.as_str().ends_with("\n\n") {
        let _ = lines.pop();
    }
}

/// Whether a part of this head is there already, before all cases or since the last one began.
fn is_taken(parts: &[Part], head: &Head<'_>) -> bool {
    head.word != "case"
        && parts
            .iter()
            .rev()
            .take_while(|part| !part.word.is(b"case"))
            .any(|part| part.word.is(head.word.as_bytes()) && part.name.is(head.name.as_bytes()))
}
