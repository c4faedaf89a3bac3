// A case: its own parts, and those that it shares with the other cases of its file.
ghost use Rattle.std.specs.Prelude.{◌≡◌, option_map};
ghost use Rattle.run_cases.specs.Wanted.{has_head, body_in, body_or};

use case_parts::{CaseFault, Part, without_line_feed};
use eb_base::Text;
use eb_run::Limits;
use std::alloc::Global;

/// The most bytes that a run may take.
const MOST_BYTES: u64 = 1 << 40;

/// The most edit files of a run.
const MOST_FILES: u32 = 1 << 20;

/// A case of a file.
#[derive(Clone, Copy)]
pub struct Case<'a> {
    /// The line of its head.
    pub line: u64,
    /// The parts before the first case of the file.
    pub shared: &'a [Part],
    /// The parts of the case.
    pub own: &'a [Part],
}

/// Whether the head of a part has this word and this name.
#[tactic(auto, unfolding(crate::specs::Wanted::has_head))]
fn has_head(part: &Part, word: &[u8], name: &[u8]) -> bool
    ensures { result ≡ has_head part.now word.now name.now }
{
    part.word.bytes() == word && part.name.bytes() == name
}

/// The body of the first part of this word and name.
pub fn body_in<'a>(parts: &'a [Part], word: &[u8], name: &[u8]) -> Option<&'a [u8]>
    ensures { option_map (λ body. body.now) result ≡ body_in parts.now word.now name.now }
{
    for part in parts {
        if has_head(part, word, name) {
            return Some(part.body.bytes());
        }
    }
    None
}

impl<'a> Case<'a> {
    /// The body of the part of this word and name, the case's own before a shared one.
    pub fn body(&self, word: &[u8], name: &[u8]) -> Option<&'a [u8]>
        ensures { option_map (λ body. body.now) result ≡ body_or (body_in self.now.own.now word.now name.now) (body_in self.now.shared.now word.now name.now) }
    {
        match body_in(self.own, word, name) {
            Some(body) => Some(body),
            None => body_in(self.shared, word, name),
        }
    }

    /// That something of the case isn't as the format wants it.
    fn fault(&self, what: &'static str) -> CaseFault {
        CaseFault::Line(self.line, what)
    }

    /// The words of the run.
    pub fn words(&self, alloc: Global) -> Result<Vec<Text>, CaseFault> {
        let mut words = Vec::new(alloc);
        let body = self.body(b"words", b"").unwrap_or(b"session\n");
        for line in body.split_inclusive(|byte| *byte == b'\n') {
            words.push(Text::of(alloc, without_line_feed(line))?)?;
        }
        Ok(words)
    }

    /// The limits of the run, where the case sets any.
    pub fn limits(&self) -> Result<Option<Limits>, CaseFault> {
        let Some(body) = self.body(b"limits", b"") else {
            return Ok(None);
        };
        let mut limits = Limits::most();
        for line in body.split_inclusive(|byte| *byte == b'\n') {
            if set_limit(&mut limits, without_line_feed(line)).is_none() {
                return Err(self.fault("a line of limits is none"));
            }
        }
        Ok(Some(limits))
    }

    /// The numbers of the calls that fail, of the shelf, the source or the sink.
    pub fn fails(&self, alloc: Global, of: &[u8]) -> Result<Vec<u32>, CaseFault> {
        let mut fails = Vec::new(alloc);
        let body = self.body(b"fails", of).unwrap_or(b"");
        for line in body.split_inclusive(|byte| *byte == b'\n') {
            match number_of(without_line_feed(line)).and_then(|number| u32::try_from(number).ok()) {
                Some(number) => fails.push(number)?,
                None => return Err(self.fault("the number of a call is none")),
            }
        }
        Ok(fails)
    }

    /// The files of the folder before the run.
    pub fn files(&self, alloc: Global) -> Result<Vec<(Text, Vec<u8>)>, CaseFault> {
        let mut files = Vec::new(alloc);
        push_files(alloc, &mut files, self.own, &[])?;
        push_files(alloc, &mut files, self.shared, self.own)?;
        Ok(files)
    }
}

/// Whether a part is a file of the folder before the run.
pub fn is_file(part: &Part) -> bool {
    part.word.bytes().contains(&b'.') && part.name.bytes().is_empty()
}

/// Adds the files of some parts, but those that others say something of.
fn push_files(
    alloc: Global,
    files: &mut Vec<(Text, Vec<u8>)>,
    parts: &[Part],
    others: &[Part],
) -> Result<(), CaseFault> {
    for part in parts {
        if is_file(part) && !speaks_of(others, part.word.bytes()) {
            let bytes = Vec::from_slice(alloc, part.body.bytes())?;
            files.push((part.word.copy(alloc)?, bytes))?;
        }
    }
    Ok(())
}

/// Whether one of the parts is a file of this name, or says that there is none.
fn speaks_of(parts: &[Part], name: &[u8]) -> bool {
    parts.iter().any(|part| part.word.is(name) || (part.word.is(b"no") && part.name.is(name)))
}

fn number_of(digits: &[u8]) -> Option<u64> {
    str::from_utf8(digits).ok()?.parse::<u64>().ok()
}

/// Reads a line `lines N`, `bytes N` or `files N`.
fn set_limit(limits: &mut Limits, line: &[u8]) -> Option<()> {
    let (word, number) = str::from_utf8(line).ok()?.split_once(' ')?;
    let number = number.parse::<u64>().ok()?;
    match word {
        "lines" if number <= u64::from(u32::MAX) => limits.lines = number,
        "bytes" if number <= MOST_BYTES => limits.bytes = number,
        "files" if number <= u64::from(MOST_FILES) => {
            limits.files = u32::try_from(number).ok()?.min(MOST_FILES);
        }
        _ => return None,
    }
    Some(())
}

/// The words that stand alone in a head.
const PLAIN: [&str; 6] = ["words", "limits", "in", "status", "out", "writes"];

/// The words that stand before a name.
const NAMED: [&str; 4] = ["case", "no", "after", "gone"];

/// What may fail.
const FAILING: [&str; 3] = ["shelf", "source", "sink"];

/// Whether a part has a head that `docs/cases.md` knows.
pub fn is_known(part: &Part) -> bool {
    if part.name.bytes().is_empty() {
        return is_file(part) || is_among(&PLAIN, &part.word);
    }
    if part.word.is(b"fails") {
        return is_among(&FAILING, &part.name);
    }
    is_among(&NAMED, &part.word)
}

/// Whether a part says what only a case may say of the end of its run.
pub fn only_a_case_says(part: &Part) -> bool {
    part.word.is(b"out") || part.word.is(b"after") || part.word.is(b"gone")
}

fn is_among(words: &[&str], text: &Text) -> bool {
    words.iter().any(|word| text.is(word.as_bytes()))
}
