// The heads of parts: lines `-- FORM WORD NAME --`.

/// How the bytes of a part are written.
#[derive(Clone, Copy, Debug, PartialEq, Eq)]
pub enum Form {
    /// The lines as they stand.
    Text,
    /// The lines as they stand, without the last line feed.
    Bare,
    /// Hexadecimal digits.
    Hex,
}

/// What stands in the head of a part.
#[derive(Clone, Copy, Debug)]
pub struct Head<'a> {
    pub form: Form,
    pub word: &'a str,
    /// What stands behind the word, or nothing.
    pub name: &'a str,
}

/// The head that a line is, if it is one.
pub fn head_of(line: &str) -> Option<Head<'_>> {
    let inner = line.strip_prefix("-- ")?.strip_suffix(" --")?;
    let (form, rest) = form_of(inner);
    let (word, name) = rest.split_once(' ').unwrap_or((rest, ""));
    if word.is_empty() {
        return None;
    }
    Some(Head { form, word, name })
}

fn form_of(inner: &str) -> (Form, &str) {
    if let Some(rest) = inner.strip_prefix("hex ") {
        return (Form::Hex, rest);
    }
    if let Some(rest) = inner.strip_prefix("bare ") {
        return (Form::Bare, rest);
    }
    (Form::Text, inner)
}
