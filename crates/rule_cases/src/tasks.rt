// What the rows of a part are.
ghost use Rattle.std.specs.Prelude.{◌<◌};

use case_parts::Part;

/// What is done with the text of a row.
#[derive(Clone, Copy, Debug, PartialEq, Eq)]
pub enum Task {
    /// It is accepted: one line a row.
    Accepted,
    /// It is refused: one line a row, a letter for the refusal and the text with a mark at its byte.
    Refused,
    /// It is in the grammar, whatever its names: one line a row.
    Read,
    /// What it is printed as: two lines a row.
    Printed,
    /// Its resolved tree: two lines a row.
    Resolved,
}

/// What a text is of.
#[derive(Clone, Copy, Debug, PartialEq, Eq)]
pub enum Language {
    Rules,
    Job,
}

/// What the rows of a part are, where its head is one of rows.
pub fn task_of(part: &Part) -> Option<(Task, Language)> {
    Some((named_task(part)?, language_of(part)?))
}

fn named_task(part: &Part) -> Option<Task> {
    match str::from_utf8(part.word.bytes()) {
        Ok("accepted") => Some(Task::Accepted),
        Ok("refused") => Some(Task::Refused),
        Ok("read") => Some(Task::Read),
        Ok("printed") => Some(Task::Printed),
        Ok("resolved") => Some(Task::Resolved),
        _ => None,
    }
}

fn language_of(part: &Part) -> Option<Language> {
    match str::from_utf8(part.name.bytes()) {
        Ok("rules") => Some(Language::Rules),
        Ok("jobs") => Some(Language::Job),
        _ => None,
    }
}

impl Task {
    /// How many lines a row has.
    pub fn lines(self) -> usize
        ensures { 0 < result }
    {
        match self {
            Task::Printed | Task::Resolved => 2,
            _ => 1,
        }
    }
}
