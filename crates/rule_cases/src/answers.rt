// What comes of a text, as a text.
use crate::plan_texts::{put_job, put_rules};
use crate::tasks::{Language, Task};
use case_parts::CaseFault;
use eb_base::Text;
use eb_rule_text::{TextError, print_job, print_rules, read_job, read_rules};
use eb_rules::{Job, RuleFault, RuleKind, Rules, rules_text};
use eb_schema::Schema;
use std::alloc::Global;

/// What comes of the text of a row.
pub fn answer(
    alloc: Global,
    schema: &Schema,
    task: Task,
    language: Language,
    text: &[u8],
) -> Result<Text, CaseFault> {
    match (task, language) {
        (Task::Read, Language::Rules) => rules_read(alloc, text),
        (Task::Read, Language::Job) => job_read(alloc, text),
        (Task::Printed, Language::Rules) => printed_rules(alloc, text),
        (Task::Printed, Language::Job) => printed_job(alloc, text),
        (Task::Resolved, Language::Rules) => resolved_rules(alloc, schema, text),
        (Task::Resolved, Language::Job) => resolved_job(alloc, schema, text),
        (_, Language::Rules) => rules_accepted(alloc, schema, text),
        (_, Language::Job) => job_accepted(alloc, schema, text),
    }
}

/// `accepted` of rules that are printed as a text which is accepted and printed as itself; else the refusal.
fn rules_accepted(alloc: Global, schema: &Schema, text: &[u8]) -> Result<Text, CaseFault> {
    let printed = match Rules::read(alloc, text, schema) {
        Ok(rules) => rules_text(alloc, &rules)?,
        Err(fault) => return refusal(alloc, fault),
    };
    match Rules::read(alloc, printed.bytes(), schema) {
        Ok(rules) => {
            let again = rules_text(alloc, &rules)?;
            said(alloc, again.is(printed.bytes()), "accepted")
        }
        Err(_) => said(alloc, false, "accepted"),
    }
}

fn job_accepted(alloc: Global, schema: &Schema, text: &[u8]) -> Result<Text, CaseFault> {
    match Job::read(alloc, text, schema) {
        Ok(_) => said(alloc, true, "accepted"),
        Err(fault) => refusal(alloc, fault),
    }
}

/// `read` of rules in the grammar that are printed as a text which is read and printed as itself; else the refusal.
fn rules_read(alloc: Global, text: &[u8]) -> Result<Text, CaseFault> {
    let printed = match read_rules(alloc, text) {
        Ok(placed) => print_rules(alloc, &placed.tree)?,
        Err(error) => return text_refusal(alloc, error),
    };
    match read_rules(alloc, printed.bytes()) {
        Ok(placed) => {
            let again = print_rules(alloc, &placed.tree)?;
            said(alloc, again.is(printed.bytes()), "read")
        }
        Err(_) => said(alloc, false, "read"),
    }
}

fn job_read(alloc: Global, text: &[u8]) -> Result<Text, CaseFault> {
    match read_job(alloc, text) {
        Ok(_) => said(alloc, true, "read"),
        Err(error) => text_refusal(alloc, error),
    }
}

fn printed_rules(alloc: Global, text: &[u8]) -> Result<Text, CaseFault> {
    match read_rules(alloc, text) {
        Ok(placed) => on_one_line(alloc, &print_rules(alloc, &placed.tree)?),
        Err(error) => text_refusal(alloc, error),
    }
}

fn printed_job(alloc: Global, text: &[u8]) -> Result<Text, CaseFault> {
    match read_job(alloc, text) {
        Ok(placed) => on_one_line(alloc, &print_job(alloc, &placed.tree)?),
        Err(error) => text_refusal(alloc, error),
    }
}

fn resolved_rules(alloc: Global, schema: &Schema, text: &[u8]) -> Result<Text, CaseFault> {
    let mut out = Vec::new(alloc);
    match Rules::read(alloc, text, schema) {
        Ok(rules) => put_rules(alloc, &mut out, rules.resolved())?,
        Err(fault) => return refusal(alloc, fault),
    }
    Ok(Text::from_vec(out))
}

fn resolved_job(alloc: Global, schema: &Schema, text: &[u8]) -> Result<Text, CaseFault> {
    let mut out = Vec::new(alloc);
    match Job::read(alloc, text, schema) {
        Ok(job) => put_job(alloc, &mut out, job.resolved())?,
        Err(fault) => return refusal(alloc, fault),
    }
    Ok(Text::from_vec(out))
}

fn said(alloc: Global, is_again: bool, word: &str) -> Result<Text, CaseFault> {
    let word = if is_again {
        word
    } else {
        "printed as another text"
    };
    Ok(Text::of(alloc, word.as_bytes())?)
}

/// The text with `~` for each line feed.
fn on_one_line(alloc: Global, text: &Text) -> Result<Text, CaseFault> {
    let mut line = Vec::new(alloc);
    for byte in text.bytes() {
        line.push(if *byte == b'\n' { b'~' } else { *byte })?;
    }
    Ok(Text::from_vec(line))
}

fn refusal(alloc: Global, fault: RuleFault) -> Result<Text, CaseFault> {
    match fault {
        RuleFault::Memory => Err(CaseFault::Memory),
        RuleFault::At { at, kind } => {
            let letter = letter_of(kind);
            let line = format!(in alloc; "{letter} {at}")?;
            Ok(Text::from_vec(line.into_bytes()))
        }
    }
}

fn text_refusal(alloc: Global, error: TextError) -> Result<Text, CaseFault> {
    let line = match error {
        TextError::Memory => return Err(CaseFault::Memory),
        TextError::Token(at) => format!(in alloc; "T {at}")?,
        TextError::Syntax(at) => format!(in alloc; "S {at}")?,
        TextError::Depth(at) => format!(in alloc; "D {at}")?,
    };
    Ok(Text::from_vec(line.into_bytes()))
}

fn letter_of(kind: RuleKind) -> &'static str {
    match kind {
        RuleKind::Token => "T",
        RuleKind::Syntax => "S",
        RuleKind::UnknownName => "U",
        RuleKind::TypeFault => "F",
        RuleKind::NameTaken => "N",
        RuleKind::TooMany => "M",
        RuleKind::Depth => "D",
    }
}
