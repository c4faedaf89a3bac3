// The lines that refuse a folder.
ghost use Rattle.std.specs.Prelude.{◌≡◌, IfOk, string_bytes};
ghost use Rattle.eb_session.specs.Refusals as refusals;
ghost use Rattle.eb_session.specs.Refusals.{refused_line, schema_refusal, kind_words, rules_refusal, rule_refusal, project_refusal};

use crate::replies::refusal;
use eb_base::{Memory, Text};
use eb_rules::{RuleFault, RuleKind};
use eb_scene_text::ProjectFault;
use eb_schema::SchemaFault;
use std::alloc::{AllocError, Global};

/// The line that refuses a file, with its line feed.
#[tactic(auto, unfolding(crate::specs::Refusals::refused_line))]
pub fn refused(alloc: Global, file: &str, why: &str) -> Result<Text, Memory>
    ensures { IfOk result (λ line. line ≡ refused_line file.now why.now) }
{
    let line = format!(in alloc; "refused {file} {why}\n")?;
    Ok(Text::from_vec(line.into_bytes()))
}

/// Why a document is no schema, by number, name and place.
#[tactic(auto, unfolding(crate::specs::Refusals::schema_refusal))]
pub fn of_schema(alloc: Global, fault: SchemaFault) -> Result<String, AllocError>
    ensures { IfOk result (λ text. string_bytes text ≡ schema_refusal fault) }
{
    match fault {
        SchemaFault::Memory => String::from_str(alloc, ""),
        SchemaFault::NotForm { place } => format!(in alloc; "S1 NotForm {place}"),
        SchemaFault::NameTaken { place } => format!(in alloc; "S2 NameTaken {place}"),
        SchemaFault::NumberTaken { place } => format!(in alloc; "S3 NumberTaken {place}"),
        SchemaFault::TooMany { place } => format!(in alloc; "S4 TooMany {place}"),
        SchemaFault::BadKind { place } => format!(in alloc; "S5 BadKind {place}"),
        SchemaFault::CopyMismatch { place } => format!(in alloc; "S6 CopyMismatch {place}"),
    }
}

/// A kind of refusal of rules, by number and name.
#[tactic(auto, unfolding(crate::specs::Refusals::kind_words))]
fn words_of(kind: RuleKind) -> &'static str
    ensures { result.now ≡ kind_words kind }
{
    match kind {
        RuleKind::Token => "U1 Token",
        RuleKind::Syntax => "U2 Syntax",
        RuleKind::UnknownName => "U3 UnknownName",
        RuleKind::TypeFault => "U4 TypeFault",
        RuleKind::NameTaken => "U5 NameTaken",
        RuleKind::TooMany => "U6 TooMany",
        RuleKind::Depth => "U7 Depth",
    }
}

/// A refusal and its byte.
#[tactic(auto, unfolding(crate::specs::Refusals::at_byte))]
fn at_byte(alloc: Global, words: &str, at: u32) -> Result<String, AllocError>
    ensures { IfOk result (λ text. string_bytes text ≡ refusals.at_byte words.now at) }
{
    let text = format!(in alloc; "{words} {at}")?;
    Ok(text)
}

/// Why a text is no rules, by number, name and byte.
#[tactic(auto, unfolding(crate::specs::Refusals::rules_refusal))]
pub fn of_rules(alloc: Global, fault: RuleFault) -> Result<String, AllocError>
    ensures { IfOk result (λ text. string_bytes text ≡ rules_refusal fault) }
{
    match fault {
        RuleFault::Memory => String::from_str(alloc, ""),
        RuleFault::At { at, kind } => at_byte(alloc, words_of(kind), at),
    }
}

/// The number of an edit that is refused, and why it is.
#[tactic(auto, unfolding(crate::specs::Refusals::rule_refusal))]
fn of_rule(alloc: Global, index: u32, why: &str) -> Result<String, AllocError>
    ensures { IfOk result (λ text. string_bytes text ≡ rule_refusal index why.now) }
{
    let text = format!(in alloc; "Rule {index} {why}")?;
    Ok(text)
}

/// Why a document is no project: a node that is wrong, or an edit that breaks a rule.
#[tactic(auto, unfolding(crate::specs::Refusals::project_refusal))]
pub fn of_project(alloc: Global, fault: ProjectFault) -> Result<String, AllocError>
    ensures { IfOk result (λ text. string_bytes text ≡ project_refusal fault) }
{
    match fault {
        ProjectFault::Memory => String::from_str(alloc, ""),
        ProjectFault::NotForm { place } => format!(in alloc; "NotForm {place}"),
        ProjectFault::Rule { index, fault } => {
            let why = refusal(alloc, fault)?;
            of_rule(alloc, index, why.as_str())
        }
    }
}
