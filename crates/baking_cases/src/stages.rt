// The stage of systems over entities as a text: the entities, a bar, and the issues. A name is its scene and its object.
use crate::words::{fault_word, put, put_kind, put_name, put_row};
use case_parts::CaseFault;
use eb_base::{Memory, Name, Text};
use eb_eval::Issue;
use eb_rules::Rules;
use eb_schema::Baked;
use eb_system::run_all;
use std::alloc::Global;

fn put_issue_of(alloc: Global, out: &mut Vec<u8>, system: u8, name: Name) -> Result<(), Memory> {
    let word = format!(in alloc; "system {system}")?;
    put(out, word.as_str())?;
    put_name(alloc, out, name)
}

fn put_issue(alloc: Global, out: &mut Vec<u8>, issue: &Issue) -> Result<(), Memory> {
    match issue {
        Issue::System {
            system,
            name,
            fault,
        } => {
            put_issue_of(alloc, out, *system, *name)?;
            put(out, fault_word(*fault))
        }
        Issue::SystemTooMany { system, name, kind } => {
            put_issue_of(alloc, out, *system, *name)?;
            put_kind(alloc, out, kind.number())
        }
        _ => put(out, "another issue"),
    }
}

/// What the systems of these rules make of the entities.
pub fn stage_answer(alloc: Global, rules: &Rules, merged: &Baked) -> Result<Text, CaseFault> {
    let stages = run_all(alloc, rules, merged)?;
    let mut out = Vec::new(alloc);
    for (name, entity) in stages.last().iter() {
        put_name(alloc, &mut out, *name)?;
        put_row(alloc, &mut out, &entity.row)?;
    }
    put(&mut out, "|")?;
    for issue in stages.issues() {
        put_issue(alloc, &mut out, issue)?;
    }
    Ok(Text::from_vec(out))
}
