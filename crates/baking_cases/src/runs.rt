// A run of one baker as a text: what is made, a bar, and the keys that it looks at. A key is a word, its number, and for a
// component its type behind it.
ghost use Rattle.std.specs.Prelude.{◌≡◌, ◌<◌};

use crate::words::{fault_word, put, put_name, put_row};
use case_parts::CaseFault;
use eb_base::{Memory, Steps, Text};
use eb_eval::{Outcome, Run, RunId, run_baker};
use eb_rules::Rules;
use eb_scene::{Key, Project};
use std::alloc::Global;
use std::marker::Brand;
use std::sync::ledger::{Blank, Ledger};

fn put_outcome(alloc: Global, out: &mut Vec<u8>, outcome: &Outcome) -> Result<(), Memory> {
    match outcome {
        Outcome::Made(outputs) => {
            for output in outputs.items() {
                put_name(alloc, out, output.name)?;
                put_row(alloc, out, &output.row)?;
            }
            Ok(())
        }
        Outcome::Fault(fault) => put(out, fault_word(*fault)),
    }
}

fn put_key(alloc: Global, out: &mut Vec<u8>, key: Key) -> Result<(), Memory> {
    let word = match key {
        Key::Comp { object, kind, .. } => {
            let kind = kind.number();
            format!(in alloc; "comp {object} #{kind}")?
        }
        Key::Parent { object, .. } => format!(in alloc; "parent {object}")?,
        Key::Children { object, .. } => format!(in alloc; "children {object}")?,
        Key::Exists { object, .. } => format!(in alloc; "exists {object}")?,
        Key::Asset { asset } => format!(in alloc; "asset {asset}")?,
    };
    put(out, word.as_str())
}

fn put_run(alloc: Global, out: &mut Vec<u8>, run: &Run) -> Result<(), Memory> {
    put_outcome(alloc, out, run.outcome())?;
    put(out, "|")?;
    for key in run.keys() {
        put_key(alloc, out, *key)?;
    }
    Ok(())
}

/// A run, with steps that nobody counts.
fn counted<L: Ledger>(
    alloc: Global,
    rules: &Rules,
    project: &Project,
    id: RunId,
    blank: Blank,
) -> Result<Run, Memory>
    requires name { blank.name ≡ L.name }
    requires parts { blank.parts ≡ L.parts }
    requires some { 0 < blank.parts }
{
    let mut steps: Steps<L> = Steps::open(blank);
    let run = run_baker(alloc, rules, project, id, &mut steps)?;
    Ok(run)
}

/// What a run of these rules comes to.
pub fn run_answer(
    alloc: Global,
    rules: &Rules,
    project: &Project,
    id: RunId,
) -> Result<Text, CaseFault> {
    let run = counted::<Brand>(alloc, rules, project, id, Blank::new(1))?;
    let mut out = Vec::new(alloc);
    put_run(alloc, &mut out, &run)?;
    Ok(Text::from_vec(out))
}
