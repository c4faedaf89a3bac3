// The files of rows: each part with its rows, and what is printed of them.
use crate::beings::entities_of;
use crate::runs::run_answer;
use crate::stages::stage_answer;
use case_parts::{CaseFault, Part, Tally, lines_of, read_file};
use eb_base::Text;
use eb_eval::RunId;
use eb_rules::{RuleFault, Rules};
use eb_scene::Project;
use eb_scene_text::project_read;
use eb_schema::Schema;
use serde_json::Value;
use std::alloc::Global;
use std::rt::Files;

/// What the rows of a file are tried with.
#[derive(Drop)]
struct Setting {
    schema: Schema,
    /// What bakers run over; systems need none.
    project: Option<Project>,
}

/// Tries the rows of a file, and prints a line for each of its parts.
pub fn try_file<R: Files + AllocGlobal + Print>(
    rt: &R,
    name: &str,
    tally: &mut Tally,
) -> Result<(), CaseFault> {
    match read_file(rt, name) {
        Ok(parts) => try_parts(rt, name, parts.as_slice(), tally),
        Err(fault) => failed(rt, name, fault, tally),
    }
}

fn failed<R: Print>(
    rt: &R,
    name: &str,
    fault: CaseFault,
    tally: &mut Tally,
) -> Result<(), CaseFault> {
    tally.count(false);
    println!(rt; "FAILED {name}: {fault}")?;
    Ok(())
}

fn try_parts<R: AllocGlobal + Print>(
    rt: &R,
    name: &str,
    parts: &[Part],
    tally: &mut Tally,
) -> Result<(), CaseFault> {
    let setting = match setting_of(rt.alloc(), parts) {
        Ok(setting) => setting,
        Err(fault) => return failed(rt, name, fault, tally),
    };
    for part in parts {
        if part.word.is(b"runs") || part.word.is(b"stages") {
            try_part(rt, name, &setting, part, tally)?;
        } else if !part.word.bytes().contains(&b'.') {
            failed(
                rt,
                name,
                CaseFault::Line(part.line, "an unknown head"),
                tally,
            )?;
        }
    }
    Ok(())
}

fn setting_of(alloc: Global, parts: &[Part]) -> Result<Setting, CaseFault> {
    let Some(part) = parts.iter().find(|part| part.word.is(b"schema.json")) else {
        return Err(CaseFault::Line(1, "no part schema.json"));
    };
    let no_schema = CaseFault::Line(part.line, "no schema");
    let schema = schema_of(alloc, part.body.bytes()).ok_or(no_schema)?;
    let Some(part) = parts.iter().find(|part| part.word.is(b"project.json")) else {
        return Ok(Setting {
            schema,
            project: None,
        });
    };
    match project_of(alloc, &schema, part.body.bytes()) {
        Some(project) => Ok(Setting {
            schema,
            project: Some(project),
        }),
        None => Err(CaseFault::Line(part.line, "no project")),
    }
}

fn schema_of(alloc: Global, text: &[u8]) -> Option<Schema> {
    let document = Value::from_slice(alloc, text).ok()?;
    Schema::read(alloc, &document).ok()
}

fn project_of(alloc: Global, schema: &Schema, text: &[u8]) -> Option<Project> {
    let document = Value::from_slice(alloc, text).ok()?;
    project_read(alloc, &document, schema).ok()
}

/// Tries the rows of a part, three lines each, and prints each that isn't as it says.
fn try_part<R: AllocGlobal + Print>(
    rt: &R,
    name: &str,
    setting: &Setting,
    part: &Part,
    tally: &mut Tally,
) -> Result<(), CaseFault> {
    let alloc = rt.alloc();
    let lines = lines_of(alloc, part.body.bytes())?;
    let mut line = part.line.saturating_add(1);
    for chunk in lines.as_slice().chunks(3) {
        let why = try_row(alloc, setting, part.word.is(b"runs"), chunk)?;
        tally.count(why.is_none());
        if let Some(why) = why {
            println!(rt; "FAILED {name}: line {line}: {why}")?;
        }
        line = line.saturating_add(3);
    }
    let word = String::from_utf8_lossy(alloc, part.word.bytes())?;
    let of = String::from_utf8_lossy(alloc, part.name.bytes())?;
    let count = lines.len() / 3;
    println!(rt; "{name}: {count} rows of {word} {of}")?;
    Ok(())
}

/// What isn't as a row says, where there is something. A row that can't be read is one that isn't.
fn try_row(
    alloc: Global,
    setting: &Setting,
    is_run: bool,
    lines: &[&[u8]],
) -> Result<Option<String>, CaseFault> {
    let [rules, given, wanted] = lines else {
        return Ok(Some(String::from_str(alloc, "no row of three lines")?));
    };
    match answer(alloc, setting, is_run, rules, given) {
        Ok(came) => compared(alloc, came.bytes(), wanted),
        Err(CaseFault::Line(_, what)) => Ok(Some(String::from_str(alloc, what)?)),
        Err(fault) => Err(fault),
    }
}

fn compared(alloc: Global, came: &[u8], wanted: &[u8]) -> Result<Option<String>, CaseFault> {
    if came == wanted {
        return Ok(None);
    }
    let came = String::from_utf8_lossy(alloc, came)?;
    let wanted = String::from_utf8_lossy(alloc, wanted)?;
    Ok(Some(format!(in alloc; "it comes to\n    {came}\nand not\n    {wanted}")?))
}

fn answer(
    alloc: Global,
    setting: &Setting,
    is_run: bool,
    rules: &[u8],
    given: &[u8],
) -> Result<Text, CaseFault> {
    let rules = match Rules::read(alloc, rules, &setting.schema) {
        Ok(rules) => rules,
        Err(RuleFault::Memory) => return Err(CaseFault::Memory),
        Err(_) => return Err(CaseFault::Line(0, "no rules")),
    };
    if !is_run {
        return stage_answer(alloc, &rules, &entities_of(alloc, given)?);
    }
    let id = run_of(given).ok_or(CaseFault::Line(0, "no run"))?;
    match &setting.project {
        Some(project) => run_answer(alloc, &rules, project, id),
        None => Err(CaseFault::Line(0, "no project")),
    }
}

/// The run of a text `SCENE.OBJECT baker BAKER`.
fn run_of(text: &[u8]) -> Option<RunId> {
    let (place, baker) = str::from_utf8(text).ok()?.split_once(" baker ")?;
    let (scene, object) = place.split_once('.')?;
    Some(RunId {
        scene: scene.parse::<u8>().ok()?,
        object: object.parse::<u32>().ok()?,
        baker: baker.parse::<u8>().ok()?,
    })
}
