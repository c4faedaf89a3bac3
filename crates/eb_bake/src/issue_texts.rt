// The lines of issues, written straight into a list of bytes.
ghost use Rattle.std.specs.Prelude.{◌≡◌, ◌++◌, codes, decimal, IfOk, OnOk};
ghost use Rattle.eb_base.specs.Names.{name_text};
ghost use Rattle.eb_bake.specs.IssueTexts as spec;

use eb_base::{Memory, Name, Text, TypeNo, name_write};
use eb_eval::{Issue, RunFault, RunId};
use eb_schema::Schema;
use std::alloc::Global;

// ---- pieces

/// Adds a number in decimal.
fn put_number(out: &mut Vec<u8>, alloc: Global, number: u32) -> Result<(), Memory>
    ensures { OnOk result (out.new.items ≡ out.old.items ++ decimal number) }
{
    let text = format!(in alloc; "{number}")?;
    out.extend_from_slice(text.as_bytes())?;
    Ok(())
}

/// Adds the name of an entity.
fn put_name(out: &mut Vec<u8>, alloc: Global, name: Name) -> Result<(), Memory>
    ensures { OnOk result (out.new.items ≡ out.old.items ++ name_text name) }
{
    let text = name_write(alloc, &name)?;
    out.extend_from_slice(text.bytes())?;
    Ok(())
}

/// Adds the name of a component type.
fn put_kind(out: &mut Vec<u8>, schema: &Schema, kind: TypeNo) -> Result<(), Memory>
    ensures { OnOk result (out.new.items ≡ out.old.items ++ spec.kind_text schema.now kind) }
{
    match schema.component(kind) {
        Some(component) => {
            out.extend_from_slice(component.name.bytes())?;
            Ok(())
        }
        None => Ok(()),
    }
}

/// The word of a fault.
fn fault_word(fault: RunFault) -> &'static [u8]
    ensures { result.now ≡ spec.fault_text fault }
{
    match fault {
        RunFault::Overflow => b"Overflow".as_slice(),
        RunFault::DivZero => b"DivZero".as_slice(),
        RunFault::Range => b"Range".as_slice(),
    }
}

/// Adds a run.
fn put_run(out: &mut Vec<u8>, alloc: Global, id: RunId) -> Result<(), Memory>
    ensures { OnOk result (out.new.items ≡ out.old.items ++ spec.run_text id) }
{
    put_number(out, alloc, u32::from(id.scene))?;
    out.extend_from_slice(b".")?;
    put_number(out, alloc, id.object)?;
    out.extend_from_slice(b" baker ")?;
    put_number(out, alloc, u32::from(id.baker))?;
    Ok(())
}

/// Adds a system and an entity.
fn put_system(out: &mut Vec<u8>, alloc: Global, system: u8, name: Name) -> Result<(), Memory>
    ensures { OnOk result (out.new.items ≡ out.old.items ++ spec.system_text system name) }
{
    out.extend_from_slice(b"system ")?;
    put_number(out, alloc, u32::from(system))?;
    out.extend_from_slice(b" ")?;
    put_name(out, alloc, name)?;
    Ok(())
}

// ---- one issue

/// Adds a run that has a fault.
fn put_fault(out: &mut Vec<u8>, alloc: Global, id: RunId, fault: RunFault) -> Result<(), Memory>
    ensures { OnOk result (out.new.items ≡ out.old.items ++ spec.fault_line id fault) }
{
    out.extend_from_slice(b"fault ")?;
    put_run(out, alloc, id)?;
    out.extend_from_slice(b" ")?;
    out.extend_from_slice(fault_word(fault))?;
    Ok(())
}

/// Adds a component that a lower baker gives too.
fn put_duplicate(
    out: &mut Vec<u8>,
    alloc: Global,
    schema: &Schema,
    name: Name,
    kind: TypeNo,
    baker: u8,
) -> Result<(), Memory>
    ensures { OnOk result (out.new.items ≡ out.old.items ++ spec.duplicate_line schema.now name kind baker) }
{
    out.extend_from_slice(b"duplicate ")?;
    put_name(out, alloc, name)?;
    out.extend_from_slice(b" ")?;
    put_kind(out, schema, kind)?;
    out.extend_from_slice(b" baker ")?;
    put_number(out, alloc, u32::from(baker))?;
    Ok(())
}

/// Adds a type that isn't among the 32 lowest.
fn put_too_many(
    out: &mut Vec<u8>,
    alloc: Global,
    schema: &Schema,
    name: Name,
    kind: TypeNo,
) -> Result<(), Memory>
    ensures { OnOk result (out.new.items ≡ out.old.items ++ spec.too_many_line schema.now name kind) }
{
    out.extend_from_slice(b"toomany ")?;
    put_name(out, alloc, name)?;
    out.extend_from_slice(b" ")?;
    put_kind(out, schema, kind)?;
    Ok(())
}

/// Adds an entity on which a system has a fault.
fn put_system_fault(
    out: &mut Vec<u8>,
    alloc: Global,
    system: u8,
    name: Name,
    fault: RunFault,
) -> Result<(), Memory>
    ensures { OnOk result (out.new.items ≡ out.old.items ++ spec.system_line system name fault) }
{
    put_system(out, alloc, system, name)?;
    out.extend_from_slice(b" ")?;
    out.extend_from_slice(fault_word(fault))?;
    Ok(())
}

/// Adds a type for which an entity had no room when a system added it.
fn put_system_too_many(
    out: &mut Vec<u8>,
    alloc: Global,
    schema: &Schema,
    system: u8,
    name: Name,
    kind: TypeNo,
) -> Result<(), Memory>
    ensures { OnOk result (out.new.items ≡ out.old.items ++ spec.system_too_many_line schema.now system name kind) }
{
    put_system(out, alloc, system, name)?;
    out.extend_from_slice(b" toomany ")?;
    put_kind(out, schema, kind)?;
    Ok(())
}

/// Adds an issue, without a line feed.
fn put_issue(out: &mut Vec<u8>, alloc: Global, schema: &Schema, issue: Issue) -> Result<(), Memory>
    ensures { OnOk result (out.new.items ≡ out.old.items ++ spec.issue_text schema.now issue) }
{
    match issue {
        Issue::Fault { id, fault } => put_fault(out, alloc, id, fault)?,
        Issue::Duplicate { name, kind, baker } => {
            put_duplicate(out, alloc, schema, name, kind, baker)?
        }
        Issue::TooMany { name, kind } => put_too_many(out, alloc, schema, name, kind)?,
        Issue::System {
            system,
            name,
            fault,
        } => put_system_fault(out, alloc, system, name, fault)?,
        Issue::SystemTooMany { system, name, kind } => {
            put_system_too_many(out, alloc, schema, system, name, kind)?
        }
    }
    Ok(())
}

// ---- all issues

/// Adds the line of an issue.
fn put_line(out: &mut Vec<u8>, alloc: Global, schema: &Schema, issue: Issue) -> Result<(), Memory>
    ensures { OnOk result (out.new.items ≡ out.old.items ++ spec.issue_line schema.now issue) }
{
    put_issue(out, alloc, schema, issue)?;
    out.extend_from_slice(b"\n")?;
    Ok(())
}

/// Each of these issues on a line.
#[tactic(auto, unfolding(crate::specs::IssueTexts::issue_lines))]
pub fn issue_lines(alloc: Global, schema: &Schema, issues: &[Issue]) -> Result<Text, Memory>
    ensures { IfOk result (λ text. text ≡ spec.issue_lines schema.now issues.now) }
{
    let mut out = Vec::new(alloc);
    for issue in issues {
        put_line(&mut out, alloc, schema, *issue)?;
    }
    Ok(Text::from_vec(out))
}
