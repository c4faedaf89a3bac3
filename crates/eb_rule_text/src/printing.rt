// From trees to texts that read back as the same trees.
ghost use Rattle.std.specs.Prelude.{◌≡◌, ◌++◌, IfOk, OnOk};
ghost use Rattle.eb_rule_text.specs.Printing as spec;

use crate::marks::Mark;
use crate::put_reads::put_link_in;
use crate::put_trees::{put_block, put_expr, put_inits};
use crate::spelling::{put_int, put_mark, put_name};
use crate::trees::{Baker, Command, Init, JobTree, Query, Rule, RulesTree, System, Target};
use eb_base::{Memory, Text};
use std::alloc::Global;

/// A text that reads back as the same tree, if the tree was read from a text: a blank behind each token, and a line's end behind
/// `;` and `}`. Comments, blanks and the way that numbers were written are lost. Takes time and memory linear in the text.
#[tactic(auto, unfolding(crate::specs::Printing::rules_text))]
pub fn print_rules(alloc: Global, tree: &RulesTree) -> Result<Text, Memory>
    ensures { IfOk result (λ text. text ≡ spec.rules_text tree.now) }
{
    let mut out = Vec::new(alloc);
    put_rules(alloc, &mut out, tree.rules.as_slice())?;
    Ok(Text::from_vec(out))
}

/// The same of a job.
#[tactic(auto, unfolding(crate::specs::Printing::job_text))]
pub fn print_job(alloc: Global, tree: &JobTree) -> Result<Text, Memory>
    ensures { IfOk result (λ text. text ≡ spec.job_text tree.now) }
{
    let mut out = Vec::new(alloc);
    put_mark(&mut out, Mark::Job)?;
    put_query(&mut out, &tree.query)?;
    put_mark(&mut out, Mark::Key)?;
    put_expr(alloc, &mut out, &tree.key)?;
    put_braced(alloc, &mut out, tree.commands.as_slice())?;
    Ok(Text::from_vec(out))
}

fn put_names(out: &mut Vec<u8>, names: &[Text]) -> Result<(), Memory>
    ensures { OnOk result (out.new.items ≡ out.old.items ++ spec.names_text names.now) }
{
    for name in names {
        put_name(out, name)?;
    }
    Ok(())
}

// A word and the names behind it, where there are any.
fn put_list(out: &mut Vec<u8>, word: Mark, names: &[Text]) -> Result<(), Memory>
    ensures { OnOk result (out.new.items ≡ out.old.items ++ spec.list_text word names.now) }
{
    match names {
        [] => Ok(()),
        [first, more @ ..] => {
            put_mark(out, word)?;
            put_name(out, first)?;
            put_names(out, more)?;
            Ok(())
        }
    }
}

fn put_query(out: &mut Vec<u8>, query: &Query) -> Result<(), Memory>
    ensures { OnOk result (out.new.items ≡ out.old.items ++ spec.query_text query.now) }
{
    put_list(out, Mark::All, query.all.as_slice())?;
    put_list(out, Mark::Any, query.any.as_slice())?;
    put_list(out, Mark::None, query.none.as_slice())?;
    Ok(())
}

fn put_baker(alloc: Global, out: &mut Vec<u8>, baker: &Baker) -> Result<(), Memory>
    ensures { OnOk result (out.new.items ≡ out.old.items ++ spec.baker_text baker.now) }
{
    put_mark(out, Mark::Baker)?;
    put_int(alloc, out, baker.number)?;
    put_mark(out, Mark::On)?;
    put_name(out, &baker.authoring)?;
    put_block(alloc, out, baker.body.as_slice())?;
    Ok(())
}

fn put_system(alloc: Global, out: &mut Vec<u8>, system: &System) -> Result<(), Memory>
    ensures { OnOk result (out.new.items ≡ out.old.items ++ spec.system_text system.now) }
{
    put_mark(out, Mark::System)?;
    put_int(alloc, out, system.number)?;
    put_query(out, &system.query)?;
    put_block(alloc, out, system.body.as_slice())?;
    Ok(())
}

fn put_rule(alloc: Global, out: &mut Vec<u8>, rule: &Rule) -> Result<(), Memory>
    ensures { OnOk result (out.new.items ≡ out.old.items ++ spec.rule_text rule.now) }
{
    match rule {
        Rule::Baker(baker) => put_baker(alloc, out, baker),
        Rule::System(system) => put_system(alloc, out, system),
    }
}

fn put_rules(alloc: Global, out: &mut Vec<u8>, rules: &[Rule]) -> Result<(), Memory>
    ensures { OnOk result (out.new.items ≡ out.old.items ++ spec.rule_list_text rules.now) }
{
    for rule in rules {
        put_rule(alloc, out, rule)?;
    }
    Ok(())
}

fn put_target(out: &mut Vec<u8>, target: &Target) -> Result<(), Memory>
    ensures { OnOk result (out.new.items ≡ out.old.items ++ spec.target_text target.now) }
{
    match target {
        Target::This => put_mark(out, Mark::This),
        Target::Name(name) => put_name(out, name),
        Target::At(link) => {
            put_mark(out, Mark::At)?;
            put_link_in(out, link)?;
            Ok(())
        }
    }
}

// create x
fn put_create(out: &mut Vec<u8>, name: &Text) -> Result<(), Memory>
    ensures { OnOk result (out.new.items ≡ out.old.items ++ (spec.mark_out Mark.Create ++ spec.name_out name.now)) }
{
    put_mark(out, Mark::Create)?;
    put_name(out, name)?;
    Ok(())
}

// destroy target
fn put_destroy(out: &mut Vec<u8>, on: &Target) -> Result<(), Memory>
    ensures { OnOk result (out.new.items ≡ out.old.items ++ (spec.mark_out Mark.Destroy ++ spec.target_text on.now)) }
{
    put_mark(out, Mark::Destroy)?;
    put_target(out, on)?;
    Ok(())
}

// remove target T
fn put_remove(out: &mut Vec<u8>, on: &Target, kind: &Text) -> Result<(), Memory>
    ensures { OnOk result (out.new.items ≡ out.old.items ++ (spec.mark_out Mark.Remove ++ (spec.target_text on.now ++ spec.name_out kind.now))) }
{
    put_mark(out, Mark::Remove)?;
    put_target(out, on)?;
    put_name(out, kind)?;
    Ok(())
}

// The word of a command, its target, and the values that it gives to a component there.
fn put_values(
    alloc: Global,
    out: &mut Vec<u8>,
    word: Mark,
    on: &Target,
    kind: &Text,
    inits: &[Init],
) -> Result<(), Memory>
    ensures { OnOk result (out.new.items ≡ out.old.items ++ (spec.mark_out word ++ (spec.target_text on.now ++ (spec.name_out kind.now ++ spec.inits_text inits.now)))) }
{
    put_mark(out, word)?;
    put_target(out, on)?;
    put_name(out, kind)?;
    put_inits(alloc, out, inits)?;
    Ok(())
}

fn put_command(alloc: Global, out: &mut Vec<u8>, command: &Command) -> Result<(), Memory>
    ensures { OnOk result (out.new.items ≡ out.old.items ++ spec.command_text command.now) }
{
    match command {
        Command::Create(name) => put_create(out, name),
        Command::Destroy(on) => put_destroy(out, on),
        Command::Remove(on, kind) => put_remove(out, on, kind),
        Command::Add(on, kind, inits) => put_values(
            alloc,
            out,
            Mark::Add,
            on,
            kind,
            inits.as_slice(),
        ),
        Command::Set(on, kind, inits) => put_values(
            alloc,
            out,
            Mark::Set,
            on,
            kind,
            inits.as_slice(),
        ),
    }
}

fn put_commands(alloc: Global, out: &mut Vec<u8>, commands: &[Command]) -> Result<(), Memory>
    ensures { OnOk result (out.new.items ≡ out.old.items ++ spec.commands_text commands.now) }
{
    for command in commands {
        put_command(alloc, out, command)?;
    }
    Ok(())
}

// The commands and their braces.
fn put_braced(alloc: Global, out: &mut Vec<u8>, commands: &[Command]) -> Result<(), Memory>
    ensures { OnOk result (out.new.items ≡ out.old.items ++ spec.braced (spec.commands_text commands.now)) }
{
    put_mark(out, Mark::LBrace)?;
    put_commands(alloc, out, commands)?;
    put_mark(out, Mark::RBrace)?;
    Ok(())
}
