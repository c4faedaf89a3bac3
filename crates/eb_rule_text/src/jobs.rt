// Commands, and a whole text of a job.
ghost use Rattle.std.specs.Prelude.{◌≡◌, IfOk};
ghost use Rattle.eb_rule_text.specs.Blocks as spec;
ghost use Rattle.eb_rule_text.specs.Input.{Reads, behind};

use crate::blocks::inits;
use crate::cursor::Tokens;
use crate::errors::ReadError;
use crate::exprs::expression;
use crate::marks::Mark;
use crate::queries::{LEVELS, query};
use crate::reads::link_in;
use crate::trees::{Command, Context, JobTree, Target};
use sqlite_items::Items;
use std::alloc::Global;

#[tactic(auto, unfolding(crate::specs::Blocks::target))]
fn target(alloc: Global, tokens: &mut Tokens<'_>, depth: u8) -> Result<Target, ReadError>
    ensures { Reads (spec.target depth tokens.old) result tokens.new }
{
    match tokens.mark() {
        Some(Mark::This) => {
            tokens.expect(Mark::This)?;
            Ok(Target::This)
        }
        Some(Mark::At) => {
            tokens.expect(Mark::At)?;
            let link = link_in(alloc, tokens, depth)?;
            Ok(Target::At(link))
        }
        _ => {
            let name = tokens.name(alloc)?;
            Ok(Target::Name(name))
        }
    }
}

#[tactic(auto, unfolding(crate::specs::Blocks::create))]
fn create(alloc: Global, tokens: &mut Tokens<'_>) -> Result<Command, ReadError>
    ensures { Reads (spec.create tokens.old) result tokens.new }
{
    tokens.expect(Mark::Create)?;
    let name = tokens.name(alloc)?;
    Ok(Command::Create(name))
}

#[tactic(auto, unfolding(crate::specs::Blocks::destroy))]
fn destroy(alloc: Global, tokens: &mut Tokens<'_>, depth: u8) -> Result<Command, ReadError>
    ensures { Reads (spec.destroy depth tokens.old) result tokens.new }
{
    tokens.expect(Mark::Destroy)?;
    let on = target(alloc, tokens, depth)?;
    Ok(Command::Destroy(on))
}

#[tactic(auto, unfolding(crate::specs::Blocks::remove))]
fn remove(alloc: Global, tokens: &mut Tokens<'_>, depth: u8) -> Result<Command, ReadError>
    ensures { Reads (spec.remove depth tokens.old) result tokens.new }
{
    tokens.expect(Mark::Remove)?;
    let on = target(alloc, tokens, depth)?;
    let (on, kind) = tokens.name_behind(alloc, on)?;
    Ok(Command::Remove(on, kind))
}

#[tactic(auto, unfolding(crate::specs::Blocks::add_to))]
fn add_to(alloc: Global, tokens: &mut Tokens<'_>, depth: u8) -> Result<Command, ReadError>
    ensures { Reads (spec.add_to depth tokens.old) result tokens.new }
{
    tokens.expect(Mark::Add)?;
    let on = target(alloc, tokens, depth)?;
    let (on, kind) = tokens.name_behind(alloc, on)?;
    let values = inits(alloc, tokens, Context::Job, depth)?;
    Ok(Command::Add(on, kind, values))
}

#[tactic(auto, unfolding(crate::specs::Blocks::set_on))]
fn set_on(alloc: Global, tokens: &mut Tokens<'_>, depth: u8) -> Result<Command, ReadError>
    ensures { Reads (spec.set_on depth tokens.old) result tokens.new }
{
    tokens.expect(Mark::Set)?;
    let on = target(alloc, tokens, depth)?;
    let (on, kind) = tokens.name_behind(alloc, on)?;
    let values = inits(alloc, tokens, Context::Job, depth)?;
    Ok(Command::Set(on, kind, values))
}

#[tactic(auto, unfolding(crate::specs::Blocks::command))]
fn command(alloc: Global, tokens: &mut Tokens<'_>, depth: u8) -> Result<Command, ReadError>
    ensures { Reads (spec.command depth tokens.old) result tokens.new }
{
    match tokens.mark() {
        Some(Mark::Create) => create(alloc, tokens),
        Some(Mark::Destroy) => destroy(alloc, tokens, depth),
        Some(Mark::Remove) => remove(alloc, tokens, depth),
        Some(Mark::Add) => add_to(alloc, tokens, depth),
        Some(Mark::Set) => set_on(alloc, tokens, depth),
        _ => Err(tokens.refuse()),
    }
}

// The commands between the braces.
#[tactic(auto, unfolding(crate::specs::Blocks::commands))]
fn commands(alloc: Global, tokens: &mut Tokens<'_>) -> Result<Items<Command>, ReadError>
    ensures { Reads (spec.commands tokens.old) result tokens.new }
{
    tokens.open(LEVELS, Mark::LBrace)?;
    let mut done = Items::new(alloc);
    for _turn in 0..tokens.left() {
        if tokens.eat(Mark::RBrace) {
            return Ok(done);
        }
        let one = command(alloc, tokens, LEVELS - 1)?;
        done.push(one)?;
    }
    Err(tokens.refuse())
}

// The commands behind what was read, and what was read.
fn commands_behind<T>(
    alloc: Global,
    tokens: &mut Tokens<'_>,
    read: T,
) -> Result<(T, Items<Command>), ReadError>
where
    T: Drop,
    ensures value { Reads (spec.commands tokens.old) (behind result) tokens.new }
    ensures kept { IfOk result (λ both. both.0 ≡ read) }
{
    let more = commands(alloc, tokens)?;
    Ok((read, more))
}

/// A job.
#[tactic(auto, unfolding(crate::specs::Blocks::one_job))]
pub fn one_job(alloc: Global, tokens: &mut Tokens<'_>) -> Result<JobTree, ReadError>
    ensures { Reads (spec.one_job tokens.old) result tokens.new }
{
    tokens.expect(Mark::Job)?;
    let query = query(alloc, tokens)?;
    tokens.expect(Mark::Key)?;
    let key = expression(alloc, tokens, Context::Job, LEVELS)?;
    let (key, commands) = commands_behind(alloc, tokens, key)?;
    Ok(JobTree {
        query,
        key,
        commands,
    })
}
