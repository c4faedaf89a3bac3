// The reads of values, one function for each line of the grammar.
ghost use Rattle.std.specs.Prelude.{◌≡◌, [], length};
ghost use Rattle.eb_rule_text.specs.Input.{Reads, mark};
ghost use Rattle.eb_rule_text.specs.Reading as spec;

use crate::cursor::Tokens;
use crate::errors::ReadError;
use crate::marks::Mark;
use crate::trees::{Context, FieldPath, Find, Reach, Read};
use eb_base::Text;
use sqlite_items::Items;
use std::alloc::Global;

// T . f
#[tactic(auto, unfolding(crate::specs::Reading::path))]
pub fn path(alloc: Global, tokens: &mut Tokens<'_>) -> Result<FieldPath, ReadError>
    ensures { Reads (spec.path tokens.old) result tokens.new }
{
    let kind = tokens.name(alloc)?;
    tokens.expect(Mark::Dot)?;
    let field = tokens.name(alloc)?;
    Ok(FieldPath { kind, field })
}

// ( T )
#[tactic(auto, unfolding(crate::specs::Reading::of_kind))]
fn of_kind(alloc: Global, tokens: &mut Tokens<'_>, depth: u8) -> Result<Text, ReadError>
    ensures { Reads (spec.of_kind depth tokens.old) result tokens.new }
{
    tokens.open(depth, Mark::LParen)?;
    let kind = tokens.name(alloc)?;
    tokens.close(kind, Mark::RParen)
}

// ( T ) . f
#[tactic(auto, unfolding(crate::specs::Reading::member))]
fn member(alloc: Global, tokens: &mut Tokens<'_>, depth: u8) -> Result<FieldPath, ReadError>
    ensures { Reads (spec.member depth tokens.old) result tokens.new }
{
    let kind = of_kind(alloc, tokens, depth)?;
    tokens.expect(Mark::Dot)?;
    let field = tokens.name(alloc)?;
    Ok(FieldPath { kind, field })
}

// ( T . f )
#[tactic(auto, unfolding(crate::specs::Reading::path_in))]
fn path_in(alloc: Global, tokens: &mut Tokens<'_>, depth: u8) -> Result<FieldPath, ReadError>
    ensures { Reads (spec.path_in depth tokens.old) result tokens.new }
{
    tokens.open(depth, Mark::LParen)?;
    let read = path(alloc, tokens)?;
    tokens.close(read, Mark::RParen)
}

// ( this . T . r )
#[tactic(auto, unfolding(crate::specs::Reading::link_in))]
pub fn link_in(alloc: Global, tokens: &mut Tokens<'_>, depth: u8) -> Result<FieldPath, ReadError>
    ensures { Reads (spec.link_in depth tokens.old) result tokens.new }
{
    tokens.open(depth, Mark::LParen)?;
    tokens.expect(Mark::This)?;
    tokens.expect(Mark::Dot)?;
    let read = path(alloc, tokens)?;
    tokens.close(read, Mark::RParen)
}

// ( this . a )
#[tactic(auto, unfolding(crate::specs::Reading::field_in))]
fn field_in(alloc: Global, tokens: &mut Tokens<'_>, depth: u8) -> Result<Text, ReadError>
    ensures { Reads (spec.field_in depth tokens.old) result tokens.new }
{
    tokens.open(depth, Mark::LParen)?;
    tokens.expect(Mark::This)?;
    tokens.expect(Mark::Dot)?;
    let field = tokens.name(alloc)?;
    tokens.close(field, Mark::RParen)
}

// children, or within
#[tactic(auto, unfolding(crate::specs::Reading::reached))]
fn reached(tokens: &mut Tokens<'_>) -> Result<Reach, ReadError>
    ensures { Reads (spec.reached tokens.old) result tokens.new }
{
    match tokens.mark() {
        Some(Mark::Children) => {
            tokens.expect(Mark::Children)?;
            Ok(Reach::Children)
        }
        Some(Mark::Within) => {
            tokens.expect(Mark::Within)?;
            Ok(Reach::Within)
        }
        _ => Err(tokens.refuse()),
    }
}

#[tactic(auto, unfolding(crate::specs::Reading::asset))]
fn asset(alloc: Global, tokens: &mut Tokens<'_>, depth: u8) -> Result<Find, ReadError>
    ensures { Reads (spec.asset depth tokens.old) result tokens.new }
{
    tokens.expect(Mark::Asset)?;
    let link = field_in(alloc, tokens, depth)?;
    tokens.expect(Mark::Dot)?;
    let field = tokens.name(alloc)?;
    Ok(Find::Asset(link, field))
}

#[tactic(auto, unfolding(crate::specs::Reading::least))]
fn least(alloc: Global, tokens: &mut Tokens<'_>, depth: u8) -> Result<Find, ReadError>
    ensures { Reads (spec.least depth tokens.old) result tokens.new }
{
    tokens.expect(Mark::Min)?;
    let over = reached(tokens)?;
    let read = member(alloc, tokens, depth)?;
    Ok(Find::Min(over, read))
}

#[tactic(auto, unfolding(crate::specs::Reading::greatest))]
fn greatest(alloc: Global, tokens: &mut Tokens<'_>, depth: u8) -> Result<Find, ReadError>
    ensures { Reads (spec.greatest depth tokens.old) result tokens.new }
{
    tokens.expect(Mark::Max)?;
    let over = reached(tokens)?;
    let read = member(alloc, tokens, depth)?;
    Ok(Find::Max(over, read))
}

#[tactic(auto, unfolding(crate::specs::Reading::linked))]
fn linked(alloc: Global, tokens: &mut Tokens<'_>, depth: u8) -> Result<Find, ReadError>
    ensures { Reads (spec.linked depth tokens.old) result tokens.new }
{
    tokens.expect(Mark::At)?;
    let link = link_in(alloc, tokens, depth)?;
    tokens.expect(Mark::Dot)?;
    let read = path(alloc, tokens)?;
    Ok(Find::At(link, read))
}

#[tactic(auto, unfolding(crate::specs::Reading::greatest_of_all))]
fn greatest_of_all(alloc: Global, tokens: &mut Tokens<'_>, depth: u8) -> Result<Find, ReadError>
    ensures { Reads (spec.greatest_of_all depth tokens.old) result tokens.new }
{
    tokens.expect(Mark::Max)?;
    tokens.expect(Mark::All)?;
    let read = path_in(alloc, tokens, depth)?;
    Ok(Find::MaxAll(read))
}

// own ( T ) . f, or the like with another first word
fn baker_find(alloc: Global, tokens: &mut Tokens<'_>, depth: u8) -> Result<Find, ReadError>
    ensures { Reads (spec.baker_find depth (mark tokens.old) tokens.old) result tokens.new }
{
    match tokens.mark() {
        Some(Mark::Own) => {
            tokens.expect(Mark::Own)?;
            let read = member(alloc, tokens, depth)?;
            Ok(Find::Own(read))
        }
        Some(Mark::Parent) => {
            tokens.expect(Mark::Parent)?;
            let read = member(alloc, tokens, depth)?;
            Ok(Find::Parent(read))
        }
        Some(Mark::Asset) => asset(alloc, tokens, depth),
        Some(Mark::Min) => least(alloc, tokens, depth),
        Some(Mark::Max) => greatest(alloc, tokens, depth),
        _ => Err(tokens.refuse()),
    }
}

fn system_find(alloc: Global, tokens: &mut Tokens<'_>, depth: u8) -> Result<Find, ReadError>
    ensures { Reads (spec.system_find depth (mark tokens.old) tokens.old) result tokens.new }
{
    match tokens.mark() {
        Some(Mark::At) => linked(alloc, tokens, depth),
        Some(Mark::Max) => greatest_of_all(alloc, tokens, depth),
        _ => Err(tokens.refuse()),
    }
}

fn job_find(alloc: Global, tokens: &mut Tokens<'_>, depth: u8) -> Result<Find, ReadError>
    ensures { Reads (spec.job_find depth (mark tokens.old) tokens.old) result tokens.new }
{
    match tokens.mark() {
        Some(Mark::At) => linked(alloc, tokens, depth),
        _ => Err(tokens.refuse()),
    }
}

fn any_find(
    alloc: Global,
    tokens: &mut Tokens<'_>,
    context: Context,
    depth: u8,
) -> Result<Find, ReadError>
    ensures { Reads (spec.find_by context depth (mark tokens.old) tokens.old) result tokens.new }
{
    match context {
        Context::Baker => baker_find(alloc, tokens, depth),
        Context::System => system_find(alloc, tokens, depth),
        Context::Job => job_find(alloc, tokens, depth),
    }
}

// A read and its `or`.
#[tactic(auto, unfolding(crate::specs::Reading::find))]
fn find(
    alloc: Global,
    tokens: &mut Tokens<'_>,
    context: Context,
    depth: u8,
) -> Result<Find, ReadError>
    ensures { Reads (spec.find context depth tokens.old) result tokens.new }
{
    let read = any_find(alloc, tokens, context, depth)?;
    tokens.close(read, Mark::Or)
}

// Whether a read that goes on with `or` comes next.
fn begins_find(context: Context, mark: Option<Mark>) -> bool
    ensures { result ≡ spec.begins_find context mark }
{
    match context {
        Context::Baker => match mark {
            Some(Mark::Own | Mark::Parent | Mark::Asset | Mark::Min | Mark::Max) => true,
            _ => false,
        },
        Context::System => match mark {
            Some(Mark::At | Mark::Max) => true,
            _ => false,
        },
        Context::Job => match mark {
            Some(Mark::At) => true,
            _ => false,
        },
    }
}

/// All reads with `or` that come next.
#[tactic(auto, unfolding(crate::specs::Reading::finds))]
pub fn finds(
    alloc: Global,
    tokens: &mut Tokens<'_>,
    context: Context,
    depth: u8,
) -> Result<Items<Find>, ReadError>
    ensures { Reads (spec.finds context depth tokens.old) result tokens.new }
{
    let mut done = Items::new(alloc);
    for _turn in 0..tokens.left() {
        if !begins_find(context, tokens.mark()) {
            return Ok(done);
        }
        let read = find(alloc, tokens, context, depth)?;
        done.push(read)?;
    }
    Ok(done)
}

#[tactic(auto, unfolding(crate::specs::Reading::own_field))]
fn own_field(alloc: Global, tokens: &mut Tokens<'_>) -> Result<Read, ReadError>
    ensures { Reads (spec.own_field tokens.old) result tokens.new }
{
    tokens.expect(Mark::This)?;
    tokens.expect(Mark::Dot)?;
    let field = tokens.name(alloc)?;
    Ok(Read::This(field))
}

#[tactic(auto, unfolding(crate::specs::Reading::kind_field))]
fn kind_field(alloc: Global, tokens: &mut Tokens<'_>) -> Result<Read, ReadError>
    ensures { Reads (spec.kind_field tokens.old) result tokens.new }
{
    tokens.expect(Mark::This)?;
    tokens.expect(Mark::Dot)?;
    let read = path(alloc, tokens)?;
    Ok(Read::Field(read))
}

#[tactic(auto, unfolding(crate::specs::Reading::sum))]
fn sum(alloc: Global, tokens: &mut Tokens<'_>, depth: u8) -> Result<Read, ReadError>
    ensures { Reads (spec.sum depth tokens.old) result tokens.new }
{
    tokens.expect(Mark::Sum)?;
    let over = reached(tokens)?;
    let read = member(alloc, tokens, depth)?;
    Ok(Read::Sum(over, read))
}

#[tactic(auto, unfolding(crate::specs::Reading::count))]
fn count(alloc: Global, tokens: &mut Tokens<'_>, depth: u8) -> Result<Read, ReadError>
    ensures { Reads (spec.count depth tokens.old) result tokens.new }
{
    tokens.expect(Mark::Count)?;
    let over = reached(tokens)?;
    let kind = of_kind(alloc, tokens, depth)?;
    Ok(Read::Count(over, kind))
}

#[tactic(auto, unfolding(crate::specs::Reading::sum_of_all))]
fn sum_of_all(alloc: Global, tokens: &mut Tokens<'_>, depth: u8) -> Result<Read, ReadError>
    ensures { Reads (spec.sum_of_all depth tokens.old) result tokens.new }
{
    tokens.expect(Mark::Sum)?;
    tokens.expect(Mark::All)?;
    let read = path_in(alloc, tokens, depth)?;
    Ok(Read::SumAll(read))
}

#[tactic(auto, unfolding(crate::specs::Reading::count_of_all))]
fn count_of_all(alloc: Global, tokens: &mut Tokens<'_>, depth: u8) -> Result<Read, ReadError>
    ensures { Reads (spec.count_of_all depth tokens.old) result tokens.new }
{
    tokens.expect(Mark::Count)?;
    tokens.expect(Mark::All)?;
    let kind = of_kind(alloc, tokens, depth)?;
    Ok(Read::CountAll(kind))
}

// What stands behind `this` of an entity: in a baker maybe a field.
fn entity_this(alloc: Global, tokens: &mut Tokens<'_>, context: Context) -> Result<Read, ReadError>
    ensures { Reads (spec.entity_this context (mark tokens.old) tokens.old) result tokens.new }
{
    match context {
        Context::Baker => match tokens.mark() {
            Some(Mark::Dot) => {
                tokens.expect(Mark::Dot)?;
                let field = tokens.name(alloc)?;
                Ok(Read::EntityAt(field))
            }
            _ => Ok(Read::Entity),
        },
        Context::System => Ok(Read::Entity),
        Context::Job => Ok(Read::Entity),
    }
}

// The name of an extra or a created entity.
fn entity_name(alloc: Global, tokens: &mut Tokens<'_>, context: Context) -> Result<Read, ReadError>
    ensures { Reads (spec.entity_name context tokens.old) result tokens.new }
{
    match context {
        Context::System => Err(tokens.refuse()),
        Context::Baker | Context::Job => {
            let name = tokens.name(alloc)?;
            Ok(Read::EntityOf(name))
        }
    }
}

// What stands between the parentheses of an entity.
#[tactic(auto, unfolding(crate::specs::Reading::entity_in))]
fn entity_in(alloc: Global, tokens: &mut Tokens<'_>, context: Context) -> Result<Read, ReadError>
    ensures { Reads (spec.entity_in context tokens.old) result tokens.new }
{
    match tokens.mark() {
        Some(Mark::This) => {
            tokens.expect(Mark::This)?;
            let read = entity_this(alloc, tokens, context)?;
            Ok(read)
        }
        _ => entity_name(alloc, tokens, context),
    }
}

#[tactic(auto, unfolding(crate::specs::Reading::entity))]
fn entity(
    alloc: Global,
    tokens: &mut Tokens<'_>,
    context: Context,
    depth: u8,
) -> Result<Read, ReadError>
    ensures { Reads (spec.entity context depth tokens.old) result tokens.new }
{
    tokens.expect(Mark::Entity)?;
    tokens.open(depth, Mark::LParen)?;
    let read = entity_in(alloc, tokens, context)?;
    tokens.close(read, Mark::RParen)
}

fn baker_read(alloc: Global, tokens: &mut Tokens<'_>, depth: u8) -> Result<Read, ReadError>
    ensures { Reads (spec.baker_read depth (mark tokens.old) tokens.old) result tokens.new }
{
    match tokens.mark() {
        Some(Mark::This) => own_field(alloc, tokens),
        Some(Mark::Sum) => sum(alloc, tokens, depth),
        Some(Mark::Count) => count(alloc, tokens, depth),
        Some(Mark::Entity) => entity(alloc, tokens, Context::Baker, depth),
        _ => Err(tokens.refuse()),
    }
}

fn system_read(alloc: Global, tokens: &mut Tokens<'_>, depth: u8) -> Result<Read, ReadError>
    ensures { Reads (spec.system_read depth (mark tokens.old) tokens.old) result tokens.new }
{
    match tokens.mark() {
        Some(Mark::This) => kind_field(alloc, tokens),
        Some(Mark::Sum) => sum_of_all(alloc, tokens, depth),
        Some(Mark::Count) => count_of_all(alloc, tokens, depth),
        Some(Mark::Entity) => entity(alloc, tokens, Context::System, depth),
        _ => Err(tokens.refuse()),
    }
}

fn job_read(alloc: Global, tokens: &mut Tokens<'_>, depth: u8) -> Result<Read, ReadError>
    ensures { Reads (spec.job_read depth (mark tokens.old) tokens.old) result tokens.new }
{
    match tokens.mark() {
        Some(Mark::This) => kind_field(alloc, tokens),
        Some(Mark::Entity) => entity(alloc, tokens, Context::Job, depth),
        _ => Err(tokens.refuse()),
    }
}

/// A read that always has a value.
#[tactic(auto, unfolding(crate::specs::Reading::read))]
pub fn read(
    alloc: Global,
    tokens: &mut Tokens<'_>,
    context: Context,
    depth: u8,
) -> Result<Read, ReadError>
    ensures { Reads (spec.read context depth tokens.old) result tokens.new }
{
    match context {
        Context::Baker => baker_read(alloc, tokens, depth),
        Context::System => system_read(alloc, tokens, depth),
        Context::Job => job_read(alloc, tokens, depth),
    }
}
