// The statements of bakers and systems.
ghost use Rattle.std.specs.Prelude.{◌≡◌, ◌<◌, length, IfOk};
ghost use Rattle.eb_rule_text.specs.Blocks as spec;
ghost use Rattle.eb_rule_text.specs.Input.{Reads};

use crate::cursor::Tokens;
use crate::errors::ReadError;
use crate::exprs::expression;
use crate::marks::Mark;
use crate::trees::{Add, Context, Init, Stmt};
use sqlite_items::Items;
use std::alloc::Global;

// f : e, between braces that took a level.
#[tactic(auto, unfolding(crate::specs::Blocks::init))]
fn init(
    alloc: Global,
    tokens: &mut Tokens<'_>,
    context: Context,
    depth: u8,
) -> Result<Init, ReadError>
    requires { 0 < depth }
    ensures { Reads (spec.init context depth tokens.old) result tokens.new }
{
    let field = tokens.name(alloc)?;
    tokens.expect(Mark::Colon)?;
    let value = expression(alloc, tokens, context, depth - 1)?;
    Ok(Init { field, value })
}

// f : e , .. }
#[tactic(auto, unfolding(crate::specs::Blocks::some_inits))]
fn some_inits(
    alloc: Global,
    tokens: &mut Tokens<'_>,
    context: Context,
    depth: u8,
) -> Result<Items<Init>, ReadError>
    requires { 0 < depth }
    ensures { Reads (spec.some_inits context depth tokens.old) result tokens.new }
{
    let mut done = Items::new(alloc);
    for _turn in 0..tokens.left() {
        let one = init(alloc, tokens, context, depth)?;
        done.push(one)?;
        if !tokens.eat(Mark::Comma) {
            tokens.expect(Mark::RBrace)?;
            return Ok(done);
        }
    }
    Err(tokens.refuse())
}

/// The values of a component, in braces.
#[tactic(auto, unfolding(crate::specs::Blocks::inits))]
pub fn inits(
    alloc: Global,
    tokens: &mut Tokens<'_>,
    context: Context,
    depth: u8,
) -> Result<Items<Init>, ReadError>
    ensures { Reads (spec.inits context depth tokens.old) result tokens.new }
{
    tokens.open(depth, Mark::LBrace)?;
    if tokens.eat(Mark::RBrace) {
        return Ok(Items::new(alloc));
    }
    let values = some_inits(alloc, tokens, context, depth)?;
    Ok(values)
}

#[tactic(auto, unfolding(crate::specs::Blocks::add))]
fn add(
    alloc: Global,
    tokens: &mut Tokens<'_>,
    context: Context,
    depth: u8,
) -> Result<Add, ReadError>
    ensures { Reads (spec.add context depth tokens.old) result tokens.new }
{
    tokens.expect(Mark::Add)?;
    let kind = tokens.name(alloc)?;
    let inits = inits(alloc, tokens, context, depth)?;
    Ok(Add { kind, inits })
}

// The body of an extra.
#[tactic(auto, unfolding(crate::specs::Blocks::adds))]
fn adds(
    alloc: Global,
    tokens: &mut Tokens<'_>,
    context: Context,
    depth: u8,
) -> Result<Items<Add>, ReadError>
    ensures { Reads (spec.adds context depth tokens.old) result tokens.new }
{
    tokens.open(depth, Mark::LBrace)?;
    let mut done = Items::new(alloc);
    for _turn in 0..tokens.left() {
        if tokens.eat(Mark::RBrace) {
            return Ok(done);
        }
        let one = add(alloc, tokens, context, depth - 1)?;
        done.push(one)?;
    }
    Err(tokens.refuse())
}

#[tactic(auto, unfolding(crate::specs::Blocks::let_stmt))]
fn let_stmt(
    alloc: Global,
    tokens: &mut Tokens<'_>,
    context: Context,
    depth: u8,
) -> Result<Stmt, ReadError>
    ensures { Reads (spec.let_stmt context depth tokens.old) result tokens.new }
{
    tokens.expect(Mark::Let)?;
    let name = tokens.name(alloc)?;
    tokens.expect(Mark::Assign)?;
    let value = expression(alloc, tokens, context, depth)?;
    tokens.expect(Mark::Semicolon)?;
    Ok(Stmt::Let(name, value))
}

#[tactic(auto, unfolding(crate::specs::Blocks::extra))]
fn extra(
    alloc: Global,
    tokens: &mut Tokens<'_>,
    context: Context,
    depth: u8,
) -> Result<Stmt, ReadError>
    ensures { Reads (spec.extra context depth tokens.old) result tokens.new }
{
    tokens.expect(Mark::Extra)?;
    let name = tokens.name(alloc)?;
    let body = adds(alloc, tokens, context, depth)?;
    Ok(Stmt::Extra(name, body))
}

/// Statements in braces.
#[cycle(stating)]
#[tactic(auto, unfolding(crate::specs::Blocks::block))]
pub fn block(
    alloc: Global,
    tokens: &mut Tokens<'_>,
    context: Context,
    depth: u8,
) -> Result<Items<Stmt>, ReadError>
    ensures { Reads (spec.block context depth (spec.inner_stmt context depth) tokens.old) result tokens.new }
{
    tokens.open(depth, Mark::LBrace)?;
    let mut done = Items::new(alloc);
    for _turn in 0..tokens.left() {
        if tokens.eat(Mark::RBrace) {
            return Ok(done);
        }
        let one = stmt(alloc, tokens, context, depth - 1)?;
        done.push(one)?;
    }
    Err(tokens.refuse())
}

// The statements of `else`, where it comes.
#[cycle(stating)]
#[tactic(auto, unfolding(crate::specs::Blocks::otherwise))]
fn otherwise(
    alloc: Global,
    tokens: &mut Tokens<'_>,
    context: Context,
    depth: u8,
) -> Result<Option<Items<Stmt>>, ReadError>
    ensures { Reads (spec.otherwise context depth (spec.inner_stmt context depth) tokens.old) result tokens.new }
{
    if !tokens.eat(Mark::Else) {
        return Ok(None);
    }
    let body = block(alloc, tokens, context, depth)?;
    Ok(Some(body))
}

#[cycle(stating)]
#[tactic(auto, unfolding(crate::specs::Blocks::if_stmt))]
fn if_stmt(
    alloc: Global,
    tokens: &mut Tokens<'_>,
    context: Context,
    depth: u8,
) -> Result<Stmt, ReadError>
    ensures { Reads (spec.if_stmt context depth (spec.inner_stmt context depth) tokens.old) result tokens.new }
{
    tokens.expect(Mark::If)?;
    let test = expression(alloc, tokens, context, depth)?;
    let body = block(alloc, tokens, context, depth)?;
    let other = otherwise(alloc, tokens, context, depth)?;
    Ok(Stmt::If(test, body, other))
}

// One statement, where so many levels are left.
#[cycle(stating)]
#[tactic(auto, unfolding(crate::specs::Blocks::one_stmt))]
fn stmt(
    alloc: Global,
    tokens: &mut Tokens<'_>,
    context: Context,
    depth: u8,
) -> Result<Stmt, ReadError>
    ensures { Reads (spec.stmt context depth tokens.old) result tokens.new }
{
    match tokens.mark() {
        Some(Mark::Let) => let_stmt(alloc, tokens, context, depth),
        Some(Mark::Add) => {
            let add = add(alloc, tokens, context, depth)?;
            Ok(Stmt::Add(add))
        }
        Some(Mark::If) => if_stmt(alloc, tokens, context, depth),
        Some(Mark::Extra) => baker_extra(alloc, tokens, context, depth),
        _ => Err(tokens.refuse()),
    }
}

// An extra, which stands in bakers alone.
fn baker_extra(
    alloc: Global,
    tokens: &mut Tokens<'_>,
    context: Context,
    depth: u8,
) -> Result<Stmt, ReadError>
    ensures { Reads (spec.baker_extra context depth tokens.old) result tokens.new }
{
    match context {
        Context::Baker => extra(alloc, tokens, context, depth),
        Context::System => Err(tokens.refuse()),
        Context::Job => Err(tokens.refuse()),
    }
}
