// Expressions: levels of operators, signs, and what they stand between.
ghost use Rattle.std.specs.Prelude.{◌≡◌, ◌≤◌, length, IfOk};
ghost use Rattle.eb_rule_text.specs.Input.{Reads, go_on, mark, name, pure};
ghost use Rattle.eb_rule_text.specs.Reading as spec;
ghost use Rattle.eb_rule_text.specs.declared.trees.Expr.TheVariants as e;

use crate::cursor::Tokens;
use crate::errors::ReadError;
use crate::lexemes::Lexeme;
use crate::marks::Mark;
use crate::reads::{finds, read};
use crate::trees::{Context, Expr, Find, Link, Op};
use sqlite_items::{Boxed, Items};
use std::alloc::{AllocError, Global};

// The level of the comparisons, which don't follow one another.
const COMPARISONS: u8 = 2;

// The levels of operators, from those of `*` and `/` to `||`.
const LEVELS: u8 = 5;

/// An expression, where so many levels are left.
#[tactic(auto, unfolding(crate::specs::Reading::expression))]
pub fn expression(
    alloc: Global,
    tokens: &mut Tokens<'_>,
    context: Context,
    depth: u8,
) -> Result<Expr, ReadError>
    ensures { Reads (spec.expression context depth tokens.old) result tokens.new }
{
    let read = level(alloc, tokens, context, depth, LEVELS)?;
    Ok(read)
}

// The level of an operator and the operator, where this mark is one.
fn op_by(mark: Mark) -> Option<(u8, Op)>
    ensures { result ≡ spec.op_by mark }
{
    match mark {
        Mark::Star => Some((0, Op::Times)),
        Mark::Slash => Some((0, Op::Over)),
        Mark::Plus => Some((1, Op::Plus)),
        Mark::Minus => Some((1, Op::Minus)),
        Mark::Equal => Some((2, Op::Equal)),
        Mark::NotEqual => Some((2, Op::NotEqual)),
        Mark::Less => Some((2, Op::Less)),
        Mark::AtMost => Some((2, Op::AtMost)),
        Mark::Greater => Some((2, Op::Greater)),
        Mark::AtLeast => Some((2, Op::AtLeast)),
        Mark::And => Some((3, Op::And)),
        Mark::Either => Some((4, Op::Either)),
        _ => None,
    }
}

// The operator of this level that comes next.
fn op_at(level: u8, next: Option<Mark>) -> Option<Op>
    ensures { result ≡ spec.op_at level next }
{
    match next {
        None => None,
        Some(mark) => of_level(level, op_by(mark)),
    }
}

fn of_level(level: u8, found: Option<(u8, Op)>) -> Option<Op>
    ensures { result ≡ spec.of_level level found }
{
    match found {
        None => None,
        Some((at, op)) => { if at == level { Some(op) } else { None } }
    }
}

fn turns(level: u8, left: usize) -> usize
    ensures { result ≡ spec.turns_of level left }
{
    if level == COMPARISONS { 1 } else { left }
}

fn chain(alloc: Global, first: Expr, more: Items<Link<Expr>>) -> Result<Expr, AllocError>
    ensures { IfOk result (λ x. x ≡ spec.chain first more) }
{
    if more.is_empty() {
        return Ok(first);
    }
    Ok(Expr::Chain(Boxed::new(alloc, first)?, more))
}

fn found_of(alloc: Global, found: Items<Find>, last: Expr) -> Result<Expr, AllocError>
    ensures { IfOk result (λ x. x ≡ spec.found_of found last) }
{
    if found.is_empty() {
        return Ok(last);
    }
    Ok(Expr::Find(found, Boxed::new(alloc, last)?))
}

// Operands of the level below, with operators of this level between them.
#[cycle(reading)]
fn level(
    alloc: Global,
    tokens: &mut Tokens<'_>,
    context: Context,
    depth: u8,
    level_no: u8,
) -> Result<Expr, ReadError>
    requires { level_no ≤ 5 }
    ensures { Reads (spec.level (spec.unary context depth) level_no tokens.old) result tokens.new }
{
    if level_no == 0 {
        return signed(alloc, tokens, context, depth);
    }
    let first = level(alloc, tokens, context, depth, level_no - 1)?;
    let more = links(alloc, tokens, context, depth, level_no - 1)?;
    let whole = chain(alloc, first, more)?;
    Ok(whole)
}

// The operators of a level and the operands behind them.
#[cycle(reading)]
#[tactic(auto, unfolding(crate::specs::Reading::links))]
fn links(
    alloc: Global,
    tokens: &mut Tokens<'_>,
    context: Context,
    depth: u8,
    level_no: u8,
) -> Result<Items<Link<Expr>>, ReadError>
    requires { level_no ≤ 4 }
    ensures { Reads (spec.links (spec.level (spec.unary context depth) level_no) level_no tokens.old) result tokens.new }
{
    let mut done = Items::new(alloc);
    for _turn in 0..turns(level_no, tokens.left()) {
        let Some(op) = op_at(level_no, tokens.mark()) else {
            return Ok(done);
        };
        tokens.skip();
        let right = level(alloc, tokens, context, depth, level_no)?;
        done.push(Link { op, right })?;
    }
    Ok(done)
}

// An operand with its signs.
#[cycle(reading)]
#[tactic(auto, unfolding(crate::specs::Reading::signed))]
fn signed(
    alloc: Global,
    tokens: &mut Tokens<'_>,
    context: Context,
    depth: u8,
) -> Result<Expr, ReadError>
    ensures { Reads (spec.unary context depth tokens.old) result tokens.new }
{
    match tokens.mark() {
        Some(Mark::Minus) => {
            let operand = under(alloc, tokens, context, depth, Mark::Minus)?;
            Ok(Expr::Negate(operand))
        }
        Some(Mark::Not) => {
            let operand = under(alloc, tokens, context, depth, Mark::Not)?;
            Ok(Expr::Not(operand))
        }
        _ => prim(alloc, tokens, context, depth),
    }
}

// A sign, and what it stands before, one level deeper.
#[cycle(reading)]
#[tactic(auto, unfolding(crate::specs::Reading::under))]
fn under(
    alloc: Global,
    tokens: &mut Tokens<'_>,
    context: Context,
    depth: u8,
    sign: Mark,
) -> Result<Boxed<Expr>, ReadError>
    ensures { Reads (spec.under context depth (spec.below context depth) sign tokens.old) result tokens.new }
{
    tokens.open(depth, sign)?;
    let operand = signed(alloc, tokens, context, depth - 1)?;
    let operand = Boxed::new(alloc, operand)?;
    Ok(operand)
}

#[cycle(reading)]
#[tactic(auto, unfolding(crate::specs::Reading::prim))]
fn prim(
    alloc: Global,
    tokens: &mut Tokens<'_>,
    context: Context,
    depth: u8,
) -> Result<Expr, ReadError>
    ensures { Reads (spec.prim context depth (spec.below context depth) tokens.old) result tokens.new }
{
    let found = finds(alloc, tokens, context, depth)?;
    let last = atom(alloc, tokens, context, depth)?;
    let whole = found_of(alloc, found, last)?;
    Ok(whole)
}

#[cycle(reading)]
fn atom(
    alloc: Global,
    tokens: &mut Tokens<'_>,
    context: Context,
    depth: u8,
) -> Result<Expr, ReadError>
    ensures { Reads (spec.atom context depth (spec.below context depth) tokens.old) result tokens.new }
{
    match tokens.mark() {
        Some(mark) => marked(alloc, tokens, context, depth, mark),
        None => literal(alloc, tokens),
    }
}

// A name or a number.
#[tactic(auto, unfolding(crate::specs::Input::name))]
fn literal(alloc: Global, tokens: &mut Tokens<'_>) -> Result<Expr, ReadError>
    ensures { Reads (spec.literal tokens.old) result tokens.new }
{
    match tokens.rest() {
        [Lexeme::Name(_), ..] => named(alloc, tokens),
        [Lexeme::Int(number), ..] => {
            tokens.skip();
            Ok(Expr::Int(*number))
        }
        [Lexeme::Fix(units), ..] => {
            tokens.skip();
            Ok(Expr::Fix(*units))
        }
        [Lexeme::Mark(_), ..] => Err(tokens.refuse()),
        [Lexeme::Underscored, ..] => Err(tokens.refuse()),
        [] => Err(tokens.refuse()),
    }
}

fn named(alloc: Global, tokens: &mut Tokens<'_>) -> Result<Expr, ReadError>
    ensures { Reads (go_on (name tokens.old) (λ read. pure (e.Name read))) result tokens.new }
{
    let read = tokens.name(alloc)?;
    Ok(Expr::Name(read))
}

// An atom that begins with a reserved word or a parenthesis.
#[cycle(reading)]
#[tactic(auto, unfolding(crate::specs::Reading::marked))]
fn marked(
    alloc: Global,
    tokens: &mut Tokens<'_>,
    context: Context,
    depth: u8,
    mark: Mark,
) -> Result<Expr, ReadError>
    ensures { Reads (spec.marked context depth (spec.below context depth) mark tokens.old) result tokens.new }
{
    match mark {
        Mark::LParen => {
            let inner = enclosed(alloc, tokens, context, depth)?;
            Ok(Expr::Paren(inner))
        }
        Mark::Fix => {
            tokens.expect(Mark::Fix)?;
            let inner = enclosed(alloc, tokens, context, depth)?;
            Ok(Expr::ToFix(inner))
        }
        Mark::Int => {
            tokens.expect(Mark::Int)?;
            let inner = enclosed(alloc, tokens, context, depth)?;
            Ok(Expr::ToInt(inner))
        }
        Mark::True => {
            tokens.expect(Mark::True)?;
            Ok(Expr::True)
        }
        Mark::False => {
            tokens.expect(Mark::False)?;
            Ok(Expr::False)
        }
        Mark::Null => {
            tokens.expect(Mark::Null)?;
            Ok(Expr::Null)
        }
        _ => {
            let read = read(alloc, tokens, context, depth)?;
            Ok(Expr::Read(read))
        }
    }
}

// An expression in parentheses, one level deeper.
#[cycle(reading)]
#[tactic(auto, unfolding(crate::specs::Reading::enclosed))]
fn enclosed(
    alloc: Global,
    tokens: &mut Tokens<'_>,
    context: Context,
    depth: u8,
) -> Result<Boxed<Expr>, ReadError>
    ensures { Reads (spec.enclosed context depth (spec.below context depth) tokens.old) result tokens.new }
{
    tokens.open(depth, Mark::LParen)?;
    let inner = level(alloc, tokens, context, depth - 1, LEVELS)?;
    tokens.expect(Mark::RParen)?;
    let inner = Boxed::new(alloc, inner)?;
    Ok(inner)
}
