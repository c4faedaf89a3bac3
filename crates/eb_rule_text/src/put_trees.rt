// Prints expressions and statements.
ghost use Rattle.std.specs.Prelude.{◌≡◌, ◌++◌, OnOk};
ghost use Rattle.eb_rule_text.specs.Printing as spec;

use crate::marks::Mark;
use crate::put_reads::{put_finds, put_read};
use crate::spelling::{put_fix, put_int, put_mark, put_name};
use crate::trees::{Add, Expr, Find, Init, Link, Op, Stmt};
use eb_base::{Memory, Text};
use std::alloc::Global;

fn op_mark(op: Op) -> Mark
    ensures { result ≡ spec.op_mark op }
{
    match op {
        Op::Either => Mark::Either,
        Op::And => Mark::And,
        Op::Equal => Mark::Equal,
        Op::NotEqual => Mark::NotEqual,
        Op::Less => Mark::Less,
        Op::AtMost => Mark::AtMost,
        Op::Greater => Mark::Greater,
        Op::AtLeast => Mark::AtLeast,
        Op::Plus => Mark::Plus,
        Op::Minus => Mark::Minus,
        Op::Times => Mark::Star,
        Op::Over => Mark::Slash,
    }
}

/// An expression.
#[cycle(putting)]
pub fn put_expr(alloc: Global, out: &mut Vec<u8>, expr: &Expr) -> Result<(), Memory>
    ensures { OnOk result (out.new.items ≡ out.old.items ++ spec.expr_text expr.now) }
{
    match expr {
        Expr::Int(number) => put_int(alloc, out, *number),
        Expr::Fix(units) => put_fix(alloc, out, *units),
        Expr::True => put_mark(out, Mark::True),
        Expr::False => put_mark(out, Mark::False),
        Expr::Null => put_mark(out, Mark::Null),
        Expr::Name(name) => put_name(out, name),
        Expr::Paren(inner) => put_enclosed(alloc, out, inner.get()),
        Expr::ToFix(inner) => put_call(alloc, out, Mark::Fix, inner.get()),
        Expr::ToInt(inner) => put_call(alloc, out, Mark::Int, inner.get()),
        Expr::Read(read) => put_read(out, read),
        Expr::Find(found, last) => put_found(alloc, out, found.as_slice(), last.get()),
        Expr::Negate(operand) => put_marked(alloc, out, Mark::Minus, operand.get()),
        Expr::Not(operand) => put_marked(alloc, out, Mark::Not, operand.get()),
        Expr::Chain(first, more) => {
            put_expr(alloc, out, first.get())?;
            put_links(alloc, out, more.as_slice())?;
            Ok(())
        }
    }
}

// Reads with an `or`, and the expression behind them.
#[cycle(putting)]
fn put_found(alloc: Global, out: &mut Vec<u8>, found: &[Find], last: &Expr) -> Result<(), Memory>
    ensures { OnOk result (out.new.items ≡ out.old.items ++ (spec.finds_text found.now ++ spec.expr_text last.now)) }
{
    put_finds(out, found)?;
    put_expr(alloc, out, last)?;
    Ok(())
}

// A mark in front of an expression.
#[cycle(putting)]
fn put_marked(alloc: Global, out: &mut Vec<u8>, mark: Mark, expr: &Expr) -> Result<(), Memory>
    ensures { OnOk result (out.new.items ≡ out.old.items ++ (spec.mark_out mark ++ spec.expr_text expr.now)) }
{
    put_mark(out, mark)?;
    put_expr(alloc, out, expr)?;
    Ok(())
}

// A mark in front of an expression in parentheses.
#[cycle(putting)]
fn put_call(alloc: Global, out: &mut Vec<u8>, mark: Mark, expr: &Expr) -> Result<(), Memory>
    ensures { OnOk result (out.new.items ≡ out.old.items ++ (spec.mark_out mark ++ (spec.mark_out Mark.LParen ++ (spec.expr_text expr.now ++ spec.mark_out Mark.RParen)))) }
{
    put_mark(out, mark)?;
    put_enclosed(alloc, out, expr)?;
    Ok(())
}

// An expression in parentheses.
#[cycle(putting)]
fn put_enclosed(alloc: Global, out: &mut Vec<u8>, expr: &Expr) -> Result<(), Memory>
    ensures { OnOk result (out.new.items ≡ out.old.items ++ (spec.mark_out Mark.LParen ++ (spec.expr_text expr.now ++ spec.mark_out Mark.RParen))) }
{
    put_mark(out, Mark::LParen)?;
    put_expr(alloc, out, expr)?;
    put_mark(out, Mark::RParen)?;
    Ok(())
}

// Operators and the operands behind them.
#[cycle(putting)]
fn put_links(alloc: Global, out: &mut Vec<u8>, links: &[Link<Expr>]) -> Result<(), Memory>
    ensures { OnOk result (out.new.items ≡ out.old.items ++ spec.chain_text links.now) }
{
    for link in links {
        put_mark(out, op_mark(link.op))?;
        put_expr(alloc, out, &link.right)?;
    }
    Ok(())
}

// f : e
fn put_init(alloc: Global, out: &mut Vec<u8>, init: &Init) -> Result<(), Memory>
    ensures { OnOk result (out.new.items ≡ out.old.items ++ spec.init_text init.now) }
{
    put_name(out, &init.field)?;
    put_mark(out, Mark::Colon)?;
    put_expr(alloc, out, &init.value)?;
    Ok(())
}

// , f : e ..
fn put_more_inits(alloc: Global, out: &mut Vec<u8>, inits: &[Init]) -> Result<(), Memory>
    ensures { OnOk result (out.new.items ≡ out.old.items ++ spec.more_inits inits.now) }
{
    for init in inits {
        put_mark(out, Mark::Comma)?;
        put_init(alloc, out, init)?;
    }
    Ok(())
}

// f : e , ..
fn put_some_inits(alloc: Global, out: &mut Vec<u8>, inits: &[Init]) -> Result<(), Memory>
    ensures { OnOk result (out.new.items ≡ out.old.items ++ spec.some_inits inits.now) }
{
    match inits {
        [] => Ok(()),
        [first, more @ ..] => {
            put_init(alloc, out, first)?;
            put_more_inits(alloc, out, more)?;
            Ok(())
        }
    }
}

/// { f : e , .. }
pub fn put_inits(alloc: Global, out: &mut Vec<u8>, inits: &[Init]) -> Result<(), Memory>
    ensures { OnOk result (out.new.items ≡ out.old.items ++ spec.inits_text inits.now) }
{
    put_mark(out, Mark::LBrace)?;
    put_some_inits(alloc, out, inits)?;
    put_mark(out, Mark::RBrace)?;
    Ok(())
}

// add T { .. }
fn put_add(alloc: Global, out: &mut Vec<u8>, add: &Add) -> Result<(), Memory>
    ensures { OnOk result (out.new.items ≡ out.old.items ++ spec.add_text add.now) }
{
    put_mark(out, Mark::Add)?;
    put_name(out, &add.kind)?;
    put_inits(alloc, out, add.inits.as_slice())?;
    Ok(())
}

fn put_adds(alloc: Global, out: &mut Vec<u8>, adds: &[Add]) -> Result<(), Memory>
    ensures { OnOk result (out.new.items ≡ out.old.items ++ spec.adds_text adds.now) }
{
    for add in adds {
        put_add(alloc, out, add)?;
    }
    Ok(())
}

// The body of an extra.
fn put_extra_body(alloc: Global, out: &mut Vec<u8>, adds: &[Add]) -> Result<(), Memory>
    ensures { OnOk result (out.new.items ≡ out.old.items ++ spec.braced (spec.adds_text adds.now)) }
{
    put_mark(out, Mark::LBrace)?;
    put_adds(alloc, out, adds)?;
    put_mark(out, Mark::RBrace)?;
    Ok(())
}

// let x = e ;
fn put_let(alloc: Global, out: &mut Vec<u8>, name: &Text, value: &Expr) -> Result<(), Memory>
    ensures { OnOk result (out.new.items ≡ out.old.items ++ spec.let_text name.now value.now) }
{
    put_mark(out, Mark::Let)?;
    put_name(out, name)?;
    put_mark(out, Mark::Assign)?;
    put_expr(alloc, out, value)?;
    put_mark(out, Mark::Semicolon)?;
    Ok(())
}

// extra x { .. }
fn put_extra(alloc: Global, out: &mut Vec<u8>, name: &Text, adds: &[Add]) -> Result<(), Memory>
    ensures { OnOk result (out.new.items ≡ out.old.items ++ spec.extra_text name.now adds.now) }
{
    put_mark(out, Mark::Extra)?;
    put_name(out, name)?;
    put_extra_body(alloc, out, adds)?;
    Ok(())
}

// if e
fn put_test(alloc: Global, out: &mut Vec<u8>, test: &Expr) -> Result<(), Memory>
    ensures { OnOk result (out.new.items ≡ out.old.items ++ spec.if_text test.now) }
{
    put_mark(out, Mark::If)?;
    put_expr(alloc, out, test)?;
    Ok(())
}

// One statement.
#[cycle(stating)]
#[tactic(auto, using(crate::proofs::PrintedTexts::text_let, crate::proofs::PrintedTexts::text_add, crate::proofs::PrintedTexts::text_extra))]
fn put_stmt(alloc: Global, out: &mut Vec<u8>, stmt: &Stmt) -> Result<(), Memory>
    ensures { OnOk result (out.new.items ≡ out.old.items ++ spec.stmt_text stmt.now) }
{
    match stmt {
        Stmt::Let(name, value) => put_let(alloc, out, name, value),
        Stmt::Add(add) => put_add(alloc, out, add),
        Stmt::Extra(name, adds) => put_extra(alloc, out, name, adds.as_slice()),
        Stmt::If(test, body, other) => {
            put_test(alloc, out, test)?;
            put_block(alloc, out, body.as_slice())?;
            match other {
                None => Ok(()),
                Some(more) => {
                    put_else(alloc, out, more.as_slice())?;
                    Ok(())
                }
            }
        }
    }
}

// else { .. }
#[cycle(stating)]
fn put_else(alloc: Global, out: &mut Vec<u8>, body: &[Stmt]) -> Result<(), Memory>
    ensures { OnOk result (out.new.items ≡ out.old.items ++ (spec.mark_out Mark.Else ++ spec.braced (spec.stmts_text body.now))) }
{
    put_mark(out, Mark::Else)?;
    put_block(alloc, out, body)?;
    Ok(())
}

/// Statements in braces.
#[cycle(stating)]
pub fn put_block(alloc: Global, out: &mut Vec<u8>, body: &[Stmt]) -> Result<(), Memory>
    ensures { OnOk result (out.new.items ≡ out.old.items ++ spec.braced (spec.stmts_text body.now)) }
{
    put_mark(out, Mark::LBrace)?;
    put_stmts(alloc, out, body)?;
    put_mark(out, Mark::RBrace)?;
    Ok(())
}

#[cycle(stating)]
fn put_stmts(alloc: Global, out: &mut Vec<u8>, body: &[Stmt]) -> Result<(), Memory>
    ensures { OnOk result (out.new.items ≡ out.old.items ++ spec.stmts_text body.now) }
{
    for stmt in body {
        put_stmt(alloc, out, stmt)?;
    }
    Ok(())
}
