// Names and types of expressions, and what they are resolved to.
ghost use Rattle.std.specs.Prelude.{◌≡◌, [], map, MatchResult, Ok, Err};
ghost use Rattle.eb_rules.specs.Typing as spec;
ghost use Rattle.eb_rules.specs.Typing.{Walks};

use crate::faults::RuleKind;
use crate::fields::{past, required};
use crate::finds::{agreed, finds_named, terms};
use crate::plans::Term;
use crate::reads::{name_typed, read_tokens, read_walk};
use crate::scopes::Scope;
use crate::shapes::{Shape, of_fix, of_int, of_minus, of_not, of_op};
use crate::walking::WalkError;
use eb_rule_text::{Expr, Find, Link};
use sqlite_items::{Boxed, Items};
use std::alloc::Global;

/// A resolved expression and what it is.
#[derive(Drop)]
pub struct Resolved {
    pub term: Term,
    pub shape: Shape,
}

/// An expression of this shape.
pub fn typed_as(term: Term, shape: Shape) -> Resolved
    ensures { result ≡ spec.typed_as term shape }
{
    Resolved { term, shape }
}

/// An expression resolved and the places behind it, or its first fault. The places are those of its tokens and of what follows.
#[cycle(typing)]
#[tactic(auto, unfolding(crate::specs::Typing::typed))]
pub fn typed<'p>(
    alloc: Global,
    scope: &Scope<'_, '_>,
    expr: &Expr,
    places: &'p [usize],
) -> Result<(Resolved, &'p [usize]), WalkError>
    ensures { Walks (spec.typed scope.now expr.now places.now) (λ q. (q.0, q.1.now)) result }
{
    match expr {
        Expr::Int(n) => Ok((typed_as(Term::Int(*n), Shape::Int), past(places, 1))),
        Expr::Fix(n) => Ok((typed_as(Term::Fix(*n), Shape::Fix), past(places, 1))),
        Expr::True => Ok((typed_as(Term::True, Shape::Bool), past(places, 1))),
        Expr::False => Ok((typed_as(Term::False, Shape::Bool), past(places, 1))),
        Expr::Null => Ok((typed_as(Term::Null, Shape::Ref), past(places, 1))),
        Expr::Name(name) => {
            let name = name_typed(scope, name, places)?;
            Ok((name, past(places, 1)))
        }
        Expr::Paren(inner) => {
            let (inner, rest) = typed(alloc, scope, inner.get(), past(places, 1))?;
            Ok((inner, past(rest, 1)))
        }
        Expr::ToFix(inner) => {
            let (inner, rest) = typed(alloc, scope, inner.get(), past(places, 2))?;
            let shape = required(RuleKind::TypeFault, of_fix(inner.shape), places)?;
            let inner = Boxed::new(alloc, inner.term)?;
            Ok((typed_as(Term::ToFix(inner), shape), past(rest, 1)))
        }
        Expr::ToInt(inner) => {
            let (inner, rest) = typed(alloc, scope, inner.get(), past(places, 2))?;
            let shape = required(RuleKind::TypeFault, of_int(inner.shape), places)?;
            let inner = Boxed::new(alloc, inner.term)?;
            Ok((typed_as(Term::ToInt(inner), shape), past(rest, 1)))
        }
        Expr::Read(read) => {
            let value = read_walk(scope, read, places)?;
            Ok((value, past(places, read_tokens(read))))
        }
        Expr::Find(finds, last) => {
            let (made, rest) = typed_finds(alloc, scope, finds.as_slice(), last.get(), places)?;
            Ok((made, rest))
        }
        Expr::Negate(operand) => {
            let (operand, rest) = typed(alloc, scope, operand.get(), past(places, 1))?;
            let shape = required(RuleKind::TypeFault, of_minus(operand.shape), places)?;
            let operand = Boxed::new(alloc, operand.term)?;
            Ok((typed_as(Term::Negate(operand), shape), rest))
        }
        Expr::Not(operand) => {
            let (operand, rest) = typed(alloc, scope, operand.get(), past(places, 1))?;
            let shape = required(RuleKind::TypeFault, of_not(operand.shape), places)?;
            let operand = Boxed::new(alloc, operand.term)?;
            Ok((typed_as(Term::Not(operand), shape), rest))
        }
        Expr::Chain(first, more) => {
            let (first, rest) = typed(alloc, scope, first.get(), places)?;
            let (made, rest) = chained(alloc, scope, first, more.as_slice(), places, rest)?;
            Ok((made, rest))
        }
    }
}

// The links behind a first operand.
#[cycle(typing)]
#[tactic(auto, unfolding(crate::specs::Typing::typed))]
fn chained<'p>(
    alloc: Global,
    scope: &Scope<'_, '_>,
    first: Resolved,
    more: &[Link<Expr>],
    places: &[usize],
    behind: &'p [usize],
) -> Result<(Resolved, &'p [usize]), WalkError>
    ensures { Walks (spec.chained first (map (spec.typed_link scope.now) more.now) places.now behind.now) (λ q. (q.0, q.1.now)) result }
{
    let mut links = Items::new(alloc);
    let (shape, rest) = typed_links(alloc, scope, more, first.shape, &mut links, places, behind)?;
    let first = Boxed::new(alloc, first.term)?;
    Ok((typed_as(Term::Chain(first, links), shape), rest))
}

// Reads, each with its `or`, and what stands behind the last one.
#[cycle(typing)]
#[tactic(auto, unfolding(crate::specs::Typing::typed))]
fn typed_finds<'p>(
    alloc: Global,
    scope: &Scope<'_, '_>,
    finds: &[Find],
    last: &Expr,
    places: &'p [usize],
) -> Result<(Resolved, &'p [usize]), WalkError>
    ensures { Walks (spec.finds_typed scope.now finds.now (spec.typed scope.now last.now) places.now) (λ q. (q.0, q.1.now)) result }
{
    let mut named = Items::new(alloc);
    let behind = finds_named(scope, finds, &mut named, places)?;
    let (last, rest) = typed(alloc, scope, last, behind)?;
    agreed(last.shape, named.as_slice())?;
    let finds = terms(alloc, named.as_slice())?;
    let shape = last.shape;
    let last = Boxed::new(alloc, last.term)?;
    Ok((typed_as(Term::Find(finds, last), shape), rest))
}

// The links of a chain that begins at `places` and has this shape so far, behind those that are done.
#[cycle(typing)]
#[tactic(auto, unfolding(crate::specs::Typing::typed))]
fn typed_links<'p>(
    alloc: Global,
    scope: &Scope<'_, '_>,
    links: &[Link<Expr>],
    first: Shape,
    done: &mut Items<Link<Term>>,
    places: &[usize],
    behind: &'p [usize],
) -> Result<(Shape, &'p [usize]), WalkError>
    ensures { Walks (spec.links_typed (map (spec.typed_link scope.now) links.now) first done.old places.now behind.now) (λ q. ((done.new, q.0), q.1.now)) result }
{
    let mut shape = first;
    let mut rest = behind;
    for link in links {
        let (right, after) = typed(alloc, scope, &link.right, past(rest, 1))?;
        shape = required(
            RuleKind::TypeFault,
            of_op(link.op, shape, right.shape),
            places,
        )?;
        done.push(Link {
            op: link.op,
            right: right.term,
        })?;
        rest = after;
    }
    Ok((shape, rest))
}
