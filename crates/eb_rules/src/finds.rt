// Names and types of reads that go on with `or`.
ghost use Rattle.std.specs.Prelude.{◌≡◌, ◌++◌, [], map, None, MatchResult, Ok, Err, IfOk};
ghost use Rattle.eb_rules.specs.Typing as spec;
ghost use Rattle.eb_rule_text.specs.Counts as counts;
ghost use Rattle.eb_rules.specs.Typing.{Walks};

use crate::faults::{Refusal, RuleKind};
use crate::fields::{asked, authored, field_in, here, known, of_component, past};
use crate::plans::FindTerm;
use crate::scopes::Scope;
use crate::shapes::{Shape, fits, found_shape};
use crate::walking::WalkError;
use eb_base::Memory;
use eb_rule_text::Find;
use sqlite_items::Items;
use std::alloc::Global;

/// A read whose names are known, and the place of its first token.
#[derive(Clone, Copy, Debug, PartialEq, Eq)]
pub struct Named {
    pub term: FindTerm,
    pub at: usize,
}

// The names of a read, in the order of the text.
fn find_walk(scope: &Scope<'_, '_>, find: &Find, places: &[usize]) -> Result<FindTerm, Refusal>
    ensures { result ≡ spec.find_walk scope.now find.now places.now }
{
    match find {
        Find::Own(path) => {
            let field = authored(scope, path, past(places, 2), past(places, 5))?;
            Ok(FindTerm::Own(field))
        }
        Find::Parent(path) => {
            let field = authored(scope, path, past(places, 2), past(places, 5))?;
            Ok(FindTerm::Parent(field))
        }
        Find::Asset(link, field) => {
            let link = known(field_in(link, scope.own), past(places, 4))?;
            let field = known(
                field_in(field, scope.schema.asset_fields()),
                past(places, 7),
            )?;
            Ok(FindTerm::Asset(link, field))
        }
        Find::Min(over, path) => {
            let field = authored(scope, path, past(places, 3), past(places, 6))?;
            Ok(FindTerm::Min(*over, field))
        }
        Find::Max(over, path) => {
            let field = authored(scope, path, past(places, 3), past(places, 6))?;
            Ok(FindTerm::Max(*over, field))
        }
        Find::At(link, path) => {
            let link = asked(scope, link, past(places, 4), past(places, 6))?;
            let field = of_component(scope, path, past(places, 9), past(places, 11))?;
            Ok(FindTerm::At(link, field))
        }
        Find::MaxAll(path) => {
            let field = of_component(scope, path, past(places, 3), past(places, 5))?;
            Ok(FindTerm::MaxAll(field))
        }
    }
}

// How many tokens it has, `or` included.
fn find_tokens(find: &Find) -> usize
    ensures { result ≡ counts.find_tokens find.now }
{
    match find {
        Find::Own(_) => 7,
        Find::Parent(_) => 7,
        Find::Asset(_, _) => 9,
        Find::Min(_, _) => 8,
        Find::Max(_, _) => 8,
        Find::At(_, _) => 13,
        Find::MaxAll(_) => 8,
    }
}

/// The names of all reads, in the order of the text, and the places behind them.
pub fn finds_named<'p>(
    scope: &Scope<'_, '_>,
    finds: &[Find],
    done: &mut Items<Named>,
    places: &'p [usize],
) -> Result<&'p [usize], WalkError>
    ensures { Walks (spec.finds_named scope.now finds.now done.old places.now) (λ q. (done.new, q.now)) result }
{
    let mut rest = places;
    for find in finds {
        let term = find_walk(scope, find, rest)?;
        done.push(Named {
            term,
            at: here(rest),
        })?;
        rest = past(rest, find_tokens(find));
    }
    Ok(rest)
}

// The place of the innermost read that doesn't find what stands behind the last `or`.
fn innermost(shape: Shape, finds: &[Named]) -> Option<usize>
    ensures { result ≡ spec.innermost shape finds.now None }
{
    let mut found = None;
    for find in finds {
        if !fits(found_shape(&find.term), shape) {
            found = Some(find.at);
        }
    }
    found
}

/// That all reads find what stands behind the last `or`, or where the innermost begins that doesn't.
pub fn agreed(shape: Shape, finds: &[Named]) -> Result<(), Refusal>
    ensures { result ≡ spec.agreed (spec.innermost shape finds.now None) }
{
    match innermost(shape, finds) {
        None => Ok(()),
        Some(at) => Err(Refusal {
            kind: RuleKind::TypeFault,
            at,
        }),
    }
}

/// The reads without their places.
pub fn terms(alloc: Global, finds: &[Named]) -> Result<Items<FindTerm>, Memory>
    ensures { IfOk result (λ t. t ≡ spec.terms finds.now) }
{
    let mut done = Items::new(alloc);
    for find in finds {
        done.push(find.term)?;
    }
    Ok(done)
}
