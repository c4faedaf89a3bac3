// Names of queries.
ghost use Rattle.std.specs.Prelude.{◌≡◌, ◌+◌, ◌<◌, ◌≤◌, [], length, MatchResult, Ok, Err, OnOk};
ghost use Rattle.eb_rules.specs.Queries as spec;
ghost use Rattle.eb_rules.specs.Typing.{Walks};

use crate::faults::{Refusal, RuleKind};
use crate::fields::{is_in_all, known, past, tested};
use crate::walking::WalkError;
use eb_base::{Items, Text, TypeNo};
use eb_rule_text::Query;
use eb_schema::Schema;
use std::alloc::Global;

// How many names a query may have.
const MOST_NAMES: usize = 32;

/// The types of a query's three lists, in the order of the text.
#[derive(Debug, Drop)]
pub struct Query3 {
    /// An entity has all of these.
    pub all: Items<TypeNo>,
    /// It has one of these, where there are any.
    pub any: Items<TypeNo>,
    /// It has none of these.
    pub none: Items<TypeNo>,
}

// One name, where so many stand before it.
fn name_typed(
    schema: &Schema,
    before: usize,
    name: &Text,
    places: &[usize],
) -> Result<TypeNo, Refusal>
    ensures value { result ≡ spec.name_typed schema.now before name.now places.now }
    ensures room { OnOk result (before < 32) }
{
    let kind = known(schema.component_named(name.bytes()), places)?;
    tested(RuleKind::TooMany, before < MOST_NAMES, places)?;
    Ok(kind)
}

// All names of a list, behind its word. The types are put into `done`, which is empty.
fn names_typed<'p>(
    schema: &Schema,
    before: usize,
    names: &[Text],
    done: &mut Items<TypeNo>,
    places: &'p [usize],
) -> Result<&'p [usize], WalkError>
    requires { before + length done.old ≤ 32 }
    ensures value { Walks (spec.names_from schema.now before names.now done.old places.now) (λ q. (done.new, q.now)) result }
    ensures few { OnOk result (before + length done.new ≤ 32) }
{
    let mut rest = places;
    for name in names {
        let kind = name_typed(schema, before + done.len(), name, rest)?;
        done.push(kind)?;
        rest = past(rest, 1);
    }
    Ok(rest)
}

// A list, where its word is written.
fn list_typed<'p>(
    schema: &Schema,
    before: usize,
    names: &[Text],
    done: &mut Items<TypeNo>,
    places: &'p [usize],
) -> Result<&'p [usize], WalkError>
    requires few { before ≤ 32 }
    requires none { done.old ≡ [] }
    ensures value { Walks (spec.list_typed schema.now before names.now places.now) (λ q. (done.new, q.now)) result }
    ensures few { OnOk result (before + length done.new ≤ 32) }
{
    match names {
        [] => Ok(places),
        [_, ..] => {
            let rest = names_typed(schema, before, names, done, past(places, 1))?;
            Ok(rest)
        }
    }
}

fn clashes(all: &[TypeNo], any: &[TypeNo], none: &[TypeNo]) -> bool
    ensures { result ≡ spec.clashes all.now any.now none.now }
{
    for kind in none {
        if is_in_all(*kind, all) || is_in_all(*kind, any) {
            return true;
        }
    }
    false
}

/// The types of a query, whose places begin with its first word. `UnknownName` and then `TooMany` at a name; `TooMany` at the first
/// word where a type is both asked for and kept out.
pub fn query_typed<'p>(
    alloc: Global,
    schema: &Schema,
    query: &Query,
    places: &'p [usize],
) -> Result<(Query3, &'p [usize]), WalkError>
    ensures { Walks (spec.query_typed schema.now query.now places.now) (λ q. (q.0, q.1.now)) result }
{
    let mut all = Items::new(alloc);
    let rest = list_typed(schema, 0, query.all.as_slice(), &mut all, places)?;
    let mut any = Items::new(alloc);
    let rest = list_typed(schema, all.len(), query.any.as_slice(), &mut any, rest)?;
    let mut none = Items::new(alloc);
    let before = all.len() + any.len();
    let rest = list_typed(schema, before, query.none.as_slice(), &mut none, rest)?;
    let clashing = clashes(all.items(), any.items(), none.items());
    tested(RuleKind::TooMany, !clashing, places)?;
    Ok((Query3 { all, any, none }, rest))
}
