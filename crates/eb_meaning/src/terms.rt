// The value of an expression. `docs/rules.md`, "Meaning".
ghost use Rattle.std.specs.Prelude.{◌≡◌};
ghost use Rattle.eb_meaning.specs.Asks.{Goes, run};
ghost use Rattle.eb_meaning.specs.Meaning as spec;

use crate::operators::{NO_VALUE, applied, left_decides, negated, to_fix, to_int, truth};
use crate::sights::Reads;
use crate::values::{Link, Stop, Value};
use eb_base::Items;
use eb_rule_text::{Link as Linked, Op};
use eb_rules::{FindTerm, Term};
use eb_scene::Key;

/// The value of an expression, where these are the values of the visible names: its first fault, or want of memory, where it
/// has none. The keys that are looked at are noted.
#[cycle(valuing)]
#[tactic(auto, unfolding(crate::specs::Meaning::meaning))]
pub fn value<R: Reads>(
    reads: &R,
    noted: &mut Items<Key>,
    names: &[Value],
    term: &Term,
) -> Result<Value, Stop>
    ensures { Goes (run (R.answers reads.now) (spec.meaning (R.sight reads.now) term.now names.now) noted.old) result noted.new }
{
    match term {
        Term::Int(number) => Ok(Value::Int(*number)),
        Term::Fix(units) => Ok(Value::Fix(*units)),
        Term::True => Ok(Value::Truth(true)),
        Term::False => Ok(Value::Truth(false)),
        Term::Null => Ok(Value::Link(Link::Null)),
        Term::Name(at) => Ok(name_at(names, *at)),
        Term::ToFix(inner) => {
            let inner = value(reads, noted, names, inner.get())?;
            let made = to_fix(inner)?;
            Ok(made)
        }
        Term::ToInt(inner) => {
            let inner = value(reads, noted, names, inner.get())?;
            let made = to_int(inner)?;
            Ok(made)
        }
        Term::Read(read) => {
            let made = reads.read(noted, read)?;
            Ok(made)
        }
        Term::Find(finds, last) => {
            let made = value_or(reads, noted, names, finds.as_slice(), last.get())?;
            Ok(made)
        }
        Term::Negate(inner) => {
            let inner = value(reads, noted, names, inner.get())?;
            let made = negated(inner)?;
            Ok(made)
        }
        Term::Not(inner) => {
            let inner = value(reads, noted, names, inner.get())?;
            Ok(Value::Truth(!truth(inner)))
        }
        Term::Chain(first, more) => {
            let first = value(reads, noted, names, first.get())?;
            let made = chain_value(reads, noted, names, first, more.as_slice())?;
            Ok(made)
        }
    }
}

// What the reads find, or else the value behind the last `or`.
#[cycle(valuing)]
#[tactic(auto, unfolding(crate::specs::Meaning::meaning))]
fn value_or<R: Reads>(
    reads: &R,
    noted: &mut Items<Key>,
    names: &[Value],
    finds: &[FindTerm],
    last: &Term,
) -> Result<Value, Stop>
    ensures { Goes (run (R.answers reads.now) (spec.reads_meaning (R.sight reads.now) finds.now last.now names.now) noted.old) result noted.new }
{
    match first_found(reads, noted, finds)? {
        Some(found) => Ok(found),
        None => {
            let made = value(reads, noted, names, last)?;
            Ok(made)
        }
    }
}

// Operators with their right operands, behind the value on their left.
#[cycle(valuing)]
#[tactic(auto, unfolding(crate::specs::Meaning::meaning))]
fn chain_value<R: Reads>(
    reads: &R,
    noted: &mut Items<Key>,
    names: &[Value],
    first: Value,
    more: &[Linked<Term>],
) -> Result<Value, Stop>
    ensures { Goes (run (R.answers reads.now) (spec.chain_meaning (R.sight reads.now) more.now names.now first) noted.old) result noted.new }
{
    let mut left = first;
    for link in more {
        left = with_right(reads, noted, names, left, link.op, &link.right)?;
    }
    Ok(left)
}

// One operator with its right operand, which isn't evaluated where the left one alone decides.
#[cycle(valuing)]
#[tactic(auto, unfolding(crate::specs::Meaning::meaning))]
fn with_right<R: Reads>(
    reads: &R,
    noted: &mut Items<Key>,
    names: &[Value],
    left: Value,
    op: Op,
    right: &Term,
) -> Result<Value, Stop>
    ensures { Goes (run (R.answers reads.now) (spec.with_right op (spec.meaning (R.sight reads.now) right.now names.now) left) noted.old) result noted.new }
{
    if left_decides(op, left) {
        return Ok(left);
    }
    let right = value(reads, noted, names, right)?;
    let made = applied(op, left, right)?;
    Ok(made)
}

// What the first of the reads finds that finds anything. Those behind it aren't evaluated.
fn first_found<R: Reads>(
    reads: &R,
    noted: &mut Items<Key>,
    finds: &[FindTerm],
) -> Result<Option<Value>, Stop>
    ensures { Goes (run (R.answers reads.now) (spec.first_found (R.sight reads.now) finds.now) noted.old) result noted.new }
{
    for find in finds {
        if let Some(found) = reads.find(noted, find)? {
            return Ok(Some(found));
        }
    }
    Ok(None)
}

// The value of the visible name at a place.
fn name_at(names: &[Value], at: usize) -> Value
    ensures { result ≡ spec.name_at names.now at }
{
    match names.get(at) {
        Some(value) => *value,
        None => NO_VALUE,
    }
}
