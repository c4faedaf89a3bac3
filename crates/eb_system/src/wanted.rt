// Which totals the statements of a system ask after.
ghost use Rattle.std.specs.Prelude.{◌≡◌, ◌++◌, IfOk, OnOk, flat_map};
ghost use Rattle.eb_system.specs.Wanted as spec;

use eb_base::{Items, Memory, TypeNo};
use eb_rule_text::Link;
use eb_rules::{Addition, ComponentField, FindTerm, ReadTerm, Step, Term};
use std::alloc::Global;

/// A field that is summed over the entities of a scene. Where entities are counted, it is the first of their type.
#[derive(Clone, Copy, PartialEq, Eq, PartialOrd, Ord)]
pub struct Summed {
    /// The component type.
    pub kind: TypeNo,
    /// How many fields of the type stand before it.
    pub place: usize,
}

/// The field of a read.
pub fn field_of(x: &ComponentField) -> Summed
    ensures { result ≡ spec.summed x.now.kind x.now.field.place }
{
    Summed {
        kind: x.kind,
        place: x.field.place,
    }
}

/// The first field of a type.
pub fn counted(kind: TypeNo) -> Summed
    ensures { result ≡ spec.summed kind 0 }
{
    Summed { kind, place: 0 }
}

fn read_wants(out: &mut Items<Summed>, term: &ReadTerm) -> Result<(), Memory>
    ensures { OnOk result (out.new ≡ out.old ++ spec.of_read term.now) }
{
    match term {
        ReadTerm::SumAll(x) => {
            out.push(field_of(x))?;
            Ok(())
        }
        ReadTerm::CountAll(kind) => {
            out.push(counted(*kind))?;
            Ok(())
        }
        ReadTerm::This(_)
        | ReadTerm::Field(_)
        | ReadTerm::Sum(_, _)
        | ReadTerm::Count(_, _)
        | ReadTerm::Entity
        | ReadTerm::EntityAt(_) => Ok(()),
    }
}

fn find_wants(out: &mut Items<Summed>, term: &FindTerm) -> Result<(), Memory>
    ensures { OnOk result (out.new ≡ out.old ++ spec.of_find term.now) }
{
    match term {
        FindTerm::MaxAll(x) => {
            out.push(field_of(x))?;
            Ok(())
        }
        FindTerm::Own(_)
        | FindTerm::Parent(_)
        | FindTerm::Asset(_, _)
        | FindTerm::Min(_, _)
        | FindTerm::Max(_, _)
        | FindTerm::At(_, _) => Ok(()),
    }
}

fn finds_want(out: &mut Items<Summed>, terms: &[FindTerm]) -> Result<(), Memory>
    ensures { OnOk result (out.new ≡ out.old ++ flat_map spec.of_find terms.now) }
{
    for term in terms {
        find_wants(out, term)?;
    }
    Ok(())
}

#[cycle(wanting)]
#[tactic(auto, unfolding(crate::specs::Wanted::term_wants))]
fn term_wants(out: &mut Items<Summed>, term: &Term) -> Result<(), Memory>
    ensures { OnOk result (out.new ≡ out.old ++ spec.term_wants term.now) }
{
    match term {
        Term::Int(_) | Term::Fix(_) | Term::True | Term::False | Term::Null | Term::Name(_) => {
            Ok(())
        }
        Term::ToFix(inner) | Term::ToInt(inner) | Term::Negate(inner) | Term::Not(inner) => {
            term_wants(out, inner.get())?;
            Ok(())
        }
        Term::Read(read) => {
            read_wants(out, read)?;
            Ok(())
        }
        Term::Find(finds, last) => {
            finds_want(out, finds.as_slice())?;
            term_wants(out, last.get())?;
            Ok(())
        }
        Term::Chain(first, more) => {
            term_wants(out, first.get())?;
            links_want(out, more.as_slice())?;
            Ok(())
        }
    }
}

#[cycle(wanting)]
#[tactic(auto, unfolding(crate::specs::Wanted::term_wants))]
fn links_want(out: &mut Items<Summed>, links: &[Link<Term>]) -> Result<(), Memory>
    ensures { OnOk result (out.new ≡ out.old ++ spec.links_wants links.now) }
{
    for link in links {
        term_wants(out, &link.right)?;
    }
    Ok(())
}

fn addition_wants(out: &mut Items<Summed>, addition: &Addition) -> Result<(), Memory>
    ensures { OnOk result (out.new ≡ out.old ++ spec.addition_wants addition.now) }
{
    for filling in addition.values.as_slice() {
        term_wants(out, &filling.value)?;
    }
    Ok(())
}

fn additions_want(out: &mut Items<Summed>, additions: &[Addition]) -> Result<(), Memory>
    ensures { OnOk result (out.new ≡ out.old ++ flat_map spec.addition_wants additions.now) }
{
    for addition in additions {
        addition_wants(out, addition)?;
    }
    Ok(())
}

#[cycle(gathering)]
#[tactic(auto, unfolding(crate::specs::Wanted::step_wants))]
fn step_wants(out: &mut Items<Summed>, step: &Step) -> Result<(), Memory>
    ensures { OnOk result (out.new ≡ out.old ++ spec.step_wants step.now) }
{
    match step {
        Step::Let(term) => {
            term_wants(out, term)?;
            Ok(())
        }
        Step::Add(addition) => {
            addition_wants(out, addition)?;
            Ok(())
        }
        Step::Extra(_, additions) => {
            additions_want(out, additions.as_slice())?;
            Ok(())
        }
        Step::If(test, body, other) => {
            term_wants(out, test)?;
            steps_want(out, body.as_slice())?;
            steps_want(out, other.as_slice())?;
            Ok(())
        }
    }
}

#[cycle(gathering)]
#[tactic(auto, unfolding(crate::specs::Wanted::step_wants))]
fn steps_want(out: &mut Items<Summed>, body: &[Step]) -> Result<(), Memory>
    ensures { OnOk result (out.new ≡ out.old ++ spec.body_wants body.now) }
{
    for step in body {
        step_wants(out, step)?;
    }
    Ok(())
}

/// The fields of which the statements ask a total, in the order of the text.
pub fn body_wants(alloc: Global, body: &[Step]) -> Result<Items<Summed>, Memory>
    ensures { IfOk result (λ wanted. wanted ≡ spec.body_wants body.now) }
{
    let mut wanted = Items::new(alloc);
    steps_want(&mut wanted, body)?;
    Ok(wanted)
}
