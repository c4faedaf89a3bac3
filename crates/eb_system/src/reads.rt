// What the reads of a system find.
ghost use Rattle.std.specs.Prelude.{◌≡◌, ℤ, List, IfOk};
ghost use Rattle.eb_eval.specs.Sums as sums;
ghost use Rattle.eb_eval.specs.declared.sums.Extreme.TheVariants.{Greatest};
ghost use Rattle.eb_meaning.specs.Asks.{Goes, run};
ghost use Rattle.eb_system.specs.Sights as spec;
ghost use Rattle.eb_system.specs.Totals.{total_of};

use crate::before::Before;
use crate::totals::Total;
use crate::values::{found_in, held, own_value};
use crate::wanted::{counted, field_of};
use eb_base::{Items, Memory, Name};
use eb_eval::fields::value_as;
use eb_meaning::operators::NO_VALUE;
use eb_meaning::{Link, Reads, RunFault, Stop, Value};
use eb_rules::{ComponentField, FindTerm, ReadTerm};
use eb_scene::Key;
use eb_schema::{Kind, Row, Val};

/// The reads of a system on one entity. They look at the entities as they were before the system, and at no key.
#[derive(Drop)]
pub struct SystemReads<'a, 'b> {
    /// All entities.
    pub before: &'a Before<'b>,
    /// The name of the entity.
    pub name: Name,
    /// Its row.
    pub row: &'a Row,
}

/// The sum of a field, or `Overflow` where it doesn't lie in `i64`.
fn sum_value(kind: Kind, total: Total) -> Result<Value, RunFault>
    ensures { (zs : List ℤ) → total ≡ total_of zs → result ≡ sums.sum_value kind zs }
{
    match i64::try_from(total.sum) {
        Ok(sum) => Ok(value_as(kind, sum)),
        Err(_) => Err(RunFault::Overflow),
    }
}

/// How many there are. There is memory for far fewer entities than `i64` has numbers.
fn count_value(total: Total) -> Result<Value, Memory>
    ensures { (zs : List ℤ) → total ≡ total_of zs → IfOk result (λ value. value ≡ sums.count_value zs) }
{
    match i64::try_from(total.count) {
        Ok(count) => Ok(Value::Int(count)),
        Err(_) => Err(Memory),
    }
}

/// The greatest, if there is one.
fn greatest_value(kind: Kind, total: Total) -> Option<Value>
    ensures { (zs : List ℤ) → total ≡ total_of zs → result ≡ sums.best_value Greatest kind zs }
{
    match total.greatest {
        Some(number) => Some(value_as(kind, number)),
        None => None,
    }
}

impl<'a, 'b> SystemReads<'a, 'b> {
    /// A field of the entity that a field of this one refers to.
    fn found_at(&self, reference: &ComponentField, field: &ComponentField) -> Option<Value>
        ensures { result ≡ spec.found_at self.now.before.now self.now.row.now reference.now field.now }
    {
        match held(self.row, reference) {
            Some(Val::To(name)) => match self.before.row(&name) {
                Some(row) => found_in(row, field),
                None => None,
            },
            _ => None,
        }
    }
}

impl<'a, 'b> Reads for SystemReads<'a, 'b> {
    ghost use Rattle.eb_system.specs.Sights.{system_sight};
    ghost use Rattle.eb_system.specs.Stages.{no_answers};

    ghost answers = { λ _. no_answers };

    ghost sight = { λ s. system_sight s.before.now s.name s.row.now };

    fn read(&self, _noted: &mut Items<Key>, term: &ReadTerm) -> Result<Value, Stop> {
        match term {
            ReadTerm::Field(field) => Ok(own_value(self.row, field)),
            ReadTerm::SumAll(x) => {
                let total = self.before.total(self.name.scene, &field_of(x))?;
                let sum = sum_value(x.field.kind, total)?;
                Ok(sum)
            }
            ReadTerm::CountAll(kind) => {
                let total = self.before.total(self.name.scene, &counted(*kind))?;
                let count = count_value(total)?;
                Ok(count)
            }
            ReadTerm::Entity => Ok(Value::Link(Link::To(self.name))),
            ReadTerm::This(_)
            | ReadTerm::Sum(_, _)
            | ReadTerm::Count(_, _)
            | ReadTerm::EntityAt(_) => Ok(NO_VALUE),
        }
    }

    fn find(&self, _noted: &mut Items<Key>, term: &FindTerm) -> Result<Option<Value>, Stop> {
        match term {
            FindTerm::At(reference, field) => Ok(self.found_at(reference, field)),
            FindTerm::MaxAll(x) => {
                let total = self.before.total(self.name.scene, &field_of(x))?;
                Ok(greatest_value(x.field.kind, total))
            }
            FindTerm::Own(_)
            | FindTerm::Parent(_)
            | FindTerm::Asset(_, _)
            | FindTerm::Min(_, _)
            | FindTerm::Max(_, _) => Ok(None),
        }
    }

    fn extra(&self, _number: usize) -> Value {
        Value::Link(Link::Null)
    }
}
