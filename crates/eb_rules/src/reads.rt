// Names and types of reads that always have a value, and of visible names.
ghost use Rattle.std.specs.Prelude.{◌≡◌};
ghost use Rattle.eb_rules.specs.Scopes.{as_entity, as_value, place_of};
ghost use Rattle.eb_rules.specs.Typing as spec;
ghost use Rattle.eb_rule_text.specs.Counts as counts;

use crate::faults::{Refusal, RuleKind};
use crate::fields::{asked, authored, field_in, find_bound, known, of_component, past, required};
use crate::plans::{ReadTerm, Term};
use crate::scopes::{Scope, as_entity, as_value};
use crate::shapes::{Shape, read_shape};
use crate::typing::{Resolved, typed_as};
use eb_base::Text;
use eb_rule_text::Read;

// A read whose names are known, or the fault of the whole read.
fn whole_read(read: ReadTerm, places: &[usize]) -> Result<Resolved, Refusal>
    ensures { result ≡ spec.whole_read read places.now }
{
    let shape = required(RuleKind::TypeFault, read_shape(&read), places)?;
    Ok(typed_as(Term::Read(read), shape))
}

// That a name is that of a `let`.
fn is_value(scope: &Scope<'_, '_>, name: &Text, places: &[usize]) -> Result<Shape, Refusal>
    ensures { result ≡ spec.visible as_value scope.now name.now places.now }
{
    let bound = known(find_bound(name.bytes(), scope.known), places)?;
    let shape = required(RuleKind::TypeFault, as_value(bound), places)?;
    Ok(shape)
}

/// That a name is that of an extra or of a created entity.
pub fn is_entity(scope: &Scope<'_, '_>, name: &Text, places: &[usize]) -> Result<Shape, Refusal>
    ensures { result ≡ spec.visible as_entity scope.now name.now places.now }
{
    let bound = known(find_bound(name.bytes(), scope.known), places)?;
    let shape = required(RuleKind::TypeFault, as_entity(bound), places)?;
    Ok(shape)
}

fn named(scope: &Scope<'_, '_>, name: &Text, shape: Shape) -> Resolved
    ensures { result ≡ spec.typed_as (Term.Name (place_of name.now scope.now.known)) shape }
{
    typed_as(Term::Name(scope.known.place(name.bytes())), shape)
}

/// A name as a value.
pub fn name_typed(scope: &Scope<'_, '_>, name: &Text, places: &[usize]) -> Result<Resolved, Refusal>
    ensures { result ≡ spec.name_typed as_value scope.now name.now places.now }
{
    let shape = is_value(scope, name, places)?;
    Ok(named(scope, name, shape))
}

// A name in the place of an entity.
fn entity_typed(scope: &Scope<'_, '_>, name: &Text, places: &[usize]) -> Result<Resolved, Refusal>
    ensures { result ≡ spec.name_typed as_entity scope.now name.now places.now }
{
    let shape = is_entity(scope, name, places)?;
    Ok(named(scope, name, shape))
}

/// A read that always has a value: its names in the order of the text, and then the whole.
pub fn read_walk(scope: &Scope<'_, '_>, read: &Read, places: &[usize]) -> Result<Resolved, Refusal>
    ensures { result ≡ spec.read_walk scope.now read.now places.now }
{
    match read {
        Read::This(field) => {
            let field = known(field_in(field, scope.own), past(places, 2))?;
            whole_read(ReadTerm::This(field), places)
        }
        Read::Field(path) => {
            let field = asked(scope, path, past(places, 2), past(places, 4))?;
            whole_read(ReadTerm::Field(field), places)
        }
        Read::Sum(over, path) => {
            let field = authored(scope, path, past(places, 3), past(places, 6))?;
            whole_read(ReadTerm::Sum(*over, field), places)
        }
        Read::Count(over, kind) => {
            let number = known(scope.schema.authoring_named(kind.bytes()), past(places, 3))?;
            whole_read(ReadTerm::Count(*over, number), places)
        }
        Read::SumAll(path) => {
            let field = of_component(scope, path, past(places, 3), past(places, 5))?;
            whole_read(ReadTerm::SumAll(field), places)
        }
        Read::CountAll(kind) => {
            let number = known(scope.schema.component_named(kind.bytes()), past(places, 3))?;
            whole_read(ReadTerm::CountAll(number), places)
        }
        Read::Entity => whole_read(ReadTerm::Entity, places),
        Read::EntityAt(field) => {
            let field = known(field_in(field, scope.own), past(places, 4))?;
            whole_read(ReadTerm::EntityAt(field), places)
        }
        Read::EntityOf(name) => entity_typed(scope, name, past(places, 2)),
    }
}

/// How many tokens it has.
pub fn read_tokens(read: &Read) -> usize
    ensures { result ≡ counts.read_tokens read.now }
{
    match read {
        Read::This(_) => 3,
        Read::Field(_) => 5,
        Read::Sum(_, _) => 7,
        Read::Count(_, _) => 5,
        Read::SumAll(_) => 7,
        Read::CountAll(_) => 5,
        Read::Entity => 4,
        Read::EntityAt(_) => 6,
        Read::EntityOf(_) => 4,
    }
}
