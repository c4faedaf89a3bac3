// Values as the fields of a component hold them. `docs/rules.md`, "Types" and "Meaning".
ghost use Rattle.std.specs.Prelude.{◌≡◌, ◌↔◌, IsTrue};
ghost use Rattle.eb_schema.specs.Slots.{Fits};
ghost use Rattle.eb_schema.specs.declared.slots.Slot.TheVariants as slot;
ghost use Rattle.eb_meaning.specs.Fields as spec;

use crate::values::{Link, RunFault, Value};
use eb_schema::{Kind, Val};

/// Whether a number lies in the range of a kind, which is that of a field in a block. Takes no memory.
pub fn in_range(kind: Kind, number: i64) -> bool
    ensures value { result ≡ spec.in_range kind number }
    ensures fits { IsTrue result ↔ Fits kind (slot.Num number) }
{
    match kind {
        Kind::I8 => number >= -128 && number <= 127,
        Kind::I16 => number >= -32768 && number <= 32767,
        Kind::I32 => number >= -2147483648 && number <= 2147483647,
        Kind::I64 | Kind::Fix => true,
        Kind::Ref => false,
        Kind::Asset => number == 0,
    }
}

fn number_in(kind: Kind, number: i64) -> Result<Val, RunFault>
    ensures { result ≡ spec.unless_out (spec.in_range kind number) number }
{
    if in_range(kind, number) {
        Ok(Val::Num(number))
    } else {
        Err(RunFault::Range)
    }
}

fn linked(link: Link) -> Val
    ensures { result ≡ spec.linked link }
{
    match link {
        Link::Null => Val::Null,
        Link::Gone => Val::Gone,
        Link::To(name) => Val::To(name),
        Link::Created(_) => Val::Null,
    }
}

/// A value in a field of a kind, or the fault `Range`. Takes no memory.
pub fn tested(kind: Kind, value: Value) -> Result<Val, RunFault>
    ensures { result ≡ spec.tested kind value }
{
    match value {
        Value::Int(number) => number_in(kind, number),
        Value::Fix(units) => number_in(kind, units),
        Value::Truth(_) => Ok(Val::Num(0)),
        Value::Link(link) => Ok(linked(link)),
    }
}
