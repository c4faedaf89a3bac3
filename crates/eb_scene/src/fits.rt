// Which values fit which fields.
ghost use Rattle.std.specs.Prelude.{◌≡◌, cond, not, pos, ℤ, Some, None};
ghost use Rattle.std.specs.List.{list_any};
ghost use Rattle.eb_scene.specs.declared.objects.Given.TheVariants as given;
ghost use Rattle.eb_schema.specs.declared.kinds.Kind.TheVariants.{Fix};
ghost use Rattle.eb_scene.specs.Fits.{lies, is_number, size, whole, units, nothing, fitting, blank, written, value_of, values_from, has_field, fitted, place_from, field_fitted, Gives};

use crate::edits::{EditFault, Raw, RawField};
use crate::objects::Given;
use eb_base::{Calc, Items};
use eb_schema::{Field, Kind};
use std::alloc::Global;

/// A number from `least` to `most`.
fn in_range(least: i64, most: i64, value: i64) -> Option<Given>
    ensures { result ≡ cond (lies least most value) (Some (given.Num value)) None }
{
    if value >= least && value <= most {
        Some(Given::Num(value))
    } else {
        None
    }
}

/// The number of an object or an asset.
fn number_of(value: i64) -> Option<u32>
    ensures { result ≡ cond (is_number value) (Some (size value)) None }
{
    if value >= 1 && value <= 4294967295 {
        Some(value as u32)
    } else {
        None
    }
}

/// A whole number in a fixed-point field.
fn in_units(value: i64) -> Option<Given>
    ensures { result ≡ whole Fix value }
{
    match Calc::mul(value, 65536) {
        Ok(units) => Some(Given::Num(units)),
        Err(_) => None,
    }
}

/// A whole number in a field of a kind.
fn whole(kind: Kind, value: i64) -> Option<Given>
    ensures { result ≡ whole kind value }
{
    match kind {
        Kind::I8 => in_range(-128, 127, value),
        Kind::I16 => in_range(-32768, 32767, value),
        Kind::I32 => in_range(-2147483648, 2147483647, value),
        Kind::I64 => Some(Given::Num(value)),
        Kind::Fix => in_units(value),
        Kind::Ref => match number_of(value) {
            Some(number) => Some(Given::Object(number)),
            None => None,
        },
        Kind::Asset => match number_of(value) {
            Some(number) => Some(Given::Asset(number)),
            None => None,
        },
    }
}

/// Fixed units in a field of a kind.
fn units(kind: Kind, value: i64) -> Option<Given>
    ensures { result ≡ units kind value }
{
    match kind {
        Kind::Fix => Some(Given::Num(value)),
        Kind::I8 | Kind::I16 | Kind::I32 | Kind::I64 | Kind::Ref | Kind::Asset => None,
    }
}

/// Null in a field of a kind.
fn nothing(kind: Kind) -> Option<Given>
    ensures { result ≡ nothing kind }
{
    match kind {
        Kind::Ref | Kind::Asset => Some(Given::Null),
        Kind::I8 | Kind::I16 | Kind::I32 | Kind::I64 | Kind::Fix => None,
    }
}

/// A value in a field of a kind; none where it doesn't fit.
pub fn fitting(kind: Kind, raw: Raw) -> Option<Given>
    ensures { result ≡ fitting kind raw }
{
    match raw {
        Raw::Int(value) => whole(kind, value),
        Raw::Units(value) => units(kind, value),
        Raw::Null => nothing(kind),
    }
}

/// The value of a field that isn't named.
fn blank(kind: Kind) -> Given
    ensures { result ≡ blank kind }
{
    match kind {
        Kind::Ref | Kind::Asset => Given::Null,
        Kind::I8 | Kind::I16 | Kind::I32 | Kind::I64 | Kind::Fix => Given::Num(0),
    }
}

/// The value that is written for a name, the first one.
fn written(raws: &[RawField], name: &[u8]) -> Option<Raw>
    ensures { result ≡ written raws.now name.now }
{
    for raw in raws {
        if name == raw.name.bytes() {
            return Some(raw.value);
        }
    }
    None
}

/// The value of a field for which this is written.
fn value_of(kind: Kind, raw: Option<Raw>) -> Option<Given>
    ensures { result ≡ value_of kind raw }
{
    match raw {
        Some(raw) => fitting(kind, raw),
        None => Some(blank(kind)),
    }
}

/// Whether a field has the name.
fn has_field(fields: &[Field], name: &[u8]) -> bool
    ensures { result ≡ has_field fields.now name.now }
{
    for field in fields {
        if name == field.name.bytes() {
            return true;
        }
    }
    false
}

/// Whether a name is written that no field has.
fn has_unknown(fields: &[Field], raws: &[RawField]) -> bool
    ensures { result ≡ list_any (λ r. not (has_field fields.now r.name)) raws.now }
{
    for raw in raws {
        if !has_field(fields, raw.name.bytes()) {
            return true;
        }
    }
    false
}

/// The values of all fields, or the refusal of the first one that its value doesn't fit.
fn values(alloc: Global, fields: &[Field], raws: &[RawField]) -> Result<Items<Given>, EditFault>
    ensures { Gives result (values_from 0 fields.now raws.now) }
{
    let mut values = Items::new(alloc);
    let mut index = 0;
    for field in fields {
        match value_of(field.kind, written(raws, field.name.bytes())) {
            Some(value) => values.push(value)?,
            None => return Err(EditFault::BadValue { index }),
        }
        index += 1;
    }
    Ok(values)
}

/// The values of all fields. `NoField` comes where a name is written that no field has, and then `BadValue` with the
/// place of the first field that its value doesn't fit.
pub fn fitted(alloc: Global, fields: &[Field], raws: &[RawField]) -> Result<Items<Given>, EditFault>
    ensures { Gives result (fitted fields.now raws.now) }
{
    if has_unknown(fields, raws) {
        return Err(EditFault::NoField);
    }
    let values = values(alloc, fields, raws)?;
    Ok(values)
}

/// The place and the kind of the field of a name.
fn place_of(fields: &[Field], name: &[u8]) -> Option<(usize, Kind)>
    ensures place { result ≡ place_from 0 fields.now name.now }
{
    let mut index = 0;
    for field in fields {
        if name == field.name.bytes() {
            return Some((index, field.kind));
        }
        index += 1;
    }
    None
}

/// The place of the field of a name, and its value. `NoField` comes where there is none, and then `BadValue` where
/// the value doesn't fit.
pub fn field_fitted(fields: &[Field], name: &[u8], raw: Raw) -> Result<(usize, Given), EditFault>
    ensures { result ≡ field_fitted fields.now name.now raw }
{
    match place_of(fields, name) {
        Some((index, kind)) => match fitting(kind, raw) {
            Some(value) => Ok((index, value)),
            None => Err(EditFault::BadValue { index }),
        },
        None => Err(EditFault::NoField),
    }
}
