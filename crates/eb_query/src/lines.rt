// The text of one entity, written straight into a list of bytes.
ghost use Rattle.std.specs.Prelude.{◌≡◌, ◌+◌, [], ◌∷◌, ◌++◌, decimal, flat_map, OnOk, Some};
ghost use Rattle.std.specs.Fmt.{signed_decimal};
ghost use Rattle.eb_base.specs.FixedPoint.{fixed_text};
ghost use Rattle.eb_base.specs.Names.{name_text};
ghost use Rattle.eb_query.specs.EntityText.{cell_text, component_text, entity_line, field_text, fields_text, more_fields, number_text, tag_text, value_text};

use eb_base::{Memory, Name, Tag, fraction_write};
use eb_schema::{Field, Kind, Val};
use itoa::Buffer;

/// Adds a number in decimal.
fn put_decimal(out: &mut Vec<u8>, number: u32) -> Result<(), Memory>
    ensures { OnOk result (out.new.items ≡ out.old.items ++ decimal number) }
{
    let mut buffer = Buffer::new();
    out.extend_from_slice(buffer.format(number).as_bytes())?;
    Ok(())
}

/// Adds a number in decimal, with its sign.
fn put_signed(out: &mut Vec<u8>, number: i64) -> Result<(), Memory>
    ensures { OnOk result (out.new.items ≡ out.old.items ++ signed_decimal number) }
{
    let mut buffer = Buffer::new();
    out.extend_from_slice(buffer.format(number).as_bytes())?;
    Ok(())
}

/// Adds the digits of a number before the point.
fn put_whole(out: &mut Vec<u8>, number: u64) -> Result<(), Memory>
    ensures { OnOk result (out.new.items ≡ out.old.items ++ decimal number) }
{
    let mut buffer = Buffer::new();
    out.extend_from_slice(buffer.format(number).as_bytes())?;
    Ok(())
}

/// Adds a number of units as fixed text.
fn put_fixed(out: &mut Vec<u8>, units: i64) -> Result<(), Memory>
    ensures { OnOk result (out.new.items ≡ out.old.items ++ fixed_text units) }
{
    let size = units.unsigned_abs();
    if units < 0 {
        out.push(b'-')?;
    }
    put_whole(out, size / 65536)?;
    fraction_write(out, (size % 65536) as u32)?;
    Ok(())
}

/// Adds the number of a field.
fn put_number(out: &mut Vec<u8>, kind: Kind, number: i64) -> Result<(), Memory>
    ensures { OnOk result (out.new.items ≡ out.old.items ++ number_text kind number) }
{
    match kind {
        Kind::Fix => put_fixed(out, number)?,
        Kind::I8 => put_signed(out, number)?,
        Kind::I16 => put_signed(out, number)?,
        Kind::I32 => put_signed(out, number)?,
        Kind::I64 => put_signed(out, number)?,
        Kind::Ref => put_signed(out, number)?,
        Kind::Asset => put_signed(out, number)?,
    }
    Ok(())
}

/// Adds the name of an entity.
pub fn put_name(out: &mut Vec<u8>, name: Name) -> Result<(), Memory>
    ensures { OnOk result (out.new.items ≡ out.old.items ++ name_text name) }
{
    put_decimal(out, name.play)?;
    out.push(b'.')?;
    put_decimal(out, name.scene)?;
    out.push(b'.')?;
    put_decimal(out, name.object)?;
    out.push(b'.')?;
    put_decimal(out, name.extra)?;
    Ok(())
}

/// Adds the section of an entity.
pub fn put_tag(out: &mut Vec<u8>, tag: Tag) -> Result<(), Memory>
    ensures { OnOk result (out.new.items ≡ out.old.items ++ tag_text tag) }
{
    match tag {
        Some(place) => {
            put_decimal(out, place.scene as u32)?;
            out.push(b':')?;
            put_decimal(out, place.section as u32)?;
        }
        None => out.push(b'-')?,
    }
    Ok(())
}

/// Adds a value of a field.
fn put_value(out: &mut Vec<u8>, kind: Kind, value: Val) -> Result<(), Memory>
    ensures { OnOk result (out.new.items ≡ out.old.items ++ value_text kind value) }
{
    match value {
        Val::Num(number) => put_number(out, kind, number)?,
        Val::To(name) => put_name(out, name)?,
        Val::Null => out.extend_from_slice(b"null")?,
        Val::Gone => out.extend_from_slice(b"gone")?,
    }
    Ok(())
}

/// Adds a field with its value.
pub fn put_field(out: &mut Vec<u8>, field: &Field, value: Val) -> Result<(), Memory>
    ensures { OnOk result (out.new.items ≡ out.old.items ++ field_text field.now value) }
{
    out.extend_from_slice(field.name.bytes())?;
    out.push(b'=')?;
    put_value(out, field.kind, value)?;
    Ok(())
}
