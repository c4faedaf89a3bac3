// The spelling of an image as the bytes of a section file.
ghost use Rattle.std.specs.Prelude.{◌≡◌, ◌<◌, ◌≤◌, ◌++◌, length, All, flat_map, Some, IfOk, OnOk};
ghost use Rattle.eb_file.specs.declared.images.Stored.TheVariants as stored;
ghost use Rattle.eb_file.specs.Images.{IsValid, IsPlain, names_of};
ghost use Rattle.eb_file.specs.Plain.{HasNumber, HoldsNumbers, field_count, number_archetype, number_bytes, number_column, number_columns, number_text};
ghost use Rattle.eb_file.specs.Spelling.{Spells, header, name_bytes, spelling, value_at};

use crate::images::{Image, ImageRow, Stored};
use eb_base::{Memory, Name, Place, TypeNo};
use eb_schema::Schema;
use std::alloc::Global;

/// The bytes before the archetypes.
const HEADER_BYTES: usize = 20;
/// The bytes of an archetype with one type, before the names of its rows.
const ARCHETYPE_BYTES: usize = 6;
/// The bytes of a row's name.
const NAME_BYTES: usize = 8;
/// The bytes of a row's number at a field.
const NUMBER_BYTES: usize = 8;

/// The bytes of the section file that holds the image: its one spelling. The only error is want of
/// memory, which is asked for once. Takes time and memory in proportion to the rows times their fields,
/// 8 bytes for each name and each value. The bytes are described in `docs/section-file.md`.
#[tactic(auto, using(crate::proofs::PlainImages::each_holds_numbers, crate::proofs::Written::spelled, crate::proofs::Written::spells))]
pub fn encode(alloc: Global, schema: &Schema, image: &Image) -> Result<Vec<u8>, Memory>
    requires valid { IsValid schema.now image.now }
    requires plain { IsPlain schema.now image.now }
    ensures bytes { IfOk result (λ v. v.items ≡ spelling schema.now image.now) }
    ensures spells { IfOk result (λ v. Spells schema.now v.items image.now) }
{
    let rows = image.rows.items();
    let fields = fields_of_first(schema);
    let mut out = Vec::with_capacity(
        alloc,
        HEADER_BYTES + ARCHETYPE_BYTES + rows.len() * (NAME_BYTES + NUMBER_BYTES * fields),
    )?;
    put_text(&mut out, image.place, fields, rows)?;
    Ok(out)
}

/// How many fields type 1 has.
fn fields_of_first(schema: &Schema) -> usize
    ensures count { result ≡ field_count schema.now }
    ensures few { result ≤ 16 }
{
    for component in schema.components() {
        if component.number == TypeNo::FIRST {
            return component.fields.len();
        }
    }
    0
}

/// Adds the file of rows that have so many numbers each.
fn put_text(out: &mut Vec<u8>, place: Place, fields: usize, rows: &[ImageRow]) -> Result<(), Memory>
    requires count { length rows.now ≤ 65536 }
    requires numbers { All (HoldsNumbers fields) rows.now }
    ensures { OnOk result (out.new.items ≡ out.old.items ++ number_text place fields rows.now) }
{
    if rows.is_empty() {
        put_header(out, place, 0, 0)?;
        return Ok(());
    }
    put_header(out, place, 1, rows.len() as u32)?;
    put_archetype(out, fields, rows)?;
    Ok(())
}

/// Adds the header of a file without externals.
fn put_header(out: &mut Vec<u8>, place: Place, archetypes: u32, rows: u32) -> Result<(), Memory>
    ensures { OnOk result (out.new.items ≡ out.old.items ++ header place archetypes rows 0) }
{
    out.extend_from_slice(b"EBSF")?;
    out.extend_from_slice(&1u16.to_le_bytes())?;
    out.extend_from_slice(&[place.scene, place.section])?;
    out.extend_from_slice(&archetypes.to_le_bytes())?;
    out.extend_from_slice(&rows.to_le_bytes())?;
    out.extend_from_slice(&0u32.to_le_bytes())?;
    Ok(())
}

/// Adds the archetype of type 1 alone, with all the rows.
fn put_archetype(out: &mut Vec<u8>, fields: usize, rows: &[ImageRow]) -> Result<(), Memory>
    requires count { length rows.now ≤ 65536 }
    requires numbers { All (HoldsNumbers fields) rows.now }
    ensures { OnOk result (out.new.items ≡ out.old.items ++ number_archetype fields rows.now) }
{
    // One type, of number 1.
    out.extend_from_slice(&[1, 1])?;
    out.extend_from_slice(&(rows.len() as u32).to_le_bytes())?;
    put_names(out, rows)?;
    put_columns(out, fields, rows)?;
    Ok(())
}

fn put_names(out: &mut Vec<u8>, rows: &[ImageRow]) -> Result<(), Memory>
    ensures { OnOk result (out.new.items ≡ out.old.items ++ flat_map name_bytes (names_of rows.now)) }
{
    for row in rows {
        put_name(out, row.name)?;
    }
    Ok(())
}

fn put_name(out: &mut Vec<u8>, name: Name) -> Result<(), Memory>
    ensures { OnOk result (out.new.items ≡ out.old.items ++ name_bytes name) }
{
    out.extend_from_slice(&name.object.to_le_bytes())?;
    out.extend_from_slice(&name.extra.to_le_bytes())?;
    Ok(())
}

/// Adds the values field by field: all rows' first ones, then all rows' second ones, and so on.
fn put_columns(out: &mut Vec<u8>, fields: usize, rows: &[ImageRow]) -> Result<(), Memory>
    requires { All (HoldsNumbers fields) rows.now }
    ensures { OnOk result (out.new.items ≡ out.old.items ++ number_columns rows.now 0 fields) }
{
    for field in 0..fields {
        put_column(out, field, rows)?;
    }
    Ok(())
}

/// Adds the values of one field, row by row.
fn put_column(out: &mut Vec<u8>, field: usize, rows: &[ImageRow]) -> Result<(), Memory>
    requires { All (HasNumber field) rows.now }
    ensures { OnOk result (out.new.items ≡ out.old.items ++ number_column rows.now field) }
{
    for row in rows {
        put_number(out, field, row)?;
    }
    Ok(())
}

fn put_number(out: &mut Vec<u8>, field: usize, row: &ImageRow) -> Result<(), Memory>
    requires { HasNumber field row.now }
    ensures { OnOk result (out.new.items ≡ out.old.items ++ number_bytes field row.now) }
{
    out.extend_from_slice(&number_at(field, row).to_le_bytes())?;
    Ok(())
}

/// The number of a row at a field.
fn number_at(field: usize, row: &ImageRow) -> i64
    requires { HasNumber field row.now }
    ensures { value_at 1 field row.now ≡ Some (stored.Num result) }
{
    let [cell] = row.cells.items() else {
        unreachable!()
    };
    let Stored::Num(number) = cell.values.items()[field] else {
        unreachable!()
    };
    number
}
