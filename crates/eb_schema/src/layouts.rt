// How the rows of a set of types lie in a block: one column after the other.
ghost use Rattle.std.specs.Prelude.{◌≡◌, ◌+◌, ◌*◌, ◌≤◌, ◌<◌, ◌++◌, length, IfOk, OnOk};
ghost use Rattle.std.specs.Prelude.{ℕ, List};
ghost use Rattle.std.specs.List.{All};
ghost use Rattle.std.specs.List.Sorted.{IsStrictlySortedBy};
ghost use Rattle.eb_schema.specs.Layouts.{columns_from, columns_of_type, columns_of, column_at, find_column, row_bytes, capacity, column_cmp, starts, start_of, widths, total, LieApart};
ghost use Rattle.eb_schema.specs.Slots.{width};

use crate::kinds::{Field, Kind};
use crate::schemas::Schema;
use crate::type_sets::TypeSet;
use eb_base::{Items, Memory, TypeNo};
use std::alloc::Global;
use std::marker::Model;

/// Most rows that a block has.
const MOST_ROWS: u32 = 128;

/// How many bytes a block has.
const BLOCK_BYTES: u32 = 16384;

/// How many bytes a row has for its entity and its name.
const HEAD_BYTES: u32 = 28;

/// A column of a layout: the type and the field that it is for, and what it holds.
#[derive(Clone, Copy)]
pub struct Column {
    /// The component type.
    pub kind: TypeNo,
    /// The place of the field in its type, from 0.
    pub field: u8,
    /// What the field holds.
    pub holds: Kind,
}

/// How the rows of a set of types lie in a block. Behind the columns of the entities and of the names there is one
/// for each field, by type and in the order of the fields; each column has as many places as the block has rows,
/// without a gap. Contracts see the list of the columns for fields. `docs/chunks.md`.
#[derive(Drop)]
pub struct Layout {
    columns: Items<Column>,
    starts: Items<u32>,
    row_bytes: u32,
    capacity: u32,
}

impl Model for Layout {
    ghost use Rattle.std.specs.Prelude.{List};
    ghost use Rattle.eb_schema.specs.declared.layouts.Column.{Column};
    ghost use Rattle.eb_schema.specs.Layouts.{IsLayout};

    ghost Value = { List Column };

    ghost view = { λ l. l.columns };

    ghost invariant = { λ l. IsLayout l.columns l.starts l.row_bytes l.capacity };
}

/// Adds a column for each field of a type.
fn add_fields(columns: &mut Items<Column>, kind: TypeNo, fields: &[Field]) -> Result<(), Memory>
    requires { length fields.now ≤ 16 }
    ensures { OnOk result (columns.new ≡ columns.old ++ columns_from kind 0 fields.now) }
{
    for index in 0..fields.len() {
        columns.push(Column {
            kind,
            field: index as u8,
            holds: fields[index].kind,
        })?;
    }
    Ok(())
}

/// Adds the columns of a type, if the schema has it.
fn add_type(columns: &mut Items<Column>, schema: &Schema, kind: TypeNo) -> Result<(), Memory>
    ensures columns { OnOk result (columns.new ≡ columns.old ++ columns_of_type schema.now kind) }
    ensures few { OnOk result (length columns.new ≤ length columns.old + 16) }
{
    let _types = schema.components();
    if let Some(component) = schema.component(kind) {
        add_fields(columns, kind, component.fields.items())?;
    }
    Ok(())
}

/// The columns of a set of types.
fn columns_for(alloc: Global, schema: &Schema, kinds: &[TypeNo]) -> Result<Items<Column>, Memory>
    requires { length kinds.now ≤ 32 }
    ensures columns { IfOk result (λ columns. columns ≡ columns_of schema.now kinds.now) }
    ensures few { IfOk result (λ columns. length columns ≤ 512) }
{
    let mut columns = Items::new(alloc);
    for kind in kinds {
        add_type(&mut columns, schema, *kind)?;
    }
    Ok(columns)
}

/// How many bytes a row of these columns has.
fn bytes_of(columns: &[Column]) -> u32
    requires { length columns.now ≤ 512 }
    ensures value { result ≡ row_bytes columns.now }
    ensures range { (28 ≤ result) × (result ≤ 6172) }
{
    let mut bytes = HEAD_BYTES;
    for column in columns {
        bytes += column.holds.width() as u32;
    }
    bytes
}

/// How many rows of so many bytes a block has.
fn rows_of(columns: &[Column], bytes: u32) -> u32
    requires row { bytes ≡ row_bytes columns.now }
    requires range { (28 ≤ bytes) × (bytes ≤ 6172) }
    ensures value { result ≡ capacity columns.now }
    ensures range { (0 < result) × (result ≤ 128) }
{
    MOST_ROWS.min(BLOCK_BYTES / bytes)
}

/// How many bytes a column has.
fn column_bytes(rows: u32, holds: Kind) -> u32
    requires { rows ≤ 128 }
    ensures value { result ≡ rows * width holds }
    ensures most { result ≤ 1536 }
{
    rows * holds.width() as u32
}

/// Where each column starts, those of the entities and of the names first.
fn starts_for(alloc: Global, rows: u32, columns: &[Column]) -> Result<Items<u32>, Memory>
    requires few { length columns.now ≤ 512 }
    requires rows { rows ≡ capacity columns.now }
    requires most { rows ≤ 128 }
    ensures { IfOk result (λ list. list ≡ starts columns.now) }
{
    let mut list = Items::new(alloc);
    list.push(0)?;
    list.push(12 * rows)?;
    let mut at = HEAD_BYTES * rows;
    for column in columns {
        list.push(at)?;
        at += column_bytes(rows, column.holds);
    }
    Ok(list)
}

impl Layout {
    /// The layout of the rows that have these types. A type that the schema doesn't have gets no column.
    pub fn of(alloc: Global, schema: &Schema, kinds: &TypeSet) -> Result<Self, Memory>
        ensures { IfOk result (λ layout. layout ≡ columns_of schema.now kinds.now) }
    {
        let columns = columns_for(alloc, schema, kinds.kinds())?;
        let row_bytes = bytes_of(columns.items());
        let capacity = rows_of(columns.items(), row_bytes);
        let starts = starts_for(alloc, capacity, columns.items())?;
        Ok(Layout {
            columns,
            starts,
            row_bytes,
            capacity,
        })
    }

    /// How many bytes a row has. Takes no memory.
    pub fn row_bytes(&self) -> u32
        ensures { result ≡ row_bytes self.now }
    {
        self.row_bytes
    }

    /// How many rows a block has, 1 to 128. Takes no memory.
    pub fn capacity(&self) -> u32
        ensures value { result ≡ capacity self.now }
        ensures most { result ≤ 128 }
        ensures some { 0 < result }
    {
        self.capacity
    }

    /// How many columns there are for fields, at most 512, in the order of types and fields. Takes no memory.
    pub fn columns(&self) -> u32
        ensures value { result ≡ length self.now }
        ensures few { result ≤ 512 }
        ensures order { IsStrictlySortedBy column_cmp self.now }
    {
        self.columns.len() as u32
    }

    /// The column of a field of a type, if there is one. Takes no memory, and time by the number of columns.
    pub fn column_of(&self, kind: TypeNo, field: u8) -> Option<u32>
        ensures { result ≡ find_column kind field 0 self.now }
    {
        find(self.columns.items(), kind, field)
    }

    /// What a column holds. Takes no memory.
    pub fn kind_at(&self, column: u32) -> Kind
        requires { column < length self.now }
        ensures { result ≡ (column_at self.now column).holds }
    {
        self.columns.items()[column as usize].holds
    }

    /// The first byte of a column in the block. Takes no memory.
    #[tactic(auto, using(crate::proofs::LayoutFacts::starts_length))]
    pub fn start_of(&self, column: u32) -> u32
        requires { column < length self.now }
        ensures { result ≡ start_of self.now column }
    {
        self.starts.items()[column as usize + 2]
    }

    /// The type and the field of a column. Takes no memory.
    pub fn source_of(&self, column: u32) -> (TypeNo, u8)
        requires { column < length self.now }
        ensures { (result.0 ≡ (column_at self.now column).kind) × (result.1 ≡ (column_at self.now column).field) }
    {
        let column = self.columns.items()[column as usize];
        (column.kind, column.field)
    }
}

// The place of the first column of a field of a type.
fn find(columns: &[Column], kind: TypeNo, field: u8) -> Option<u32>
    requires { length columns.now ≤ 512 }
    ensures { result ≡ find_column kind field 0 columns.now }
{
    for index in 0..columns.len() {
        if columns[index].kind == kind && columns[index].field == field {
            return Some(index as u32);
        }
    }
    None
}

/// The law that the columns of a layout are ranges of the block that have no byte in common, those of the entities and
/// of the names among them, each with a place for every row.
pub fn columns_lie_apart()
    ensures { (columns : List Column) → LieApart columns }
{}
