// How the world keeps an entity, and what is kept of a row.
ghost use Rattle.std.specs.Prelude.{◌≡◌, ◌-◌, ◌≤◌, [], ◌++◌, cond, length, map, option_map, slice_get};
ghost use Rattle.std.specs.Ordering.{eq_by_cmp};
ghost use Rattle.std.specs.Option.{option_copied};
ghost use Rattle.std.specs.FinMap as finite;
ghost use Rattle.eb_base.specs.Names.{name_cmp};
ghost use Rattle.eb_world.specs.declared.beings.Held.TheVariants as held;
ghost use Rattle.eb_world.specs.Beings.{Seated, being_at, flat, handles_of, has_serial, hold, link_to, meaning, shown, total, value_in, width};
ghost use Rattle.eb_world.specs.Worlds.{named, value_of};

use crate::name_table::NameTable;
use eb_base::{Entity, Items, Name, Reserved, Tag, TypeNo};
use eb_schema::{Cell, Row, Schema, TypeSet, Val};
use slab::Slab;

/// What is kept of the value of a field.
#[derive(Clone, Copy)]
pub enum Held {
    /// A number.
    Num(i64),
    /// A reference to the entity of this name, as long as it is the one that was made as this number.
    Link(Name, u64),
    /// A reference to none.
    Null,
}

/// A live entity.
#[derive(Drop)]
pub struct Being {
    /// Its handle.
    pub entity: Entity,
    /// The section that it was loaded from, if it was.
    pub tag: Tag,
    /// Its types, ascending.
    pub kinds: TypeSet,
    /// The values of its types, end to end.
    pub values: Items<Held>,
}

/// The memory of an entity to come.
#[derive(Drop)]
pub struct Blank {
    /// Its types, ascending.
    pub kinds: TypeSet,
    /// No values yet, and room for those of its types.
    pub values: Reserved<Held>,
}

/// What a kept value means: a reference is gone unless its entity still lives.
fn meaning(beings: &NameTable<Being>, value: Held) -> Val
    ensures { result ≡ meaning beings.now.map value }
{
    match value {
        Held::Num(number) => Val::Num(number),
        Held::Link(to, serial) => {
            if is_made_as(beings, &to, serial) {
                Val::To(to)
            } else {
                Val::Gone
            }
        }
        Held::Null => Val::Null,
    }
}

/// Whether the entity of this name lives and is the one that was made as this number.
fn is_made_as(beings: &NameTable<Being>, name: &Name, serial: u64) -> bool
    ensures { result ≡ has_serial serial (finite.get beings.now.map name.now) }
{
    match beings.get(name) {
        Some(being) => being.entity.serial == serial,
        None => false,
    }
}

/// What is kept of a reference of a new entity.
fn link(beings: &NameTable<Being>, name: Name, serial: u64, to: Name) -> Held
    ensures { result ≡ cond (eq_by_cmp name_cmp to name) (held.Link to serial) (link_to to (finite.get beings.now.map to)) }
{
    if to == name {
        return Held::Link(to, serial);
    }
    match beings.get(&to) {
        Some(being) => Held::Link(to, being.entity.serial),
        None => Held::Null,
    }
}

/// What is kept of a value of a new entity.
fn hold(beings: &NameTable<Being>, name: Name, serial: u64, value: Val) -> Held
    ensures { result ≡ hold beings.now.map name serial value }
{
    match value {
        Val::Num(number) => Held::Num(number),
        Val::To(to) => link(beings, name, serial, to),
        Val::Null => Held::Null,
        Val::Gone => Held::Null,
    }
}

/// Adds what is kept of a cell.
fn hold_cell(
    values: &mut Reserved<Held>,
    beings: &NameTable<Being>,
    name: Name,
    serial: u64,
    cell: &Cell,
)
    requires { length cell.now.values ≤ values.old.room }
    ensures items { values.new.items ≡ values.old.items ++ map (hold beings.now.map name serial) cell.now.values }
    ensures room { values.new.room ≡ values.old.room - length cell.now.values }
{
    for value in cell.values.items() {
        values.push(hold(beings, name, serial, *value));
    }
}

/// What is kept of the row of a new entity. Takes no memory but the room that is handed in.
pub fn hold_row(
    room: Reserved<Held>,
    beings: &NameTable<Being>,
    name: Name,
    serial: u64,
    row: &Row,
) -> Items<Held>
    requires empty { room.items ≡ [] }
    requires room { length (flat row.now) ≤ room.room }
    ensures { result ≡ map (hold beings.now.map name serial) (flat row.now) }
{
    let mut values = room;
    for cell in row.cells() {
        hold_cell(&mut values, beings, name, serial, cell);
    }
    values.into_items()
}

/// The name of the live entity with this handle.
pub fn name_of(beings: &NameTable<Being>, seats: &Slab<Name>, entity: Entity) -> Option<Name>
    requires { Seated seats.now beings.now.map }
    ensures { result ≡ named (handles_of beings.now.map) entity }
{
    let name = *seats.get(entity.index as usize)?;
    let being = beings.get(&name)?;
    if being.entity == entity {
        Some(name)
    } else {
        None
    }
}

/// The live entity with this handle.
pub fn being_of<'a>(
    beings: &'a NameTable<Being>,
    seats: &Slab<Name>,
    entity: Entity,
) -> Option<&'a Being>
    requires { Seated seats.now beings.now.map }
    ensures { option_copied result ≡ being_at beings.now.map entity }
{
    let name = name_of(beings, seats, entity)?;
    beings.get(&name)
}

/// How many fields a type has.
fn width(schema: &Schema, kind: TypeNo) -> usize
    ensures { result ≡ width schema.now kind }
{
    match schema.component(kind) {
        Some(component) => component.fields.len(),
        None => 0,
    }
}

/// The value at a place.
fn value_at(values: &[Held], field: u8) -> Option<Held>
    ensures { result ≡ slice_get values.now field }
{
    values.get(field as usize).copied()
}

/// What is kept of a field of a type, if the entity has the type and the type has the field.
fn value_in(schema: &Schema, being: &Being, kind: TypeNo, field: u8) -> Option<Held>
    requires { length being.now.values ≡ total schema.now being.now.kinds }
    ensures { result ≡ value_in schema.now being.now.kinds being.now.values kind field }
{
    let mut rest = being.values.items();
    for each in being.kinds.kinds() {
        let (values, tail) = rest.split_at(width(schema, *each));
        if *each == kind {
            return value_at(values, field);
        }
        rest = tail;
    }
    None
}

/// The value of a field of a type, if the entity has the type and the type has the field.
pub fn value_of(
    schema: &Schema,
    beings: &NameTable<Being>,
    being: &Being,
    kind: TypeNo,
    field: u8,
) -> Option<Val>
    requires { length being.now.values ≡ total schema.now being.now.kinds }
    ensures { result ≡ value_of (shown schema.now beings.now.map being.now).row kind field }
{
    match value_in(schema, being, kind, field) {
        Some(value) => Some(meaning(beings, value)),
        None => None,
    }
}
