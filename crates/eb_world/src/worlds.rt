// The world as a whole.
ghost use Rattle.std.specs.Prelude.{◌≡◌, ℕ, true, false, ◌+◌, ◌<◌, ◌≤◌, ◌^◌, [], ◌∷◌, None, Some, IfOk, OnOk, OnErr, All, length, map, drop, is_some, option_map, option_and_then, slice_get};
ghost use Rattle.std.specs.Option.{option_copied};
ghost use Rattle.std.specs.FinMap as finite;
ghost use Rattle.slab.specs.Slab.{HasRoomFor, Updates, slab_len};
ghost use Rattle.slab.specs.Slab as slab;
ghost use Rattle.eb_schema.specs.Rows.{kinds_of};
ghost use Rattle.eb_world.specs.Tables.{names_at};
ghost use Rattle.eb_world.specs.Beings.{HasRoom, IsRoomy, Seated, drop_all, drop_one, enlisted, not_of, of_place};
ghost use Rattle.eb_world.specs.Worlds.{IsWorld, RowFits, created, empty_world, handles_without, is_among, living_of, most_live, named, no_spare, tagged, value_of, with_spare, without};

use crate::beings::{Being, Blank, being_of, hold_row, name_of, value_of};
use crate::name_table::NameTable;
use crate::sections::Sections;
use crate::spares::blanks_of;
use eb_base::{Entity, Memory, Name, Place, Tag, TypeNo};
use eb_schema::{Row, Schema, TypeSet, Val};
use slab::Slab;
use std::alloc::Global;
use std::collections::VecDeque;
use std::marker::Model;

/// Most seats that an index of 32 bits tells apart.
const MOST_SEATS: usize = 1 << 32;

/// The entities that live, by name.
#[derive(Drop)]
pub struct World {
    alloc: Global,
    schema: Schema,
    beings: NameTable<Being>,
    // The name of the entity at each index of a handle.
    seats: Slab<Name>,
    // The names that were loaded from each section.
    sections: Sections,
    made: u64,
    spare_tag: Tag,
    blanks: VecDeque<Blank>,
}

impl Model for World {
    ghost use Rattle.std.specs.Prelude.{map};
    ghost use Rattle.std.specs.Coded.{coded_list};
    ghost use Rattle.eb_schema.specs.contracts.rows.Cell as cell;
    ghost use Rattle.eb_schema.specs.contracts.schemas.Schema as documented;
    ghost use Rattle.eb_world.specs.Worlds.{World as Whole, world_code};

    ghost Value = { Whole };

    ghost coded = { world_code documented.the_row.coded (coded_list cell.the_row.coded) };

    ghost use Rattle.eb_world.specs.Beings.{live_of, handles_of, IsSound};

    ghost view = { λ w. record {
      types = w.schema;
      live = live_of w.schema w.beings.map;
      handles = handles_of w.beings.map;
      made = w.made;
      spare = record { tag = w.spare_tag; kinds = map (λ b. b.kinds) w.blanks.items };
      order = w.beings.order;
    } };

    ghost invariant = { λ w. IsSound w.schema w.beings w.seats w.sections w.spare_tag w.blanks.items w.made };
}

/// A seat for the entity of a name: its index.
fn take_seat(seats: &mut Slab<Name>, name: Name) -> u32
    requires room { HasRoomFor seats.old 1 }
    requires small { seats.old.capacity ≤ 2 ^ 32 }
    ensures vacant { slab.get seats.old result ≡ None }
    ensures taken { Updates seats.old seats.new result (Some name) }
    ensures len { slab_len seats.new ≡ slab_len seats.old + 1 }
    ensures capacity { seats.new.capacity ≡ seats.old.capacity }
{
    seats.insert_reserved(name) as u32
}

/// Writes a name into the list of its section, if it has one.
fn enlist(sections: &mut Sections, tag: Tag, name: Name)
    requires { IsRoomy sections.old tag 1 }
    ensures { sections.new ≡ enlisted sections.old tag name }
{
    if let Some(place) = tag {
        sections.add(place, name);
    }
}

/// Whether an entity of this name lives and came from the section.
fn is_of(beings: &NameTable<Being>, name: &Name, place: Place) -> bool
    ensures { result ≡ of_place place (finite.get beings.now.map name.now) }
{
    match beings.get(name) {
        Some(being) => being.tag == Some(place),
        None => false,
    }
}

/// Removes the entity of a name, where it came from the section.
fn drop_named(beings: &mut NameTable<Being>, seats: &mut Slab<Name>, place: Place, name: &Name)
    requires { Seated seats.old beings.old.map }
    ensures beings { beings.new.map ≡ drop_one place beings.old.map name.now }
    ensures seats { Seated seats.new beings.new.map }
    ensures capacity { seats.new.capacity ≡ seats.old.capacity }
    ensures len { slab_len seats.new ≤ slab_len seats.old }
{
    if !is_of(beings, name, place) {
        return;
    }
    if let Some(being) = beings.take(name) {
        let _ = seats.try_remove(being.entity.index as usize);
    }
}

/// Removes the entities of these names that came from the section.
fn drop_each(beings: &mut NameTable<Being>, seats: &mut Slab<Name>, place: Place, names: &[Name])
    requires { Seated seats.old beings.old.map }
    ensures beings { beings.new.map ≡ drop_all place names.now beings.old.map }
    ensures seats { Seated seats.new beings.new.map }
    ensures capacity { seats.new.capacity ≡ seats.old.capacity }
    ensures len { slab_len seats.new ≤ slab_len seats.old }
{
    for name in names {
        drop_named(beings, seats, place, name);
    }
}

/// Removes all entities that came from a section.
fn drop_section(
    beings: &mut NameTable<Being>,
    seats: &mut Slab<Name>,
    sections: &mut Sections,
    place: Place,
)
    requires seated { Seated seats.old beings.old.map }
    requires listed { (q : Name) → of_place place (finite.get beings.old.map q) ≡ true → is_among (names_at sections.old place) q ≡ true }
    ensures beings { beings.new.map ≡ not_of place beings.old.map }
    ensures seats { Seated seats.new beings.new.map }
    ensures capacity { seats.new.capacity ≡ seats.old.capacity }
    ensures len { slab_len seats.new ≤ slab_len seats.old }
    ensures sections { sections.new ≡ finite.remove sections.old place }
{
    if let Some(names) = sections.take(place) {
        drop_each(beings, seats, place, names.items());
    }
}

impl World {
    /// The world of a schema, with no entities.
    pub fn open(alloc: Global, schema: &Schema) -> Result<Self, Memory>
        ensures { IfOk result (λ w. w ≡ empty_world schema.now) }
    {
        Ok(World {
            alloc,
            schema: schema.copy(alloc)?,
            beings: NameTable::new(alloc),
            seats: Slab::new(alloc),
            sections: Sections::new(alloc),
            made: 0,
            spare_tag: None,
            blanks: VecDeque::new(alloc),
        })
    }

    /// How many entities live, at most 262,144. Takes no memory.
    pub fn live(&self) -> u32
        ensures count { result ≡ finite.len self.now.live }
        ensures few { result ≤ most_live }
    {
        self.beings.len() as u32
    }

    /// The law of every world: who has a handle, that handles differ, how serials run, where references lead,
    /// and that each live name is listed once.
    pub fn is_whole(&self)
        ensures { IsWorld self.now }
    {
        let _ = self.beings.len();
    }

    /// Whether an entity lives. Takes no memory.
    pub fn exists(&self, entity: Entity) -> bool
        ensures { result ≡ is_some (named self.now.handles entity) }
    {
        self.name_of(entity).is_some()
    }

    /// The handle of the live entity of a name. Takes no memory.
    pub fn find(&self, name: &Name) -> Option<Entity>
        ensures handle { result ≡ finite.get self.now.handles name.now }
        ensures lives { is_some result ≡ finite.contains_key self.now.live name.now }
    {
        match self.beings.get(name) {
            Some(being) => Some(being.entity),
            None => None,
        }
    }

    /// The name of a live entity. Takes no memory.
    pub fn name_of(&self, entity: Entity) -> Option<Name>
        ensures { result ≡ named self.now.handles entity }
    {
        name_of(&self.beings, &self.seats, entity)
    }

    /// The section that a live entity was loaded from, if it was. Takes no memory.
    pub fn tag_of(&self, entity: Entity) -> Option<Tag>
        ensures { result ≡ option_map (λ l. l.tag) (living_of self.now entity) }
    {
        match being_of(&self.beings, &self.seats, entity) {
            Some(being) => Some(being.tag),
            None => None,
        }
    }

    /// The types of a live entity. Takes no memory.
    pub fn types_of(&self, entity: Entity) -> Option<&TypeSet>
        ensures { option_copied result ≡ option_map (λ l. kinds_of l.row) (living_of self.now entity) }
    {
        match being_of(&self.beings, &self.seats, entity) {
            Some(being) => Some(&being.kinds),
            None => None,
        }
    }

    /// The value of a field of a live entity, if it has the type and the type has the field. Takes no memory.
    pub fn value(&self, entity: Entity, kind: TypeNo, field: u8) -> Option<Val>
        ensures { result ≡ option_and_then (λ l. value_of l.row kind field) (living_of self.now entity) }
    {
        let being = being_of(&self.beings, &self.seats, entity)?;
        value_of(&self.schema, &self.beings, being, kind, field)
    }

    /// The entity at a place of the list of all that live: each of them is at one place, in an order of the
    /// world's own. Takes no memory.
    pub fn at(&self, place: u32) -> Entity
        requires { place < finite.len self.now.live }
        ensures { option_and_then (finite.get self.now.handles) (slice_get self.now.order place) ≡ Some result }
    {
        let (_, being) = self.beings.at(place as usize);
        being.entity
    }

    /// Makes room for entities of a tag with the types of these rows, so that creating them takes no memory.
    /// After want of memory nothing is reserved.
    pub fn reserve(&mut self, tag: Tag, rows: &[Row]) -> Result<(), Memory>
        requires { All (RowFits self.old.types) rows.now }
        ensures ok { OnOk result (self.new ≡ with_spare self.old (record { tag = tag; kinds = map kinds_of rows.now })) }
        ensures err { OnErr result (self.new ≡ with_spare self.old no_spare) }
    {
        self.spare_tag = None;
        self.blanks = VecDeque::new(self.alloc);
        let blanks = blanks_of(self.alloc, &self.schema, rows)?;
        make_room(
            &mut self.beings,
            &mut self.seats,
            &mut self.sections,
            tag,
            rows.len(),
        )?;
        self.spare_tag = tag;
        self.blanks = blanks;
        Ok(())
    }

    /// Creates the next entity that there was room reserved for, and answers its handle. A reference of its row
    /// to a name that isn't there becomes none. Takes no memory.
    pub fn create_reserved(&mut self, name: Name, row: &Row) -> Entity
        requires next { slice_get self.old.spare.kinds 0 ≡ Some (kinds_of row.now) }
        requires few { finite.len self.old.live < most_live }
        requires new { finite.contains_key self.old.live name ≡ false }
        requires fits { RowFits self.old.types row.now }
        requires serials { self.old.made + 1 < 2 ^ 62 }
        ensures live { self.new.live ≡ created self.old.live name self.old.spare.tag row.now }
        ensures handles { self.new.handles ≡ finite.insert self.old.handles name result }
        ensures serial { result.serial ≡ self.old.made + 1 }
        ensures made { self.new.made ≡ self.old.made + 1 }
        ensures spare { self.new.spare ≡ record { tag = self.old.spare.tag; kinds = drop 1 self.old.spare.kinds } }
        ensures types { self.new.types ≡ self.old.types }
    {
        let Some(Blank { kinds, values }) = self.blanks.pop_front() else {
            unreachable!()
        };
        let serial = self.made + 1;
        let values = hold_row(values, &self.beings, name, serial, row);
        let index = take_seat(&mut self.seats, name);
        let entity = Entity { index, serial };
        let tag = self.spare_tag;
        enlist(&mut self.sections, tag, name);
        self.beings.add(
            name,
            Being {
                entity,
                tag,
                kinds,
                values,
            },
        );
        self.made = serial;
        entity
    }

    /// Removes all entities that came from a section, and answers their number. References to them are gone.
    /// What was reserved is given up. Takes no memory.
    pub fn drop_tag(&mut self, place: Place) -> u32
        ensures live { self.new.live ≡ without self.old.live (tagged self.old.live place) }
        ensures handles { self.new.handles ≡ handles_without self.old.handles (tagged self.old.live place) }
        ensures count { result ≡ length (tagged self.old.live place) }
        ensures made { self.new.made ≡ self.old.made }
        ensures spare { self.new.spare ≡ no_spare }
        ensures types { self.new.types ≡ self.old.types }
    {
        self.spare_tag = None;
        self.blanks.clear();
        let before = self.beings.len();
        drop_section(&mut self.beings, &mut self.seats, &mut self.sections, place);
        (before - self.beings.len()) as u32
    }
}

/// Makes room for so many entities of a tag. All that is there stays, after want of memory too.
fn make_room(
    beings: &mut NameTable<Being>,
    seats: &mut Slab<Name>,
    sections: &mut Sections,
    tag: Tag,
    count: usize,
) -> Result<(), Memory>
    ensures map { beings.new.map ≡ beings.old.map }
    ensures order { beings.new.order ≡ beings.old.order }
    ensures seats { (index : ℕ) → slab.get seats.new index ≡ slab.get seats.old index }
    ensures sections { (q : Place) → names_at sections.new q ≡ names_at sections.old q }
    ensures kept { HasRoom beings.old seats.old sections.old None 0 → HasRoom beings.new seats.new sections.new None 0 }
    ensures room { OnOk result (HasRoom beings.new seats.new sections.new tag count) }
{
    beings.reserve(count)?;
    seats.reserve(count)?;
    // An index has 32 bits: no more seats than that have a place in memory here.
    if seats.capacity() > MOST_SEATS {
        return Err(Memory);
    }
    if let Some(place) = tag {
        sections.reserve(place, count)?;
    }
    Ok(())
}
