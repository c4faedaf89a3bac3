// Queries, and what is printed of the entities that match one.
ghost use Rattle.std.specs.Prelude.{◌≡◌, ◌++◌, [], IfOk, OnOk, flat_map};
ghost use Rattle.std.specs.List.{list_all, list_any};
ghost use Rattle.std.specs.FinMap as finite;
ghost use Rattle.eb_query.specs.declared.queries.QueryFault.TheVariants.{Memory};
ghost use Rattle.eb_schema.specs.Schemas.{Types};
ghost use Rattle.eb_world.specs.Worlds.{Live};
ghost use Rattle.eb_query.specs.EntityText.{entity_lines};
ghost use Rattle.eb_query.specs.Pieces.{match_of};
ghost use Rattle.eb_query.specs.Queries.{TellsQuery, has, has_one, matches, matching_lines, query_of};

use crate::entities::put_line;
use crate::listing::live_names;
use eb_base::{Items, Memory, Name, Text, TypeNo};
use eb_schema::{Schema, TypeSet};
use eb_world::World;
use std::alloc::Global;
use std::marker::Model;

/// Why names make no query.
#[derive(Clone, Copy)]
pub enum QueryFault {
    /// There was no memory.
    Memory,
    /// A name has no type: the place of the first such, counted from 0 through the three lists.
    NoType {
        /// The place.
        place: u32,
    },
    /// There are more than 32 names.
    TooMany,
    /// A type is asked for, and none may have it.
    Clash {
        /// The least such type.
        kind: TypeNo,
    },
}

impl From<Memory> for QueryFault {
    ghost from_gives = { λ _ fault. fault ≡ Memory };

    fn from(_: Memory) -> Self {
        QueryFault::Memory
    }
}

/// What entities are asked for by their types. Contracts see the numbers of the types.
#[derive(Drop)]
pub struct Query {
    all: Items<TypeNo>,
    any: Items<TypeNo>,
    none: Items<TypeNo>,
}

impl Model for Query {
    ghost use Rattle.eb_query.specs.Queries.{Asked};

    ghost Value = { Asked };

    ghost view = { λ q. record { all = q.all; any = q.any; none = q.none } };
}

impl Query {
    /// The query for entities that have all of the first types, one of the second unless there are none, and none
    /// of the third. For now the three lists are empty, so that every entity matches.
    pub fn of(
        alloc: Global,
        schema: &Schema,
        all: &[Text],
        any: &[Text],
        none: &[Text],
    ) -> Result<Self, QueryFault>
        requires all { all.now ≡ [] }
        requires any { any.now ≡ [] }
        requires none { none.now ≡ [] }
        ensures { TellsQuery result (query_of schema.now all.now any.now none.now) }
    {
        Ok(Query {
            all: Items::new(alloc),
            any: Items::new(alloc),
            none: Items::new(alloc),
        })
    }

    /// Whether an entity with these types matches. Takes no memory.
    fn matches_types(&self, kinds: &TypeSet) -> bool
        ensures { result ≡ matches self.now kinds.now }
    {
        has_all(kinds, self.all.items())
            && has_one(kinds, self.any.items())
            && !has_any(kinds, self.none.items())
    }

    /// The lines of the entities that match, ascending by name; `docs/entity-lines.md` has their form. The names
    /// are sorted once, and the lines are written into one list of bytes.
    pub fn rows_text(&self, alloc: Global, world: &World, schema: &Schema) -> Result<Text, Memory>
        requires { world.now.types ≡ schema.now }
        ensures { IfOk result (λ text. text ≡ matching_lines self.now schema.now world.now.live) }
    {
        let names = live_names(alloc, world)?;
        let mut out = Vec::new(alloc);
        self.put_matches(&mut out, world, schema, names.as_slice())?;
        Ok(Text::from_vec(out))
    }

    /// Adds the lines of the entities of these names that live and match.
    fn put_matches(
        &self,
        out: &mut Vec<u8>,
        world: &World,
        schema: &Schema,
        names: &[Name],
    ) -> Result<(), Memory>
        ensures { OnOk result (out.new.items ≡ out.old.items ++ flat_map (λ name. match_of self.now schema.now name (finite.get world.now.live name)) names.now) }
    {
        for name in names {
            self.put_match(out, world, schema, *name)?;
        }
        Ok(())
    }

    /// Adds the line of the entity of a name, if it lives and matches.
    fn put_match(
        &self,
        out: &mut Vec<u8>,
        world: &World,
        schema: &Schema,
        name: Name,
    ) -> Result<(), Memory>
        ensures { OnOk result (out.new.items ≡ out.old.items ++ match_of self.now schema.now name (finite.get world.now.live name)) }
    {
        world.is_whole();
        let Some(entity) = world.find(&name) else {
            return Ok(());
        };
        let Some(kinds) = world.types_of(entity) else {
            return Ok(());
        };
        let Some(tag) = world.tag_of(entity) else {
            return Ok(());
        };
        if self.matches_types(kinds) {
            put_line(out, world, schema, name, entity, tag, kinds)?;
        }
        Ok(())
    }
}

/// The law that the query that asks for nothing lists all entities: its text is a dump.
pub fn the_empty_query_lists_all()
    ensures { (types : Types) (live : Live) → matching_lines (record { all = []; any = []; none = [] }) types live ≡ entity_lines types live }
{}

/// Whether all of the types are in the set.
fn has_all(kinds: &TypeSet, wanted: &[TypeNo]) -> bool
    ensures { result ≡ list_all (has kinds.now) wanted.now }
{
    for kind in wanted {
        if !kinds.has(*kind) {
            return false;
        }
    }
    true
}

/// Whether one of the types is in the set.
fn has_any(kinds: &TypeSet, wanted: &[TypeNo]) -> bool
    ensures { result ≡ list_any (has kinds.now) wanted.now }
{
    for kind in wanted {
        if kinds.has(*kind) {
            return true;
        }
    }
    false
}

/// Whether one of the types is in the set, or there are none.
fn has_one(kinds: &TypeSet, wanted: &[TypeNo]) -> bool
    ensures { result ≡ has_one kinds.now wanted.now }
{
    if wanted.is_empty() {
        return true;
    }
    has_any(kinds, wanted)
}
