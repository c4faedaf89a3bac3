// A world of entities with one number each.
ghost use Rattle.std.specs.Prelude.{◌≡◌, ◌+◌, ◌≤◌, IfOk};
ghost use Rattle.eb_schema.specs.Schemas.{plain_types};
ghost use Rattle.eb_world.specs.Worlds.{RowFits};

use eb_base::{Entity, Items, Memory, Name, Tag, TypeNo};
use eb_schema::{Cell, Row, Schema, Val};
use eb_world::World;
use std::alloc::Global;

/// The name of an object's entity in scene 1.
pub fn name(object: u32) -> Name {
    Name {
        play: 0,
        scene: 1,
        object,
        extra: 0,
    }
}

/// A row with one number.
#[tactic(auto, using(crate::proofs::PlainRows::number_fits))]
fn row_of(alloc: Global, number: i64) -> Result<Row, Memory>
    ensures { IfOk result (RowFits plain_types) }
{
    let mut values = Items::new(alloc);
    values.push(Val::Num(number))?;
    let mut row = Row::open(alloc);
    row.put(Cell {
        kind: TypeNo::FIRST,
        values,
    })?;
    Ok(row)
}

/// A world with no entities.
pub fn empty(alloc: Global) -> Result<World, Memory>
    ensures types { IfOk result (λ w. w.types ≡ plain_types) }
    ensures made { IfOk result (λ w. w.made ≡ 0) }
{
    let schema = Schema::plain(alloc)?;
    let world = World::open(alloc, &schema)?;
    Ok(world)
}

/// Creates an entity with a number, unless its name is taken.
pub fn put(
    alloc: Global,
    world: &mut World,
    tag: Tag,
    object: u32,
    number: i64,
) -> Result<Option<Entity>, Memory>
    requires types { world.old.types ≡ plain_types }
    requires made { world.old.made ≤ 1000 }
    ensures types { world.new.types ≡ plain_types }
    ensures made { world.new.made ≤ world.old.made + 1 }
{
    let mut rows = Vec::new(alloc);
    rows.push(row_of(alloc, number)?)?;
    world.reserve(tag, rows.as_slice())?;
    let name = name(object);
    if world.live() >= 262_144 || world.find(&name).is_some() {
        return Ok(None);
    }
    Ok(Some(world.create_reserved(name, &rows[0])))
}
