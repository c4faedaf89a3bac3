// A small world: what is there, what is removed, and that a handle is never used again.
use crate::plain::{empty, put};
use eb_base::{Entity, Memory, Place, Tag, TypeNo};
use eb_schema::Val;
use eb_world::World;
use std::alloc::Global;
use std::test::*;

const FIRST: Place = Place {
    scene: 1,
    section: 0,
};

const SECOND: Place = Place {
    scene: 1,
    section: 3,
};

/// The number of an entity, if it lives.
fn number(world: &World, entity: Entity) -> Option<Val> {
    world.value(entity, TypeNo::FIRST, 0)
}

/// What is told of two entities of one section and one of another, after the first section's went and one came again: the
/// value and the tag of two before, how many went; whether the first is there, the value of the other, how many there are.
type Told = (Option<Val>, Option<Tag>, u32, bool, Option<Val>, u32);

fn told(alloc: Global) -> Result<Told, Memory> {
    let mut world = empty(alloc)?;
    let first = put(alloc, &mut world, Some(FIRST), 1, 7)?.unwrap_or(Entity::NULL);
    let other = put(alloc, &mut world, Some(SECOND), 2, -8)?.unwrap_or(Entity::NULL);
    put(alloc, &mut world, Some(FIRST), 3, 9)?;
    let before = number(&world, first);
    let tag = world.tag_of(other);
    let removed = world.drop_tag(FIRST);
    put(alloc, &mut world, Some(FIRST), 1, 10)?;
    Ok((
        before,
        tag,
        removed,
        world.exists(first),
        number(&world, other),
        world.live(),
    ))
}

const WANTED: Told = (
    Some(Val::Num(7)),
    Some(Some(SECOND)),
    2,
    false,
    Some(Val::Num(-8)),
    2,
);

#[test]
fn a_section_goes_and_its_handles_with_it(rt: HostRuntime) {
    assert!(rt; told(rt.alloc()) == Ok(WANTED));
}
