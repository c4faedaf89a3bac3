// The section as it was last published, and the world that it is loaded into.
ghost use Rattle.std.specs.Prelude.{◌≡◌, ◌<◌, ◌+◌, ◌^◌, Some, None, true, false, option_map, length, IfOk, IfSome, OnOk, OnErr};
ghost use Rattle.std.specs.FinMap.{empty};
ghost use Rattle.eb_query.specs.EntityText.{entity_lines};
ghost use Rattle.eb_stream.specs.Loading.{AllOf, loaded, unloaded};
ghost use Rattle.eb_world.specs.Worlds.{empty_world, tagged};
ghost use Rattle.eb_session.specs.Images.{the_place};
ghost use Rattle.eb_session.specs.Machine.{IsSection, is_changed, bytes_of, refreshed_live, refreshed_made, times_loaded};

use crate::imaging::THE_PLACE;
use eb_base::{Memory, Text};
use eb_file::Image;
use eb_query::{Query, QueryFault};
use eb_schema::Schema;
use eb_stream::{LoadFault, load, unload};
use eb_world::World;
use std::alloc::Global;

/// The section as it was last published.
#[derive(Drop)]
pub struct Published {
    /// Its image, from which it is loaded.
    pub image: Image,
    /// The bytes of its file.
    pub bytes: Vec<u8>,
}

/// Whether these bytes differ from the published ones, or none are published.
pub fn is_new(schema: &Schema, published: &Option<Published>, bytes: &[u8]) -> bool
    requires { IfSome published.now (λ p. p.bytes.items ≡ bytes_of schema.now p.image) }
    ensures { result ≡ is_changed schema.now (option_map (λ p. p.image) published.now) bytes.now }
{
    match published {
        Some(old) => old.bytes.as_slice() != bytes,
        None => true,
    }
}

/// How often a publication that changes the section loads it.
pub fn times_loaded(is_loaded: bool) -> u32
    ensures { result ≡ times_loaded is_loaded }
{
    if is_loaded { 1 } else { 0 }
}

/// A world in which nothing lives.
pub fn new_world(alloc: Global, schema: &Schema) -> Result<World, Memory>
    ensures types { IfOk result (λ world. world.types ≡ schema.now) }
    ensures live { IfOk result (λ world. world.live ≡ empty) }
    ensures made { IfOk result (λ world. world.made ≡ 0) }
{
    let world = World::open(alloc, schema)?;
    Ok(world)
}

/// Brings the section into a world in which nothing lives.
fn bring_into_empty(alloc: Global, world: &mut World, image: &Image) -> Result<(), Memory>
    requires empty { world.old.live ≡ empty }
    requires section { IsSection world.old.types image.now }
    requires made { world.old.made + 65536 < 2 ^ 62 }
    ensures live { OnOk result (world.new.live ≡ loaded world.old.live image.now) }
    ensures made { OnOk result (world.new.made ≡ world.old.made + length image.now.rows) }
    ensures err { OnErr result (world.new.live ≡ empty) }
    ensures types { world.new.types ≡ world.old.types }
{
    match load(alloc, world, image) {
        Ok(_) => Ok(()),
        Err(LoadFault::Memory) => Err(Memory),
        Err(LoadFault::WorldFull { .. }) => unreachable!(),
    }
}

/// Brings the section into the world.
pub fn bring_in(
    alloc: Global,
    world: &mut World,
    is_loaded: &mut bool,
    image: &Image,
) -> Result<(), Memory>
    requires empty { world.old.live ≡ empty }
    requires section { IsSection world.old.types image.now }
    requires made { world.old.made + 65536 < 2 ^ 62 }
    ensures live { OnOk result (world.new.live ≡ loaded world.old.live image.now) }
    ensures made { OnOk result (world.new.made ≡ world.old.made + length image.now.rows) }
    ensures is_loaded { OnOk result (is_loaded.new ≡ true) }
    ensures err { OnErr result (world.new.live ≡ empty) }
    ensures types { world.new.types ≡ world.old.types }
{
    bring_into_empty(alloc, world, image)?;
    *is_loaded = true;
    Ok(())
}

/// Takes the section out of the world, in which nothing else lives, and answers the number of its entities.
pub fn take_out(world: &mut World, is_loaded: &mut bool) -> u32
    requires { AllOf (Some the_place) world.old.live }
    ensures count { result ≡ length (tagged world.old.live the_place) }
    ensures live { world.new.live ≡ unloaded world.old.live the_place }
    ensures empty { world.new.live ≡ empty }
    ensures made { world.new.made ≡ world.old.made }
    ensures types { world.new.types ≡ world.old.types }
    ensures is_loaded { is_loaded.new ≡ false }
{
    *is_loaded = false;
    unload(world, THE_PLACE)
}

/// Puts another image in place of the published one, and loads it again where the section is loaded.
pub fn take_over(
    alloc: Global,
    published: &mut Option<Published>,
    world: &mut World,
    is_loaded: bool,
    next: Published,
) -> Result<(), Memory>
    requires of_section { AllOf (Some the_place) world.old.live }
    requires section { IsSection world.old.types next.image }
    requires made { world.old.made + 65536 < 2 ^ 62 }
    ensures published { OnOk result (published.new ≡ Some next) }
    ensures kept { OnErr result (published.new ≡ published.old) }
    ensures live { OnOk result (world.new.live ≡ refreshed_live is_loaded world.old.live next.image) }
    ensures made { OnOk result (world.new.made ≡ refreshed_made is_loaded world.old.made next.image) }
    ensures err { OnErr result (world.new.live ≡ empty) }
    ensures types { world.new.types ≡ world.old.types }
{
    if is_loaded {
        unload(world, THE_PLACE);
        bring_into_empty(alloc, world, &next.image)?;
    }
    *published = Some(next);
    Ok(())
}

/// The lines of all entities of the world, ascending by name.
pub fn world_text(alloc: Global, world: &World, schema: &Schema) -> Result<Text, Memory>
    requires { world.now.types ≡ schema.now }
    ensures { IfOk result (λ text. text ≡ entity_lines schema.now world.now.live) }
{
    match Query::of(alloc, schema, &[], &[], &[]) {
        Ok(query) => query.rows_text(alloc, world, schema),
        Err(QueryFault::Memory) => Err(Memory),
        Err(_) => unreachable!(),
    }
}
