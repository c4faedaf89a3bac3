// Loading and unloading a section.
ghost use Rattle.std.specs.Prelude.{◌≡◌, ◌+◌, ◌<◌, ◌≤◌, ◌^◌, ℕ, Some, None, All, IfOk, IfErr, OnOk, OnErr, length, map};
ghost use Rattle.std.specs.FinMap as finite;
ghost use Rattle.eb_base.specs.declared.names.Name.{Name};
ghost use Rattle.eb_base.specs.declared.names.Entity.{Entity};
ghost use Rattle.eb_file.specs.Images.{IsValid};
ghost use Rattle.eb_world.specs.Worlds.{most_live, handles_without, tagged, no_spare};
ghost use Rattle.eb_stream.specs.Loading.{HasNumbersAlone, IsNew, as_stored, with_rows, loaded, unloaded, Creates, LoadEnds};

use crate::load_faults::LoadFault;
use crate::world_rows::world_rows;
use eb_base::Place;
use eb_file::{Image, ImageRow};
use eb_schema::Row;
use eb_world::World;
use std::alloc::Global;

/// How many entities a world has at most.
const MOST_LIVE: usize = 262144;

/// Creates the entities of these rows, for which there is room reserved.
fn create_all(world: &mut World, stored: &[ImageRow], rows: &[Row])
    requires { Creates world.old stored.now rows.now }
    ensures live { world.new.live ≡ with_rows as_stored world.old.live world.old.spare.tag stored.now }
    ensures made { world.new.made ≡ world.old.made + length stored.now }
    ensures types { world.new.types ≡ world.old.types }
    ensures handles { (name : Name) (entity : Entity) → finite.get world.old.handles name ≡ Some entity → finite.get world.new.handles name ≡ Some entity }
{
    for at in 0..stored.len() {
        world.create_reserved(stored[at].name, &rows[at]);
    }
}

/// Brings the entities of an image into the world, tagged with the image's place, and answers their number. All memory
/// is taken first, so that after an error the entities of the world are as they were (`docs/world.md`).
pub fn load(alloc: Global, world: &mut World, image: &Image) -> Result<u32, LoadFault>
    requires valid { IsValid world.old.types image.now }
    requires numbers { HasNumbersAlone image.now }
    requires fresh { All (IsNew world.old.live) image.now.rows }
    requires serials { world.old.made + length image.now.rows < 2 ^ 62 }
    ensures count { IfOk result (λ count. count ≡ length image.now.rows) }
    ensures live { OnOk result (world.new.live ≡ loaded world.old.live image.now) }
    ensures made { OnOk result (world.new.made ≡ world.old.made + length image.now.rows) }
    ensures handles { (name : Name) (entity : Entity) → finite.get world.old.handles name ≡ Some entity → finite.get world.new.handles name ≡ Some entity }
    ensures ends { LoadEnds result (finite.len world.old.live + length image.now.rows) }
    ensures kept { OnErr result (world.new.live ≡ world.old.live) }
    ensures handles_kept { OnErr result (world.new.handles ≡ world.old.handles) }
    ensures none_made { OnErr result (world.new.made ≡ world.old.made) }
    ensures types { world.new.types ≡ world.old.types }
{
    world.is_whole();
    let stored = image.rows.items();
    let count = world.live() as usize + stored.len();
    if count > MOST_LIVE {
        return Err(LoadFault::WorldFull {
            count: count as u32,
        });
    }
    let rows = world_rows(alloc, stored)?;
    world.reserve(Some(image.place), rows.as_slice())?;
    create_all(world, stored, rows.as_slice());
    Ok(stored.len() as u32)
}

/// Takes the entities of a section out of the world, and answers their number. References to them are gone. Takes no
/// memory (`docs/world.md`).
pub fn unload(world: &mut World, place: Place) -> u32
    ensures live { world.new.live ≡ unloaded world.old.live place }
    ensures count { result ≡ length (tagged world.old.live place) }
    ensures handles { world.new.handles ≡ handles_without world.old.handles (tagged world.old.live place) }
    ensures made { world.new.made ≡ world.old.made }
    ensures types { world.new.types ≡ world.old.types }
{
    world.drop_tag(place)
}
