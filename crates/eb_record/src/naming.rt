// The names of runs and of keys.
ghost use Rattle.std.specs.Prelude.{◌≡◌, ◌<◌};
ghost use Rattle.eb_record.specs.Readers.{key_name};
ghost use Rattle.eb_record.specs.Records.{run_name};

use eb_base::Name;
use eb_eval::RunId;
use eb_scene::Key;

/// The name of a run: that of its object's own entity, with the baker in place of the extra. Takes no memory.
pub fn run_name(id: RunId) -> Name
    ensures { result ≡ run_name id }
{
    Name {
        play: 0,
        scene: id.scene as u32,
        object: id.object,
        extra: id.baker as u32,
    }
}

/// The name of a key: its variant, scene, number and type.
pub(crate) fn key_name(key: &Key) -> Name
    ensures name { result ≡ key_name key.now }
    ensures small { result.extra < 256 }
{
    match *key {
        Key::Comp {
            scene,
            object,
            kind,
        } => of_four(0, scene, object, kind.number()),
        Key::Parent { scene, object } => of_four(1, scene, object, 0),
        Key::Children { scene, object } => of_four(2, scene, object, 0),
        Key::Exists { scene, object } => of_four(3, scene, object, 0),
        Key::Asset { asset } => of_four(4, 0, asset, 0),
    }
}

/// The name of these numbers.
fn of_four(variant: u32, scene: u8, number: u32, kind: u8) -> Name
    ensures name { result ≡ record { play = variant; scene = scene; object = number; extra = kind } }
    ensures small { result.extra < 256 }
{
    Name {
        play: variant,
        scene: scene as u32,
        object: number,
        extra: kind as u32,
    }
}
