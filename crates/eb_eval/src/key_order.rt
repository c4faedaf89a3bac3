// The order of keys.
ghost use Rattle.std.specs.Prelude.{◌≡◌};
ghost use Rattle.eb_eval.specs.Keys.{place_of, in_order};

use eb_base::Items;
use eb_scene::Key;

// Where a key stands: its variant, scene, number and type.
fn place(key: &Key) -> (u8, u8, u32, u8)
    ensures { result ≡ place_of key.now }
{
    match *key {
        Key::Comp {
            scene,
            object,
            kind,
        } => (0, scene, object, kind.number()),
        Key::Parent { scene, object } => (1, scene, object, 0),
        Key::Children { scene, object } => (2, scene, object, 0),
        Key::Exists { scene, object } => (3, scene, object, 0),
        Key::Asset { asset } => (4, 0, asset, 0),
    }
}

/// The same keys in ascending order, each once. Takes no memory.
pub fn in_order(keys: Items<Key>) -> Items<Key>
    ensures { result ≡ in_order keys }
{
    let mut keys = keys.into_vec();
    keys.sort_unstable_by_key(
        |key: &Key| -> (u8, u8, u32, u8)
            ensures { result ≡ place_of key.now }
        { place(key) },
    );
    keys.dedup();
    Items::of(keys)
}
