// The keys that edits touch.
ghost use Rattle.std.specs.Prelude.{◌≡◌, [], ◌∷◌, ◌++◌, IfOk, OnOk, map, flat_map};
ghost use Rattle.eb_scene.specs.declared.keys.Key.TheVariants as key;
ghost use Rattle.eb_scene.specs.Projects.{numbered, parent_at};
ghost use Rattle.eb_scene.specs.Edits.{type_named};
ghost use Rattle.eb_scene.specs.Touched.{children_key, part_key, part_keys, object_keys};

use crate::component_edits::type_named;
use crate::keys::Key;
use crate::objects::Part;
use crate::scenes::Scene;
use eb_base::Memory;
use eb_schema::Schema;
use std::alloc::Global;

/// A list of one key.
pub fn single_key(alloc: Global, key: Key) -> Result<Vec<Key>, Memory>
    ensures { IfOk result (λ keys. keys.items ≡ key ∷ []) }
{
    let mut keys = Vec::new(alloc);
    keys.push(key)?;
    Ok(keys)
}

/// Adds the children of an object, if it is one.
fn push_children(keys: &mut Vec<Key>, scene: u8, parent: Option<u32>) -> Result<(), Memory>
    ensures { OnOk result (keys.new.items ≡ keys.old.items ++ children_key scene parent) }
{
    match parent {
        Some(object) => {
            keys.push(Key::Children { scene, object })?;
            Ok(())
        }
        None => Ok(()),
    }
}

/// Adds the components of an object.
fn push_parts(keys: &mut Vec<Key>, scene: u8, object: u32, parts: &[Part]) -> Result<(), Memory>
    ensures { OnOk result (keys.new.items ≡ keys.old.items ++ map (λ p. key.Comp scene object p.kind) parts.now) }
{
    for part in parts {
        keys.push(Key::Comp {
            scene,
            object,
            kind: part.kind,
        })?;
    }
    Ok(())
}

/// Adds the components of an object that is found in a scene.
fn push_found(keys: &mut Vec<Key>, found: &Scene, scene: u8, object: u32) -> Result<(), Memory>
    ensures { OnOk result (keys.new.items ≡ keys.old.items ++ part_keys scene object (numbered found.now object)) }
{
    match found.get(object) {
        Some(there) => {
            push_parts(keys, scene, object, there.components.items())?;
            Ok(())
        }
        None => Ok(()),
    }
}

/// Adds what an object is beside its components.
fn push_place(keys: &mut Vec<Key>, scene: u8, object: u32) -> Result<(), Memory>
    ensures { OnOk result (keys.new.items ≡ keys.old.items ++ key.Exists scene object ∷ key.Parent scene object ∷ key.Children scene object ∷ []) }
{
    keys.push(Key::Exists { scene, object })?;
    keys.push(Key::Parent { scene, object })?;
    keys.push(Key::Children { scene, object })?;
    Ok(())
}

/// Adds all keys of an object.
fn push_object(keys: &mut Vec<Key>, found: &Scene, scene: u8, object: u32) -> Result<(), Memory>
    ensures { OnOk result (keys.new.items ≡ keys.old.items ++ object_keys scene found.now object) }
{
    push_place(keys, scene, object)?;
    push_found(keys, found, scene, object)?;
    Ok(())
}

/// Adds all keys of these objects.
fn push_objects(
    keys: &mut Vec<Key>,
    found: &Scene,
    scene: u8,
    objects: &[u32],
) -> Result<(), Memory>
    ensures { OnOk result (keys.new.items ≡ keys.old.items ++ flat_map (object_keys scene found.now) objects.now) }
{
    for object in objects {
        push_object(keys, found, scene, *object)?;
    }
    Ok(())
}

/// A new object.
pub fn added_keys(
    alloc: Global,
    scene: u8,
    object: u32,
    parent: Option<u32>,
) -> Result<Vec<Key>, Memory>
    ensures { IfOk result (λ keys. keys.items ≡ key.Exists scene object ∷ children_key scene parent) }
{
    let mut keys = single_key(alloc, Key::Exists { scene, object })?;
    push_children(&mut keys, scene, parent)?;
    Ok(keys)
}

/// An object that goes, and all below it, which are in `gone`.
pub fn removed_keys(
    alloc: Global,
    found: &Scene,
    scene: u8,
    object: u32,
    gone: &[u32],
) -> Result<Vec<Key>, Memory>
    ensures { IfOk result (λ keys. keys.items ≡ flat_map (object_keys scene found.now) gone.now ++ children_key scene (parent_at found.now object)) }
{
    let mut keys = Vec::new(alloc);
    push_objects(&mut keys, found, scene, gone)?;
    push_children(&mut keys, scene, found.parent(object))?;
    Ok(keys)
}

/// An object that gets another parent.
pub fn moved_keys(
    alloc: Global,
    found: &Scene,
    scene: u8,
    object: u32,
    parent: Option<u32>,
) -> Result<Vec<Key>, Memory>
    ensures { IfOk result (λ keys. keys.items ≡ (key.Parent scene object ∷ children_key scene (parent_at found.now object)) ++ children_key scene parent) }
{
    let mut keys = single_key(alloc, Key::Parent { scene, object })?;
    let old = found.parent(object);
    push_children(&mut keys, scene, old)?;
    push_children(&mut keys, scene, parent)?;
    Ok(keys)
}

/// A component of the type of a name.
pub fn part_key(
    alloc: Global,
    schema: &Schema,
    scene: u8,
    object: u32,
    kind: &[u8],
) -> Result<Vec<Key>, Memory>
    ensures { IfOk result (λ keys. keys.items ≡ part_key scene object (type_named schema.now kind.now)) }
{
    match type_named(schema, kind) {
        Some(authoring) => {
            let keys = single_key(
                alloc,
                Key::Comp {
                    scene,
                    object,
                    kind: authoring.number,
                },
            )?;
            Ok(keys)
        }
        None => Ok(Vec::new(alloc)),
    }
}
