// Edits of the objects of one scene, each with its refusals in order.
ghost use Rattle.std.specs.Prelude.{◌≡◌, ◌+◌, [], ◌∷◌, false, nat_le, nat_lt, length, IfOk};
ghost use Rattle.eb_scene.specs.Trees.{height, subtree};
ghost use Rattle.eb_scene.specs.Projects.{above, most_depth};
ghost use Rattle.eb_scene.specs.Edits.{Tells, is_past, is_there, object_added, section_set, parent_set, object_removed};

use crate::edits::EditFault;
use crate::objects::Object;
use crate::scenes::Scene;
use crate::tree::{MOST_DEPTH, depth, height, meets};
use eb_base::{Items, Memory};
use std::alloc::Global;

/// Most objects of a scene.
const MOST_OBJECTS: usize = 16384;

/// The last section.
const LAST_SECTION: u32 = 63;

/// Whether an object may stand below this one: it is none, or there.
fn is_there(scene: &Scene, parent: Option<u32>) -> bool
    ensures { result ≡ is_there scene.now parent }
{
    match parent {
        Some(parent) => scene.has(parent),
        None => true,
    }
}

/// Whether an object below this one would stand too deep.
fn is_deep(scene: &Scene, parent: Option<u32>) -> bool
    ensures { result ≡ nat_le most_depth (length (above most_depth scene.now parent)) }
{
    depth(scene, MOST_DEPTH, parent) >= MOST_DEPTH
}

/// Whether a mark is above the last section.
fn is_past(section: Option<u32>) -> bool
    ensures { result ≡ is_past section }
{
    match section {
        Some(section) => section > LAST_SECTION,
        None => false,
    }
}

/// A mark that isn't.
fn mark_of(section: Option<u32>) -> Option<u8>
    requires { is_past section ≡ false }
    ensures { result ≡ section }
{
    match section {
        Some(section) => Some(section as u8),
        None => None,
    }
}

/// Makes an object without components.
pub fn add_object(
    scene: &mut Scene,
    alloc: Global,
    number: u32,
    parent: Option<u32>,
    section: Option<u32>,
) -> Result<(), EditFault>
    ensures { Tells result scene.old scene.new (object_added scene.old number parent section) }
{
    if scene.has(number) {
        return Err(EditFault::ObjectTaken);
    }
    if !is_there(scene, parent) {
        return Err(EditFault::NoParent);
    }
    if scene.len() >= MOST_OBJECTS {
        return Err(EditFault::ObjectLimit);
    }
    if is_deep(scene, parent) {
        return Err(EditFault::DepthLimit);
    }
    if is_past(section) {
        return Err(EditFault::SectionRange);
    }
    let object = Object {
        number,
        parent,
        mark: mark_of(section),
        components: Items::new(alloc),
    };
    scene.put(number, object)?;
    Ok(())
}

/// Gives an object a mark, or takes it away.
pub fn set_section(scene: &mut Scene, number: u32, section: Option<u32>) -> Result<(), EditFault>
    ensures { Tells result scene.old scene.new (section_set scene.old number section) }
{
    if !scene.has(number) {
        return Err(EditFault::NoObject);
    }
    if is_past(section) {
        return Err(EditFault::SectionRange);
    }
    scene.set_mark(number, mark_of(section));
    Ok(())
}

/// Whether an object and those below it would stand too deep below this one.
fn is_deep_below(
    scene: &Scene,
    alloc: Global,
    number: u32,
    parent: Option<u32>,
) -> Result<bool, Memory>
    ensures { IfOk result (λ deep. deep ≡ nat_lt most_depth (length (above most_depth scene.now parent) + height most_depth scene.now (number ∷ []))) }
{
    let below = height(scene, alloc, MOST_DEPTH, number)?;
    Ok(depth(scene, MOST_DEPTH, parent) + below > MOST_DEPTH)
}

/// Puts an object below another one, or below none.
pub fn set_parent(
    scene: &mut Scene,
    alloc: Global,
    number: u32,
    parent: Option<u32>,
) -> Result<(), EditFault>
    ensures { Tells result scene.old scene.new (parent_set scene.old number parent) }
{
    if !scene.has(number) {
        return Err(EditFault::NoObject);
    }
    if !is_there(scene, parent) {
        return Err(EditFault::NoParent);
    }
    if meets(scene, MOST_DEPTH, parent, number) {
        return Err(EditFault::Cycle);
    }
    if is_deep_below(scene, alloc, number, parent)? {
        return Err(EditFault::DepthLimit);
    }
    scene.set_parent(number, parent)?;
    Ok(())
}

/// Takes an object out, and all below it, which are in `gone`. Takes no memory.
pub fn remove_object(scene: &mut Scene, number: u32, gone: Vec<u32>) -> Result<(), EditFault>
    requires { gone.items ≡ subtree most_depth scene.old (number ∷ []) }
    ensures { Tells result scene.old scene.new (object_removed scene.old number) }
{
    if !scene.has(number) {
        return Err(EditFault::NoObject);
    }
    scene.take_all(gone);
    Ok(())
}
