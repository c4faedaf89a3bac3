// The components of an object.
ghost use Rattle.std.specs.Prelude.{◌≡◌, OnOk, OnErr, length, slice_set};
ghost use Rattle.std.specs.Option.{option_copied};
ghost use Rattle.std.specs.List.Sorted.{IsSearchInRange};
ghost use Rattle.eb_schema.specs.TypeOrder.{place_of};
ghost use Rattle.eb_scene.specs.Projects.{part_of};
ghost use Rattle.eb_scene.specs.Parts.{position};
ghost use Rattle.eb_scene.specs.Edits.{with_part, without_part, with_value};

use crate::assets::set_item;
use crate::objects::{Given, Object, Part};
use eb_base::{AuthorNo, Items, Memory};
use std::alloc::Global;
use std::cmp::Ordering;
use std::mem;

/// The component of a type, if there is one. Takes no memory, and time by the number of components, at most 16.
pub fn part_of(parts: &[Part], kind: AuthorNo) -> Option<&Part>
    ensures { option_copied result ≡ part_of parts.now kind }
{
    for part in parts {
        if part.kind == kind {
            return Some(part);
        }
    }
    None
}

/// The place of the first component of a type.
fn position(parts: &[Part], kind: AuthorNo) -> Option<usize>
    ensures { result ≡ position parts.now kind }
{
    for index in 0..parts.len() {
        if parts[index].kind == kind {
            return Some(index);
        }
    }
    None
}

/// The place of the first component of a type, or else that of the first one of a higher type.
#[tactic(auto, using(crate::proofs::PartFacts::further_next, crate::proofs::PartFacts::further_none))]
fn place(parts: &[Part], kind: AuthorNo) -> Result<usize, usize>
    ensures { result ≡ place_of (λ p. p.kind) kind parts.now }
{
    for index in 0..parts.len() {
        match kind.number().cmp(&parts[index].kind.number()) {
            Ordering::Less => return Err(index),
            Ordering::Equal => return Ok(index),
            Ordering::Greater => {}
        }
    }
    Err(parts.len())
}

/// Puts a component in the place of the one of its type, or adds it. Where there is no memory, nothing changes.
pub fn put_part(object: &mut Object, part: Part) -> Result<(), Memory>
    ensures ok { OnOk result (object.new ≡ with_part part object.old) }
    ensures err { OnErr result (object.new ≡ object.old) }
{
    match place(object.components.items(), part.kind) {
        Ok(at) => {
            object.components.set(at, part);
            Ok(())
        }
        Err(at) => {
            object.components.insert(at, part)?;
            Ok(())
        }
    }
}

/// Takes the first component of a type away, if there is one. Takes no memory.
pub fn take_part(object: &mut Object, kind: AuthorNo)
    ensures { object.new ≡ without_part kind object.old }
{
    match position(object.components.items(), kind) {
        Some(at) => {
            object.components.remove(at);
        }
        None => {}
    }
}

/// Gives a field of the component of a type another value, if there is one. Takes no memory.
pub fn set_value(object: &mut Object, alloc: Global, kind: AuthorNo, place: usize, value: Given)
    ensures { object.new ≡ with_value kind place value object.old }
{
    match position(object.components.items(), kind) {
        Some(at) => {
            let mut parts = mem::replace(&mut object.components, Items::new(alloc)).into_vec();
            set_item(&mut parts[at].values, place, value);
            object.components = Items::of(parts);
        }
        None => {}
    }
}
