// Walks through the objects of a scene, up from one and down.
ghost use Rattle.std.specs.Prelude.{◌≡◌, ◌≤◌, Some, [], ◌∷◌, length, IfOk};
ghost use Rattle.eb_scene.specs.Numbers.{has_number};
ghost use Rattle.eb_scene.specs.Trees.{next_level, height, subtree};
ghost use Rattle.eb_scene.specs.Projects.{above, first_mark, section};

use crate::scenes::Scene;
use eb_base::Memory;
use std::alloc::Global;

/// Most objects on the way up from one, itself included.
pub const MOST_DEPTH: u32 = 64;

#[tactic(auto, using(crate::proofs::TreeFacts::above_some, crate::proofs::TreeFacts::above_none, crate::proofs::TreeFacts::above_end))]
/// The first mark on the way up from here, at most so many objects, or else 0.
fn mark_from(scene: &Scene, levels: u32, from: Option<u32>) -> u8
    ensures { result ≡ first_mark scene.now (above levels scene.now from) }
{
    let mut at = from;
    for i in 0..levels {
        let Some(number) = at else { return 0 };
        if let Some(mark) = scene.mark(number) {
            return mark;
        }
        at = scene.parent(number);
    }
    0
}

/// How many objects are on the way up from here, at most so many.
#[tactic(auto, using(crate::proofs::TreeFacts::above_some, crate::proofs::TreeFacts::above_none, crate::proofs::TreeFacts::above_end))]
pub fn depth(scene: &Scene, levels: u32, from: Option<u32>) -> u32
    ensures depth { result ≡ length (above levels scene.now from) }
    ensures most { result ≤ levels }
{
    let mut at = from;
    for i in 0..levels {
        let Some(number) = at else { return i };
        at = scene.parent(number);
    }
    levels
}

/// The section of an object: the mark of the nearest one with a mark, itself first, then upward, or else 0.
pub fn section(scene: &Scene, number: u32) -> u8
    ensures { result ≡ section scene.now number }
{
    mark_from(scene, MOST_DEPTH, Some(number))
}

/// Whether an object is on the way up from here, at most so many.
#[tactic(auto, using(crate::proofs::TreeFacts::above_some, crate::proofs::TreeFacts::above_none, crate::proofs::TreeFacts::above_end))]
pub fn meets(scene: &Scene, levels: u32, from: Option<u32>, wanted: u32) -> bool
    ensures { result ≡ has_number (above levels scene.now from) wanted }
{
    let mut at = from;
    for i in 0..levels {
        let Some(number) = at else { return false };
        if number == wanted {
            return true;
        }
        at = scene.parent(number);
    }
    false
}

/// The objects right below these.
fn next_level(scene: &Scene, alloc: Global, level: &[u32]) -> Result<Vec<u32>, Memory>
    ensures { IfOk result (λ next. next.items ≡ next_level scene.now level.now) }
{
    let mut next = Vec::new(alloc);
    for number in level {
        next.extend_from_slice(scene.children(*number))?;
    }
    Ok(next)
}

/// A list of one number.
fn single(alloc: Global, number: u32) -> Result<Vec<u32>, Memory>
    ensures { IfOk result (λ list. list.items ≡ number ∷ []) }
{
    let mut list = Vec::new(alloc);
    list.push(number)?;
    Ok(list)
}

/// How many levels there are from an object down, at most so many.
#[tactic(auto, using(crate::proofs::TreeFacts::height_end))]
pub fn height(scene: &Scene, alloc: Global, levels: u32, from: u32) -> Result<u32, Memory>
    ensures height { IfOk result (λ h. h ≡ height levels scene.now (from ∷ [])) }
    ensures most { IfOk result (λ h. h ≤ levels) }
{
    let mut level = single(alloc, from)?;
    for i in 0..levels {
        if level.is_empty() {
            return Ok(i);
        }
        level = next_level(scene, alloc, &level)?;
    }
    Ok(levels)
}

/// An object and all below it, at most so many levels.
pub fn subtree(scene: &Scene, alloc: Global, levels: u32, from: u32) -> Result<Vec<u32>, Memory>
    ensures { IfOk result (λ all. all.items ≡ subtree levels scene.now (from ∷ [])) }
{
    let mut all = Vec::new(alloc);
    let mut level = single(alloc, from)?;
    for i in 0..levels {
        all.extend_from_slice(&level)?;
        level = next_level(scene, alloc, &level)?;
    }
    Ok(all)
}
