// The names of entities, the places of sections, and the handle of a living entity.
ghost use Rattle.std.specs.Prelude.{◌≡◌, ℕ, List, option_map, IfOk};
ghost use Rattle.std.specs.Cmp.{IsTotalOrder};
ghost use Rattle.std.specs.declared.cmp.Ordering.TheVariants.{Equal};
ghost use Rattle.eb_base.specs.Places.{place_cmp};
ghost use Rattle.eb_base.specs.Names.{IsName, name_cmp, name_of, name_text, part, first_part};

use crate::digits::{number_read, point_place};
use crate::memory::Memory;
use crate::texts::Text;
use std::alloc::Global;

/// The name of an entity: it stays the same from the scene that it was authored in to the running world.
/// Names are ordered by these fields, in this order.
#[derive(Clone, Copy, Debug, PartialEq, Eq, PartialOrd, Ord, Hash)]
pub struct Name {
    /// 0 for a baked entity, else the number of the play that created it.
    pub play: u32,
    /// The scene of a baked entity.
    pub scene: u32,
    /// The object of a baked entity.
    pub object: u32,
    /// 0 for the object's own entity, else the number of an extra one.
    pub extra: u32,
}

/// A section of a scene. Places are ordered by scene and section.
#[derive(Clone, Copy, Debug, PartialEq, Eq, PartialOrd, Ord, Hash)]
pub struct Place {
    /// The number of the scene.
    pub scene: u8,
    /// The number of the section in its scene.
    pub section: u8,
}

/// The section that an entity was loaded from, if it was.
pub type Tag = Option<Place>;

/// A handle of a living entity: where it stands, and when it was made.
#[derive(Clone, Copy, Debug, PartialEq, Eq, PartialOrd, Ord, Hash)]
pub struct Entity {
    /// The place in the table of entities.
    pub index: u32,
    /// How many entities had been made when this one was, itself counted; 0 for none.
    pub serial: u64,
}

impl Entity {
    /// The handle of no entity.
    pub const NULL: Entity = Entity {
        index: 0,
        serial: 0,
    };
}

/// The name that a text writes: four decimal numbers below 2^32, without sign or leading zeros, joined by points.
/// None exactly where the text has another form. Takes no memory.
pub fn name_read(text: &[u8]) -> Option<Name>
    ensures { result ≡ name_of text.now }
{
    let (play, text) = first_part_read(text)?;
    let (scene, text) = first_part_read(text)?;
    let (object, text) = first_part_read(text)?;
    let extra = part_read(text)?;
    Some(Name {
        play,
        scene,
        object,
        extra,
    })
}

/// The text of a name, which `name_read` reads back.
pub fn name_write(alloc: Global, name: &Name) -> Result<Text, Memory>
    ensures { IfOk result (λ text. text ≡ name_text name.now) }
{
    let Name {
        play,
        scene,
        object,
        extra,
    } = *name;
    let text = format!(in alloc; "{play}.{scene}.{object}.{extra}")?;
    Ok(Text::from_vec(text.into_bytes()))
}

// The number up to the first point, and what stands behind that point.
fn first_part_read(text: &[u8]) -> Option<(u32, &[u8])>
    ensures { option_map (λ p. (p.0, p.1.now)) result ≡ first_part text.now }
{
    let at = point_place(text)?;
    let number = part_read(&text[..at])?;
    Some((number, &text[at + 1..]))
}

// A number below 2^32.
fn part_read(text: &[u8]) -> Option<u32>
    ensures { result ≡ part text.now }
{
    let number = number_read(1 << 32, text)?;
    Some(number as u32)
}

/// The law that names read back, and that no other text is read as one.
pub fn names_read_back()
    ensures back { (name : Name) → IsName name → name_of (name_text name) ≡ Some name }
    ensures exact { (text : List ℕ) (name : Name) → name_of text ≡ Some name → text ≡ name_text name }
    ensures numbers { (text : List ℕ) (name : Name) → name_of text ≡ Some name → IsName name }
{}

/// The law that names and places are in total orders that tell all of them apart.
pub fn orders_are_exact()
    ensures names { IsTotalOrder name_cmp }
    ensures same_name { (a b : Name) → name_cmp a b ≡ Equal → a ≡ b }
    ensures places { IsTotalOrder place_cmp }
    ensures same_place { (a b : Place) → place_cmp a b ≡ Equal → a ≡ b }
{}
