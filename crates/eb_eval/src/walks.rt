// Walks through the objects of a scene, which note each key before they look at it.
ghost use Rattle.std.specs.Prelude.{◌≡◌, Some, OnOk};
ghost use Rattle.eb_scene.specs.Answers.{answer};
ghost use Rattle.eb_meaning.specs.Asks.{Goes, run};
ghost use Rattle.eb_eval.specs.Walks.{GoesInto, field_of, nearest, most_levels, levels_of, with_number, own_number, gathered, gathered_one, gathered_all};

use crate::fields::{held_at, number_in, value_at};
use eb_base::{AuthorNo, Items, Memory};
use eb_meaning::{Stop, Value};
use eb_rule_text::Reach;
use eb_rules::AuthoredField;
use eb_scene::{Given, Key, Project};

/// How many levels a walk goes at most.
#[tactic(auto, unfolding(crate::specs::Walks::most_levels))]
pub fn most_levels() -> u32
    ensures { result ≡ most_levels }
{
    64
}

/// How many levels a read goes down.
#[tactic(auto, unfolding(crate::specs::Walks::levels_of))]
pub fn levels_of(reach: &Reach) -> u32
    ensures { result ≡ levels_of reach.now }
{
    match reach {
        Reach::Children => 1,
        Reach::Within => most_levels(),
    }
}

/// A field of an object's component.
pub fn field_of(
    project: &Project,
    noted: &mut Items<Key>,
    scene: u8,
    object: u32,
    sought: &AuthoredField,
) -> Result<Option<Value>, Stop>
    ensures { Goes (run (answer project.now) (field_of scene object sought.now) noted.old) result noted.new }
{
    let kind = sought.kind;
    noted.push(Key::Comp {
        scene,
        object,
        kind,
    })?;
    match project.component(scene, object, kind) {
        Some(part) => Ok(Some(value_at(&sought.field, part.values.items()))),
        None => Ok(None),
    }
}

/// The field of the nearest ancestor that has the type, at most so many levels up.
#[tactic(auto, unfolding(crate::specs::Walks::nearest))]
pub fn nearest(
    project: &Project,
    noted: &mut Items<Key>,
    levels: u32,
    scene: u8,
    object: u32,
    sought: &AuthoredField,
) -> Result<Option<Value>, Stop>
    ensures { Goes (run (answer project.now) (nearest scene sought.now levels object) noted.old) result noted.new }
{
    if levels == 0 {
        return Ok(None);
    }
    noted.push(Key::Parent { scene, object })?;
    match project.parent(scene, object) {
        Some(parent) => match field_of(project, noted, scene, parent, sought)? {
            Some(value) => Ok(Some(value)),
            None => {
                let found = nearest(project, noted, levels - 1, scene, parent, sought)?;
                Ok(found)
            }
        },
        None => Ok(None),
    }
}

/// What is gathered: the numbers in one field, of the objects that have its type.
#[derive(Clone, Copy)]
pub struct Sought {
    /// The scene.
    pub scene: u8,
    /// The authoring type.
    pub kind: AuthorNo,
    /// How many fields of the type stand before it.
    pub place: usize,
}

// Adds the number of a component behind those before.
fn push_number(have: &mut Items<i64>, place: usize, values: &[Given]) -> Result<(), Memory>
    ensures { OnOk result (have.new ≡ with_number place (Some values.now) have.old) }
{
    have.push(number_in(held_at(place, values)))?;
    Ok(())
}

// An object's own number.
fn own_number(
    project: &Project,
    noted: &mut Items<Key>,
    sought: &Sought,
    object: u32,
    have: &mut Items<i64>,
) -> Result<(), Stop>
    ensures { GoesInto (run (answer project.now) (own_number sought.now object have.old) noted.old) result have.new noted.new }
{
    let Sought { scene, kind, place } = *sought;
    noted.push(Key::Comp {
        scene,
        object,
        kind,
    })?;
    match project.component(scene, object, kind) {
        Some(part) => {
            push_number(have, place, part.values.items())?;
            Ok(())
        }
        None => Ok(()),
    }
}

// An object's own number, and then those at most so many levels below it.
#[cycle(gathering)]
fn gathered_one(
    project: &Project,
    noted: &mut Items<Key>,
    sought: &Sought,
    levels: u32,
    object: u32,
    have: &mut Items<i64>,
) -> Result<(), Stop>
    ensures { GoesInto (run (answer project.now) (gathered_one sought.now (gathered sought.now levels) object have.old) noted.old) result have.new noted.new }
{
    own_number(project, noted, sought, object, have)?;
    gathered(project, noted, sought, levels, object, have)?;
    Ok(())
}

// The same of each of these objects.
#[cycle(gathering)]
fn gathered_all(
    project: &Project,
    noted: &mut Items<Key>,
    sought: &Sought,
    levels: u32,
    objects: &[u32],
    have: &mut Items<i64>,
) -> Result<(), Stop>
    ensures { GoesInto (run (answer project.now) (gathered_all sought.now (gathered sought.now levels) objects.now have.old) noted.old) result have.new noted.new }
{
    for object in objects {
        gathered_one(project, noted, sought, levels, *object, have)?;
    }
    Ok(())
}

/// The numbers of the objects below one, at most so many levels down, behind those before.
#[cycle(gathering)]
#[tactic(auto, unfolding(crate::specs::Walks::gathered))]
pub fn gathered(
    project: &Project,
    noted: &mut Items<Key>,
    sought: &Sought,
    levels: u32,
    object: u32,
    have: &mut Items<i64>,
) -> Result<(), Stop>
    ensures { GoesInto (run (answer project.now) (gathered sought.now levels object have.old) noted.old) result have.new noted.new }
{
    if levels == 0 {
        return Ok(());
    }
    let scene = sought.scene;
    noted.push(Key::Children { scene, object })?;
    let children = project.children(scene, object);
    gathered_all(project, noted, sought, levels - 1, children, have)?;
    Ok(())
}
