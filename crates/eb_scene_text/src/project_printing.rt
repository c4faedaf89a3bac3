// Printing a project.
ghost use Rattle.std.specs.Prelude.{◌≡◌, ◌++◌, map, flat_map, Some, option_map, Ok, IfOk, OnOk};
ghost use Rattle.std.specs.Map.{keys_of};
ghost use Rattle.serde_json.specs.Data.{array};
ghost use Rattle.serde_json.specs.View.{view, items_of};
ghost use Rattle.eb_json.specs.Documents.{document_of};
ghost use Rattle.eb_scene.specs.Projects.{objects_of};
ghost use Rattle.eb_scene_text.specs.ProjectForm.{project_of};
ghost use Rattle.eb_scene_text.specs.ProjectText.{number_or_null, object_data, object_found, objects_data, scene_data, scene_found, asset_data, asset_found, assets_data, scene_numbers, scenes_data, document, canonical};

use crate::value_printing::{fields_map, parts_map};
use eb_base::{Memory, Text};
use eb_scene::{Given, Object, Project};
use eb_schema::Schema;
use serde_json::{Map, Value, put};
use std::alloc::Global;

/// A parent, or null.
fn parent_value(parent: Option<u32>) -> Value
    ensures { view result ≡ number_or_null parent }
{
    match parent {
        Some(number) => Value::from(number),
        None => Value::Null,
    }
}

/// A mark, or null.
fn mark_value(mark: Option<u8>) -> Value
    ensures { view result ≡ number_or_null mark }
{
    match mark {
        Some(number) => Value::from(number),
        None => Value::Null,
    }
}

/// An object under its number.
#[tactic(auto, unfolding(crate::specs::ProjectText::object_data))]
fn object_value(
    alloc: Global,
    schema: &Schema,
    number: u32,
    object: &Object,
) -> Result<Value, Memory>
    ensures { IfOk result (λ v. view v ≡ object_data schema.now number object.now) }
{
    let components = parts_map(alloc, schema, object.components.items())?;
    let mut map = Map::new(alloc);
    put(&mut map, alloc, "components", Value::from(components))?;
    put(&mut map, alloc, "number", Value::from(number))?;
    put(&mut map, alloc, "parent", parent_value(object.parent))?;
    put(&mut map, alloc, "section", mark_value(object.mark))?;
    Ok(Value::from(map))
}

/// Puts an object at the end of a list, where it is there.
#[tactic(auto, unfolding(crate::specs::ProjectText::object_found))]
fn push_object(
    alloc: Global,
    list: &mut Vec<Value>,
    project: &Project,
    scene: u8,
    number: u32,
) -> Result<(), Memory>
    ensures { OnOk result (map view list.new.items ≡ map view list.old.items ++ object_found project.now.schema (objects_of project.now scene) number) }
{
    match project.object(scene, number) {
        Some(object) => {
            let value = object_value(alloc, project.schema(), number, object)?;
            list.push(value)?;
            Ok(())
        }
        None => Ok(()),
    }
}

/// The objects of a scene, ascending by number.
fn objects_value(alloc: Global, project: &Project, scene: u8) -> Result<Value, Memory>
    ensures { IfOk result (λ v. view v ≡ objects_data project.now.schema (objects_of project.now scene)) }
{
    let mut list = Vec::new(alloc);
    for number in project.objects(scene) {
        push_object(alloc, &mut list, project, scene, *number)?;
    }
    Ok(Value::from(list))
}

/// A scene under its number.
#[tactic(auto, unfolding(crate::specs::ProjectText::scene_data))]
fn scene_value(alloc: Global, project: &Project, scene: u8) -> Result<Value, Memory>
    ensures { IfOk result (λ v. view v ≡ scene_data project.now.schema scene (objects_of project.now scene)) }
{
    let objects = objects_value(alloc, project, scene)?;
    let mut map = Map::new(alloc);
    put(&mut map, alloc, "number", Value::from(scene))?;
    put(&mut map, alloc, "objects", objects)?;
    Ok(Value::from(map))
}

/// Puts a scene at the end of a list, where it is there.
#[tactic(auto, unfolding(crate::specs::ProjectText::scene_found))]
fn push_scene(
    alloc: Global,
    list: &mut Vec<Value>,
    project: &Project,
    scene: u8,
) -> Result<(), Memory>
    ensures { OnOk result (map view list.new.items ≡ map view list.old.items ++ scene_found project.now scene) }
{
    if project.has_scene(scene) {
        let value = scene_value(alloc, project, scene)?;
        list.push(value)?;
    }
    Ok(())
}

/// Those of these scenes that are there.
fn scenes_value(alloc: Global, project: &Project, scenes: &[u8]) -> Result<Value, Memory>
    ensures { IfOk result (λ v. view v ≡ array (items_of (flat_map (scene_found project.now) scenes.now))) }
{
    let mut list = Vec::new(alloc);
    for scene in scenes {
        push_scene(alloc, &mut list, project, *scene)?;
    }
    Ok(Value::from(list))
}

/// An asset under its number.
#[tactic(auto, unfolding(crate::specs::ProjectText::asset_data))]
fn asset_value(
    alloc: Global,
    schema: &Schema,
    number: u32,
    values: &[Given],
) -> Result<Value, Memory>
    ensures { IfOk result (λ v. view v ≡ asset_data schema.now number values.now) }
{
    let fields = fields_map(alloc, schema.asset_fields(), values)?;
    let mut map = Map::new(alloc);
    put(&mut map, alloc, "fields", Value::from(fields))?;
    put(&mut map, alloc, "number", Value::from(number))?;
    Ok(Value::from(map))
}

/// Puts an asset at the end of a list, where it is there.
#[tactic(auto, unfolding(crate::specs::ProjectText::asset_found))]
fn push_asset(
    alloc: Global,
    list: &mut Vec<Value>,
    project: &Project,
    number: u32,
) -> Result<(), Memory>
    ensures { OnOk result (map view list.new.items ≡ map view list.old.items ++ asset_found project.now number) }
{
    match project.asset(number) {
        Some(values) => {
            let value = asset_value(alloc, project.schema(), number, values)?;
            list.push(value)?;
            Ok(())
        }
        None => Ok(()),
    }
}

/// The assets, ascending by number.
fn assets_value(alloc: Global, project: &Project) -> Result<Value, Memory>
    ensures { IfOk result (λ v. view v ≡ assets_data project.now) }
{
    let mut list = Vec::new(alloc);
    for number in project.assets() {
        push_asset(alloc, &mut list, project, *number)?;
    }
    Ok(Value::from(list))
}

/// The scenes, ascending by number.
#[tactic(auto, unfolding(crate::specs::ProjectText::scene_numbers))]
fn all_scenes_value(alloc: Global, project: &Project) -> Result<Value, Memory>
    ensures { IfOk result (λ v. view v ≡ scenes_data project.now) }
{
    let value = scenes_value(
        alloc,
        project,
        &[1, 2, 3, 4, 5, 6, 7, 8, 9, 10, 11, 12, 13, 14, 15, 16],
    )?;
    Ok(value)
}

/// The document of a project.
#[tactic(auto, unfolding(crate::specs::ProjectText::document))]
fn document_value(alloc: Global, project: &Project) -> Result<Value, Memory>
    ensures { IfOk result (λ v. view v ≡ document project.now) }
{
    let assets = assets_value(alloc, project)?;
    let scenes = all_scenes_value(alloc, project)?;
    let mut map = Map::new(alloc);
    put(&mut map, alloc, "assets", assets)?;
    put(&mut map, alloc, "scenes", scenes)?;
    Ok(Value::from(map))
}

/// The canonical text of a project: its document without spaces, with assets, scenes and objects ascending by number
/// and every field present, and a line feed. Read under the project's schema it is the same project.
/// `docs/project-text.md`, "Canonical text".
#[tactic(auto, unfolding(crate::specs::ProjectText::canonical))]
pub fn project_text(alloc: Global, project: &Project) -> Result<Text, Memory>
    ensures text { IfOk result (λ text. text ≡ canonical project.now) }
    ensures reads_back { IfOk result (λ text. option_map (project_of project.now.schema) (document_of text) ≡ Some (Ok project.now)) }
{
    project.schema(); // tells that the project is valid
    let value = document_value(alloc, project)?;
    let mut text = value.to_string(alloc)?.into_bytes();
    text.push(b'\n')?;
    Ok(Text::from_vec(text))
}
