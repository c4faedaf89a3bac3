// Schemas, edits and projects of their texts.
ghost use Rattle.std.specs.Prelude.{IfSome};
ghost use Rattle.eb_scene.specs.Validity.{IsEdit};

use eb_scene::{Edit, EditFault, Key, Project};
use eb_scene_text::edit_read;
use eb_schema::Schema;
use serde_json::Value;
use std::alloc::Global;

/// The schema that a text is.
pub fn schema_of(alloc: Global, text: &str) -> Option<Schema> {
    let document = Value::from_str(alloc, text).ok()?;
    Schema::read(alloc, &document).ok()
}

/// The edit that a text is.
pub fn edit_of(alloc: Global, text: &str) -> Option<Edit>
    ensures { IfSome result IsEdit }
{
    let document = Value::from_str(alloc, text).ok()?;
    edit_read(alloc, &document).ok()
}

/// What a project answers to the edit that a text is.
pub fn apply(
    alloc: Global,
    project: &mut Project,
    text: &str,
) -> Option<Result<Vec<Key>, EditFault>> {
    let edit = edit_of(alloc, text)?;
    let answer = project.edit(&edit);
    Some(answer)
}

/// The project that edits make, none of which may be refused.
pub fn edited(alloc: Global, schema: &str, edits: &[&str]) -> Option<Project> {
    let mut project = Project::open(alloc, schema_of(alloc, schema)?);
    for text in edits {
        apply(alloc, &mut project, text)?.ok()?;
    }
    Some(project)
}
