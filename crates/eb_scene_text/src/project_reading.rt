// Reading the document of a project.
ghost use Rattle.std.specs.Prelude.{◌≡◌, pos};
ghost use Rattle.std.specs.List.{AllByRecursion};
ghost use Rattle.serde_json.specs.View.{view};
ghost use Rattle.eb_scene.specs.Rebuilding.{all_edited};
ghost use Rattle.eb_scene.specs.Validity.{IsEdit};
ghost use Rattle.eb_scene_text.specs.ReadFaults.{Tells, Makes, refused_as};
ghost use Rattle.eb_scene_text.specs.ProjectForm.{made_by, project_of};

use crate::draft_edits::edits_of;
use crate::faults::ProjectFault;
use crate::project_forms::DraftForm;
use eb_json::Form;
use eb_scene::{Edit, EditFault, Project};
use eb_schema::Schema;
use serde_json::Value;
use std::alloc::Global;

/// The refusal of an edit of this number.
fn refused(index: u32, fault: EditFault) -> ProjectFault
    ensures { result ≡ refused_as index fault }
{
    match fault {
        EditFault::Memory => ProjectFault::Memory,
        fault => ProjectFault::Rule { index, fault },
    }
}

/// Does edits one after the other, up to the first refused one.
fn edit_all(project: &mut Project, edits: &[Edit]) -> Result<(), ProjectFault>
    requires { AllByRecursion IsEdit edits.now }
    ensures { Makes result project.new (made_by (all_edited 0 project.old edits.now)) }
{
    let mut index: u32 = 0;
    for edit in edits {
        match project.edit(edit) {
            Ok(_) => {}
            Err(fault) => return Err(refused(index, fault)),
        }
        index = index.saturating_add(1);
    }
    Ok(())
}

/// The project that a document is, under a schema. `NotForm` gives the first node that has another form, in the whole
/// document. Then the edits that it stands for are done one after the other, numbered from 0, and `Rule` gives the
/// first one that is refused. `docs/project-text.md`, "Projects".
#[tactic(auto, unfolding(crate::specs::ProjectForm::project_of))]
pub fn project_read(
    alloc: Global,
    document: &Value,
    schema: &Schema,
) -> Result<Project, ProjectFault>
    ensures { Tells result (project_of schema.now (view document.now)) }
{
    let draft = DraftForm.read(alloc, 0, document)?;
    let edits = edits_of(alloc, draft)?;
    let mut project = Project::open(alloc, schema.copy(alloc)?);
    edit_all(&mut project, &edits)?;
    Ok(project)
}
