// Laws of projects. They do nothing: each states what the definitions mean.
ghost use Rattle.std.specs.Prelude.{◌≡◌, Ok};
ghost use Rattle.eb_scene.specs.declared.edits.Edit.{Edit};
ghost use Rattle.eb_scene.specs.Projects.{Content, IsAscending};
ghost use Rattle.eb_scene.specs.Edits.{edited};
ghost use Rattle.eb_scene.specs.Validity.{IsValid, IsEdit};
ghost use Rattle.eb_scene.specs.Rebuilding.{all_edited, emptied, edits_of};

/// The law that an edit makes a valid project of a valid one, and that the lists of a valid project ascend.
pub fn projects_stay_valid()
    ensures ascending { (g : Content) → IsValid g → IsAscending g }
    ensures edited { (g h : Content) (e : Edit) → IsValid g → IsEdit e → edited g e ≡ Ok h → IsValid h }
{}

/// The law that the edits of a valid project's document make it of the schema alone.
pub fn projects_are_rebuilt()
    ensures { (g : Content) → IsValid g → all_edited 0 (emptied g) (edits_of g) ≡ Ok g }
{}
