// Laws of what an edit makes anew. They do nothing: each states what the definitions mean.
ghost use Rattle.std.specs.Prelude.{◌≡◌, Ok, length};
ghost use Rattle.std.specs.FinMap.{len};
ghost use Rattle.eb_scene.specs.declared.edits.Edit.{Edit};
ghost use Rattle.eb_scene.specs.Edits.{edited};
ghost use Rattle.eb_scene.specs.Projects.{Content, IsAscending};
ghost use Rattle.eb_scene.specs.Validity.{IsValid};
ghost use Rattle.eb_rules.specs.Kept.{Kept};
ghost use Rattle.eb_eval.specs.Runs.{runs_of};
ghost use Rattle.eb_rerun.specs.Again.{evaluated_by, kept_after};
ghost use Rattle.eb_rerun.specs.Recorded.{recorded, rerun};

/// The law that where all runs of a project are kept, an edit evaluates exactly those that it makes anew, and all runs of the
/// project after it are kept then; and that as many are kept as the project has.
pub fn renewals_are_exact()
    ensures kept { (rules : Kept) (g h : Content) (e : Edit) → IsValid g → edited g e ≡ Ok h → kept_after rules g e h ≡ recorded rules h }
    ensures again { (rules : Kept) (g h : Content) (e : Edit) → IsValid g → edited g e ≡ Ok h → evaluated_by rules g e h ≡ rerun rules g e h }
    ensures count { (rules : Kept) (g : Content) → IsAscending g → len (recorded rules g) ≡ length (runs_of rules g) }
{}
