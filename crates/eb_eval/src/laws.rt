// Laws of runs. They do nothing: each states what the definitions mean.
ghost use Rattle.std.specs.Prelude.{◌≡◌, Ok, false};
ghost use Rattle.std.specs.List.{Contains};
ghost use Rattle.eb_scene.specs.declared.edits.Edit.{Edit};
ghost use Rattle.eb_scene.specs.declared.keys.Key.{Key};
ghost use Rattle.eb_scene.specs.Answers.{answer, has_key};
ghost use Rattle.eb_scene.specs.Edits.{edited};
ghost use Rattle.eb_scene.specs.Projects.{Content};
ghost use Rattle.eb_scene.specs.Touched.{touched};
ghost use Rattle.eb_scene.specs.Validity.{IsValid};
ghost use Rattle.eb_rules.specs.Kept.{Kept};
ghost use Rattle.eb_meaning.specs.Asks.{AreAlike};
ghost use Rattle.eb_eval.specs.declared.ids.RunId.{RunId};
ghost use Rattle.eb_eval.specs.Reruns.{BakesAlike, is_rerun};
ghost use Rattle.eb_eval.specs.Runs.{IsRun, reads_of_run};

/// The law that the same comes of a run over two projects that answer alike on its reads, and that it reads the same.
pub fn alike_answers_bake_alike()
    ensures { (g h : Content) (rules : Kept) (id : RunId) → AreAlike (answer g) (answer h) (reads_of_run g rules id) → BakesAlike g h rules id }
{}

/// The law that a key that a run reads, and that answers otherwise after an edit, is touched by it: of a run that the project
/// has before and after, a key that the edit doesn't touch answers as before.
pub fn what_is_read_and_changes_is_touched()
    ensures { (g h : Content) (e : Edit) (rules : Kept) (id : RunId) (k : Key) → IsValid g → edited g e ≡ Ok h → IsRun rules g id → IsRun rules h id
        → Contains (reads_of_run g rules id) k → has_key (touched g e) k ≡ false → answer h k ≡ answer g k }
{}

/// The law that a run of the project after an edit that isn't made anew keeps what came of it, and its reads.
pub fn runs_not_made_anew_stay()
    ensures { (g h : Content) (e : Edit) (rules : Kept) (id : RunId) → IsValid g → edited g e ≡ Ok h → IsRun rules h id
        → is_rerun g rules e id ≡ false → BakesAlike g h rules id }
{}
