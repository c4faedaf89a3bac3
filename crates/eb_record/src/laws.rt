// Laws of what is kept. They do nothing: each states what the definitions mean.
ghost use Rattle.std.specs.Prelude.{◌≡◌, ◌≢◌, Some, None};
ghost use Rattle.std.specs.FinMap.{get, insert, remove};
ghost use Rattle.eb_eval.specs.Ran.{Ran};
ghost use Rattle.eb_eval.specs.declared.ids.RunId.{RunId};
ghost use Rattle.eb_record.specs.Records.{Kept, run_name};

/// The law that where a run is put it is the one of its id, and that each other run is as it was.
pub fn others_stay_where_one_is_put()
    ensures new { (kept : Kept) (id : RunId) (run : Ran) → get (insert kept (run_name id) run) (run_name id) ≡ Some run }
    ensures others { (kept : Kept) (a b : RunId) (run : Ran) → b ≢ a → get (insert kept (run_name a) run) (run_name b) ≡ get kept (run_name b) }
{}

/// The law that where a run is undone there is none of its id, and that each other run is as it was.
pub fn others_stay_where_one_is_undone()
    ensures none { (kept : Kept) (id : RunId) → get (remove kept (run_name id)) (run_name id) ≡ None }
    ensures others { (kept : Kept) (a b : RunId) → b ≢ a → get (remove kept (run_name a)) (run_name b) ≡ get kept (run_name b) }
{}
