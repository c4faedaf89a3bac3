// Laws on calculations that ask after keys.
ghost use Rattle.std.specs.Prelude.{◌≡◌, [], ◌++◌, Bool, List, Ok, Err};
ghost use Rattle.eb_scene.specs.declared.keys.Key.{Key};
ghost use Rattle.eb_meaning.specs.declared.values.RunFault.{RunFault};
ghost use Rattle.eb_meaning.specs.Asks.{Answers, AreAlike, Asks, AsksOnly, EndAlike, EndsWith, Form, Gives, Of, ReadsAsk, Sight, Stops, asked, outcome, run, told};
ghost use Rattle.eb_meaning.specs.Meaning.{meaning};
ghost use Rattle.eb_meaning.specs.declared.values.Value.{Value};
ghost use Rattle.eb_meaning.specs.Statements.{body_acts, cell};
ghost use Rattle.eb_meaning.specs.declared.scopes.Scope.{Scope};
ghost use Rattle.eb_rules.specs.declared.plans.Addition.{Addition};
ghost use Rattle.eb_rules.specs.declared.plans.Step.{Step};
ghost use Rattle.eb_rules.specs.declared.plans.Term.{Term};

/// The law that a calculation gives and asks the same under two answers that are alike on what it asks.
pub fn alike_answers_end_alike()
    ensures { (g : Form) (o p : Answers) (m : Asks g) → AreAlike o p (asked o m) → EndAlike o p m }
{}

/// The law that a run gives what the calculation gives, or its first fault, and notes what it asks behind what was noted.
pub fn runs_note_what_they_ask()
    ensures told { (g : Form) (o : Answers) (m : Asks g) (keys : List Key) → run o m keys ≡ told (outcome o m) (keys ++ asked o m) }
    ensures gives { (g : Form) (o : Answers) (m : Asks g) (a : Of g) (keys : List Key) → run o m [] ≡ Gives a keys → EndsWith o m (Ok a) keys }
    ensures stops { (g : Form) (o : Answers) (m : Asks g) (e : RunFault) (keys : List Key) → run o m [] ≡ Stops e keys → EndsWith o m (Err e) keys }
{}

/// The law that what an expression, an addition or the statements of a body ask is asked by their reads alone: where each key
/// that a read asks passes a test, so does each key that these ask.
pub fn reads_alone_ask()
    ensures expressions { (p : Key → Bool) (o : Answers) (s : Sight) → ReadsAsk p o s → (x : Term) (names : List Value) → AsksOnly p o (meaning s x names) }
    ensures additions { (p : Key → Bool) (o : Answers) (s : Sight) → ReadsAsk p o s → (x : Addition) (names : List Value) → AsksOnly p o (cell s names x) }
    ensures statements { (p : Key → Bool) (o : Answers) (s : Sight) → ReadsAsk p o s → (xs : List Step) (scope : Scope) → AsksOnly p o (body_acts s xs scope) }
{}
