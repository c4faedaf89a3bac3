// What is looked at: the reads of the rule language, answered by whoever has the project or the entities at hand.
ghost use Rattle.std.specs.Prelude.{◌≡◌};
ghost use Rattle.eb_meaning.specs.Asks.{Answers, Sight, Goes, run};

use crate::values::{Stop, Value};
use eb_base::Items;
use eb_rules::{FindTerm, ReadTerm};
use eb_scene::Key;

/// Whoever answers the reads of one run. What a read means is a calculation that asks after keys (`sight`), and what each key
/// answers is `answers`. Each call notes the keys that it looks at behind those that are noted, before it looks, whether
/// they are there or not, up to its fault.
pub trait Reads {
    /// What each key answers.
    ghost answers: { Self → Answers };

    /// What each read means.
    ghost sight: { Self → Sight };

    /// The value of a read that always has one.
    fn read(&self, noted: &mut Items<Key>, term: &ReadTerm) -> Result<Value, Stop>
        ensures { Goes (run (answers self.now) ((sight self.now).read term.now) noted.old) result noted.new };

    /// The value of a read that finds one or nothing.
    fn find(&self, noted: &mut Items<Key>, term: &FindTerm) -> Result<Option<Value>, Stop>
        ensures { Goes (run (answers self.now) ((sight self.now).find term.now) noted.old) result noted.new };

    /// The value of the name of an extra: how many extras of the baker stand before it in the text.
    fn extra(&self, number: usize) -> Value
        ensures { result ≡ (sight self.now).extra number };
}
