// Runs that were evaluated, and their count.
ghost use Rattle.std.specs.Prelude.{◌≡◌, ◌+◌};

use crate::outcomes::Outcome;
use eb_base::{Items, Steps};
use eb_scene::Key;
use std::marker::Model;
use std::sync::ledger::Ledger;

/// A run that was evaluated and counted: the keys that it looked at, and what came of it. It can't be copied, and every one
/// was counted once, by `Sealed::open`.
#[derive(Drop)]
pub struct Run {
    pub(crate) keys: Items<Key>,
    pub(crate) outcome: Outcome,
}

impl Model for Run {
    ghost use Rattle.eb_eval.specs.Ran.{Ran, coded_ran};

    ghost Value = { Ran };

    ghost coded = { coded_ran };

    ghost view = { λ r. record { keys = r.keys; outcome = r.outcome } };
}

impl Run {
    /// The keys that the run looked at, found or not, up to its fault: ascending by variant, scene, number and type, each once.
    /// Takes no memory.
    pub fn keys(&self) -> &[Key]
        ensures { result.now ≡ self.now.keys }
    {
        self.keys.items()
    }

    /// What came of it. Takes no memory.
    pub fn outcome(&self) -> &Outcome
        ensures { result.now ≡ self.now.outcome }
    {
        &self.outcome
    }
}

/// A run that was evaluated and isn't counted yet. Contracts see the run; no call lends it.
#[derive(Drop)]
pub struct Sealed {
    pub(crate) run: Run,
}

impl Model for Sealed {
    ghost use Rattle.eb_eval.specs.Ran.{Ran, coded_ran};

    ghost Value = { Ran };

    ghost coded = { coded_ran };

    ghost view = { λ s. s.run };
}

impl Sealed {
    /// The run, which is counted. Takes no memory.
    pub fn open<L: Ledger>(self, steps: &mut Steps<L>) -> Run
        ensures run { result ≡ self }
        ensures steps { steps.new ≡ steps.old + 1 }
    {
        steps.tick();
        self.run
    }
}
