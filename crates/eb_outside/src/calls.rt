// The calls of an object in memory, of which those fail that a list names.
ghost use Rattle.std.specs.Prelude.{◌≡◌, ◌↔◌, nat_eq, IsErr, IsTrue};
ghost use Rattle.std.specs.List.{list_any};
ghost use Rattle.eb_outside.specs.Calls.{CallCount, no_calls, next_fails, counted};
ghost use Rattle.eb_outside.specs.Causes.{HasCause};

use crate::errors::Fault;
use std::marker::Model;

/// Counts the calls of an object and says which fail.
#[derive(Debug, Drop)]
pub struct Calls {
    made: u64,
    fails: Vec<u32>,
    faults: u64,
}

impl Model for Calls {
    ghost use Rattle.eb_outside.specs.Calls.{CallCount};

    ghost Value = { CallCount };

    ghost view = { λ c. record { made = c.made; fails = c.fails.items; faults = c.faults } };
}

impl Calls {
    /// No call yet. `fails` holds the numbers, from 0, of the calls that fail. Takes no memory.
    pub fn new(fails: Vec<u32>) -> Self
        ensures { result ≡ no_calls fails.items }
    {
        Calls {
            made: 0,
            fails,
            faults: 0,
        }
    }

    /// Counts one more call, and the fault where it is one that fails.
    pub fn next(&mut self) -> Result<(), Fault>
        ensures failed { IsErr result ↔ IsTrue (next_fails self.old) }
        ensures counted { self.new ≡ counted self.old }
        ensures cause { HasCause self.old.faults self.new.faults result }
    {
        let fails = is_among(&self.fails, self.made);
        self.made = self.made.saturating_add(1);
        if fails {
            self.faults = self.faults.saturating_add(1);
            return Err(Fault);
        }
        Ok(())
    }

    /// How many calls have failed.
    pub fn faults(&self) -> u64
        ensures { result ≡ self.now.faults }
    {
        self.faults
    }
}

fn is_among(calls: &[u32], call: u64) -> bool
    ensures { result ≡ list_any (λ n. nat_eq n call) calls.now }
{
    calls.iter().any(|n| u64::from(*n) == call)
}
