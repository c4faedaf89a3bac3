// A recorder that tells whether two workers run beside each other.
use crate::notes::Note;
use eb_base::Memory;
use eb_worker::Recorder;
use std::alloc::Global;
use std::sync::atomic::{AtomicBool, AtomicU32, Ordering};

// How often a worker looks for the other.
const MOST_LOOKS: u32 = 100_000_000;

/// Each of two items raises its flag, turns until the other's is up, and notes where it never was. No list has an entry.
#[derive(Drop)]
pub struct Meeting {
    first: AtomicBool,
    second: AtomicBool,
    missed: AtomicU32,
}

impl Meeting {
    /// Nobody is there yet.
    pub fn new() -> Meeting {
        Meeting {
            first: AtomicBool::new(false),
            second: AtomicBool::new(false),
            missed: AtomicU32::new(0),
        }
    }

    /// How many items didn't see the other's flag.
    pub fn missed(&self) -> u32 {
        self.missed.load(Ordering::SeqCst)
    }

    fn meet(&self, mine: &AtomicBool, theirs: &AtomicBool) {
        mine.store(true, Ordering::SeqCst);
        for _ in 0..MOST_LOOKS {
            if theirs.load(Ordering::SeqCst) {
                return;
            }
        }
        self.missed.fetch_add(1, Ordering::SeqCst);
    }
}

impl Recorder<Note> for Meeting {
    ghost use Rattle.std.specs.Prelude.{[]};

    ghost lists = { λ _ _. [] };

    fn commands_of(&self, alloc: Global, item: u32) -> Result<Vec<Note>, Memory> {
        if item == 0 {
            self.meet(&self.first, &self.second);
        } else {
            self.meet(&self.second, &self.first);
        }
        Ok(Vec::new(alloc))
    }

    ghost numbered = { λ _ _. tt };
}
