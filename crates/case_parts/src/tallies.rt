// How many cases or rows were as they say.

/// How many passed and failed. A file that can't be played counts as one that failed.
#[derive(Clone, Copy, Default)]
pub struct Tally {
    pub passed: u64,
    pub failed: u64,
}

impl Tally {
    /// Counts one more.
    pub fn count(&mut self, has_passed: bool) {
        if has_passed {
            self.passed = self.passed.saturating_add(1);
        } else {
            self.failed = self.failed.saturating_add(1);
        }
    }

    /// Whether there were any, and all of them passed.
    pub fn is_good(&self) -> bool {
        self.failed == 0 && self.passed != 0
    }
}
