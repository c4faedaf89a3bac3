// A recorder whose lists are known by heart: of item 0 two notes, of item 2 one, and of every other none.
ghost use Rattle.std.specs.Prelude.{◌≡◌, pos};

use eb_base::Memory;
use eb_worker::{Keyed, Recorder};
use std::alloc::Global;

/// A note that a test recorded.
#[derive(Clone, Copy)]
pub struct Note {
    pub key: i32,
    pub item: u32,
    pub place: u32,
    pub value: u32,
}

impl Keyed for Note {
    ghost use Rattle.claim_tests.specs.Notes.{key_of};

    ghost key_of = { key_of };

    fn sort_key(&self) -> (i32, u32, u32) {
        (self.key, self.item, self.place)
    }
}

/// The recorder, which nobody changes.
#[derive(Drop)]
pub struct Notes;

impl Recorder<Note> for Notes {
    ghost use Rattle.claim_tests.specs.Notes.{notes_of, notes_numbered};

    ghost lists = { λ _ item. notes_of item };

    fn commands_of(&self, alloc: Global, item: u32) -> Result<Vec<Note>, Memory> {
        let mut list = Vec::new(alloc);
        if item == 0 {
            list.push(entry(9, item, 0, 70))?;
            list.push(entry(-4, item, 1, 71))?;
        } else if item == 2 {
            list.push(entry(-4, item, 0, 72))?;
        }
        Ok(list)
    }

    ghost numbered = { λ _ item. notes_numbered item };
}

fn entry(key: i32, item: u32, place: u32, value: u32) -> Note
    ensures { result ≡ record { key = key; item = item; place = place; value = value } }
{
    Note {
        key,
        item,
        place,
        value,
    }
}
