// A shelf in memory, for tests: it holds its files in a list, and chosen calls fail.
ghost use Rattle.std.specs.Prelude.{◌≡◌, ◌<◌, ◌↔◌, Some, option_map, length, IsErrOf, IsTrue, IfOk, IfSome, OnOk, OnErr};
ghost use Rattle.std.specs.FinMap.{get, insert};
ghost use Rattle.eb_outside.specs.declared.errors.OutsideError.TheVariants.{Fault};
ghost use Rattle.eb_outside.specs.Calls.{no_calls, next_fails, counted};
ghost use Rattle.eb_outside.specs.Causes.{HasFaultCause};
ghost use Rattle.eb_outside.specs.InMemory.{ShelfState, files_of, place_of};
ghost use Rattle.eb_outside.specs.Shelves.{with_file, KeepsOthers};

use crate::calls::Calls;
use crate::errors::OutsideError;
use crate::shelf::Shelf;
use eb_base::{Memory, Text};
use std::alloc::Global;
use std::marker::Model;

/// A folder in memory. A look-up goes through the list of its files.
#[derive(Debug, Drop)]
pub struct MemShelf {
    alloc: Global,
    files: Vec<(Text, Vec<u8>)>,
    calls: Calls,
}

impl Model for MemShelf {
    ghost use Rattle.eb_outside.specs.InMemory.{ShelfState, shelf_state_code, files_of};

    ghost Value = { ShelfState };

    ghost coded = { shelf_state_code };

    ghost view = { λ s. record { files = files_of s.files.items; calls = s.calls } };
}

impl MemShelf {
    /// A folder with these files, where the calls of these numbers, from 0, fail. Of a name that stands twice the first
    /// file counts. Takes no memory; its calls take theirs from `alloc`.
    pub fn open(alloc: Global, files: Vec<(Text, Vec<u8>)>, fails: Vec<u32>) -> Self
        ensures { result ≡ record { files = files_of files.items; calls = no_calls fails.items } }
    {
        MemShelf {
            alloc,
            files,
            calls: Calls::new(fails),
        }
    }

    /// The bytes of a file, or None where there is no such file. This is no call of the shelf, so it can't fail.
    /// Takes no memory.
    pub fn file(&self, name: &str) -> Option<&[u8]>
        ensures { option_map (λ bytes. bytes.now) result ≡ get self.now.files name.now }
    {
        bytes_of(&self.files, name.as_bytes())
    }

    /// How many calls have failed.
    pub fn faults(&self) -> u64
        ensures { result ≡ self.now.calls.faults }
    {
        self.calls.faults()
    }
}

impl Shelf for MemShelf {
    ghost files = { λ s. Some s.files };

    ghost faults = { λ s. s.calls.faults };

    fn read(&mut self, name: &str) -> Result<Option<Vec<u8>>, OutsideError>
        ensures content { IfOk result (λ found. IfSome (Some self.old.files) (λ f. option_map (λ v. v.items) found ≡ get f name.now)) }
        ensures same { Some self.new.files ≡ Some self.old.files }
        ensures cause { HasFaultCause self.old.calls.faults self.new.calls.faults result }
        // A call fails with a fault exactly where its number is among those that fail.
        ensures failed { IsErrOf result Fault ↔ IsTrue (next_fails self.old.calls) }
        ensures calls { self.new.calls ≡ counted self.old.calls }
    {
        self.calls.next()?;
        match bytes_of(&self.files, name.as_bytes()) {
            Some(bytes) => Ok(Some(Vec::from_slice(self.alloc, bytes)?)),
            None => Ok(None),
        }
    }

    fn write(&mut self, name: &str, bytes: &[u8]) -> Result<(), OutsideError>
        ensures written { OnOk result (Some self.new.files ≡ with_file (Some self.old.files) name.now bytes.now) }
        ensures others { OnErr result (KeepsOthers (Some self.old.files) (Some self.new.files) name.now) }
        ensures cause { HasFaultCause self.old.calls.faults self.new.calls.faults result }
        // A call fails with a fault exactly where its number is among those that fail, and then changes nothing.
        ensures failed { IsErrOf result Fault ↔ IsTrue (next_fails self.old.calls) }
        ensures same { OnErr result (self.new.files ≡ self.old.files) }
        ensures calls { self.new.calls ≡ counted self.old.calls }
    {
        self.calls.next()?;
        put(self.alloc, &mut self.files, name, bytes)?;
        Ok(())
    }
}

// Replaces the first file of this name, or adds one.
fn put(
    alloc: Global,
    files: &mut Vec<(Text, Vec<u8>)>,
    name: &str,
    bytes: &[u8],
) -> Result<(), Memory>
    ensures ok { OnOk result (files_of files.new.items ≡ insert (files_of files.old.items) name.now bytes.now) }
    ensures err { OnErr result (files.new.items ≡ files.old.items) }
{
    let copy = Vec::from_slice(alloc, bytes)?;
    match place_of(files, name.as_bytes()) {
        Some(place) => files[place].1 = copy,
        None => files.push((Text::of(alloc, name.as_bytes())?, copy))?,
    }
    Ok(())
}

fn bytes_of<'a>(files: &'a [(Text, Vec<u8>)], name: &[u8]) -> Option<&'a [u8]>
    ensures { option_map (λ bytes. bytes.now) result ≡ get (files_of files.now) name.now }
{
    let place = place_of(files, name)?;
    Some(&files[place].1)
}

fn place_of(files: &[(Text, Vec<u8>)], name: &[u8]) -> Option<usize>
    ensures { result ≡ place_of files.now name.now }
{
    files.iter().position(|file| file.0.is(name))
}
