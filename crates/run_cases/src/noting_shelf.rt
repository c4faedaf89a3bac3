// A shelf in memory that keeps the names of the files that were written.
ghost use Rattle.std.specs.Prelude.{◌≡◌, ◌++◌, Some, [], ◌∷◌, option_map, IfOk, IfSome, OnOk, OnErr};
ghost use Rattle.std.specs.FinMap.{get};
ghost use Rattle.eb_outside.specs.Causes.{HasFaultCause};
ghost use Rattle.eb_outside.specs.Shelves.{with_file, KeepsOthers};

use eb_base::Text;
use eb_outside::{MemShelf, OutsideError, Shelf};
use std::alloc::Global;

/// A folder in memory, and the names of its writes in their order.
#[derive(Drop)]
pub struct NotingShelf {
    pub alloc: Global,
    pub folder: MemShelf,
    pub written: Vec<Text>,
}

impl Shelf for NotingShelf {
    ghost files = { λ s. Some s.folder.files };

    ghost faults = { λ s. s.folder.calls.faults };

    fn read(&mut self, name: &str) -> Result<Option<Vec<u8>>, OutsideError>
        ensures content { IfOk result (λ found. IfSome (Some self.old.folder.files) (λ f. option_map (λ v. v.items) found ≡ get f name.now)) }
        ensures same { Some self.new.folder.files ≡ Some self.old.folder.files }
        ensures cause { HasFaultCause self.old.folder.calls.faults self.new.folder.calls.faults result }
        ensures noted { self.new.written.items ≡ self.old.written.items }
    {
        let found = self.folder.read(name)?;
        Ok(found)
    }

    fn write(&mut self, name: &str, bytes: &[u8]) -> Result<(), OutsideError>
        ensures written { OnOk result (Some self.new.folder.files ≡ with_file (Some self.old.folder.files) name.now bytes.now) }
        ensures others { OnErr result (KeepsOthers (Some self.old.folder.files) (Some self.new.folder.files) name.now) }
        ensures cause { HasFaultCause self.old.folder.calls.faults self.new.folder.calls.faults result }
        ensures noted { OnOk result (self.new.written.items ≡ self.old.written.items ++ name.now ∷ []) }
    {
        self.written.push(Text::of(self.alloc, name.as_bytes())?)?;
        match self.folder.write(name, bytes) {
            Ok(()) => Ok(()),
            Err(error) => {
                let _ = self.written.pop();
                Err(error)
            }
        }
    }
}
