// A flat folder: files under names.
ghost use Rattle.std.specs.Prelude.{◌≡◌, ℕ, Option, option_map, IfOk, IfSome, OnOk, OnErr};
ghost use Rattle.std.specs.FinMap.{get};
ghost use Rattle.eb_outside.specs.Causes.{HasFaultCause};
ghost use Rattle.eb_outside.specs.Shelves.{Files, with_file, KeepsOthers};

use crate::errors::OutsideError;

/// A flat folder: files under names, read and written whole. Its calls that need memory take it from an allocator
/// that the shelf keeps.
pub trait Shelf {
    /// The files that there are, where the shelf tells them.
    ghost files: { Self → Option Files };

    /// How often the outside has failed.
    ghost faults: { Self → ℕ };

    /// The bytes of a file, or None where there is no such file. Changes no file, also where it fails.
    fn read(&mut self, name: &str) -> Result<Option<Vec<u8>>, OutsideError>
        ensures content { IfOk result (λ found. IfSome (files self.old) (λ f. option_map (λ v. v.items) found ≡ get f name.now)) }
        ensures same { files self.new ≡ files self.old }
        ensures cause { HasFaultCause (faults self.old) (faults self.new) result };

    /// Makes a file hold these bytes, whether there was one or not. All other files stay, also where it fails;
    /// after an error the file may be absent or hold any bytes.
    fn write(&mut self, name: &str, bytes: &[u8]) -> Result<(), OutsideError>
        ensures written { OnOk result (files self.new ≡ with_file (files self.old) name.now bytes.now) }
        ensures others { OnErr result (KeepsOthers (files self.old) (files self.new) name.now) }
        ensures cause { HasFaultCause (faults self.old) (faults self.new) result };
}
