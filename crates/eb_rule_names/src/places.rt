// A map from each name to the place of the first that has it.
ghost use Rattle.std.specs.Prelude.{◌≡◌, ℕ, List, Some, None, cond, OnOk, OnErr, bytes_eq};
ghost use Rattle.std.specs.Option.{option_or};
ghost use Rattle.std.specs.BTreeMap.{IsUnchanged};
ghost use Rattle.eb_rule_names.specs.Places.{under_name, other_than};

use eb_base::Memory;
use std::alloc::Global;
use std::collections::BTreeMap;

/// Puts a place under a name, where none is there yet. Where there is no memory for it, nothing changes.
pub fn note(
    alloc: Global,
    places: &mut BTreeMap<Vec<u8>, usize>,
    name: &[u8],
    at: usize,
) -> Result<(), Memory>
    ensures ok { OnOk result ((q : List ℕ) → under_name places.new q ≡ option_or (under_name places.old q) (cond (bytes_eq q name.now) (Some at) None)) }
    ensures err { OnErr result (IsUnchanged places.old places.new) }
{
    if places.contains_key(name) {
        return Ok(());
    }
    let name = Vec::from_slice(alloc, name)?;
    places.insert(name, at)?;
    Ok(())
}

/// Takes the place under a name away, where it is this one.
pub fn forget(places: &mut BTreeMap<Vec<u8>, usize>, name: &[u8], at: usize)
    ensures { (q : List ℕ) → under_name places.new q ≡ cond (bytes_eq q name.now) (other_than at (under_name places.old q)) (under_name places.old q) }
{
    if places.get(name).copied() == Some(at) {
        places.remove(name);
    }
}
