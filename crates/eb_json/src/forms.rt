// Forms, and readers of the plain ones: each answers what a node is, or the place of the first wrong node.
ghost use Rattle.std.specs.Prelude.{◌≡◌, ◌≤◌, IfOk, map};
ghost use Rattle.serde_json.specs.View.{view};
ghost use Rattle.eb_json.specs.Forms.{Gives, text_at, whole_number_at, object_at, member_at, natural_at, pair_at};

use crate::documents::whole_number_within;
use crate::faults::FormFault;
use crate::members::has_keys;
use serde_json::Value;
use std::alloc::Global;

/// What a node of a document can be asked to be.
pub trait Form {
    ghost use Rattle.std.specs.Prelude.{ℕ, Result};
    ghost use Rattle.serde_json.specs.Data.{Data};
    ghost use Rattle.eb_json.specs.declared.faults.FormFault.{FormFault};

    /// What such a node is read as.
    type Read: Drop;

    ghost reads: { Self → ℕ → Data → Result Self.Read FormFault };

    /// What the node at this place is read as. `Wrong` gives the place of the first wrong node, the
    /// node itself or one below it.
    fn read(&self, alloc: Global, place: u32, value: &Value) -> Result<Self::Read, FormFault>
        ensures { Gives (λ x. x) result (reads self.now place (view value.now)) };
}

/// The text that the node is. Takes no memory.
pub fn text<'a>(place: u32, value: &'a Value) -> Result<&'a str, FormFault>
    ensures { Gives (λ s. s.now) result (text_at place (view value.now)) }
{
    match value.as_str() {
        Some(found) => Ok(found),
        None => Err(FormFault::Wrong { place }),
    }
}

/// The whole number from `least` to `most` that the node is. Takes no memory.
pub fn whole_number_in(place: u32, value: &Value, least: i64, most: i64) -> Result<i64, FormFault>
    ensures { Gives (λ n. n) result (whole_number_at least most place (view value.now)) }
{
    match whole_number_within(value, least, most) {
        Some(number) => Ok(number),
        None => Err(FormFault::Wrong { place }),
    }
}

/// Tests that the node is an object whose keys are exactly these, which differ. Takes no memory.
pub fn object(place: u32, value: &Value, keys: &[&str]) -> Result<(), FormFault>
    ensures { Gives (λ _. view value.now) result (object_at (map (λ k. k.now) keys.now) place (view value.now)) }
{
    if has_keys(value, keys) {
        Ok(())
    } else {
        Err(FormFault::Wrong { place })
    }
}

/// The value at the key, in the object at this place. Takes no memory.
pub fn member<'a>(place: u32, value: &'a Value, key: &str) -> Result<&'a Value, FormFault>
    ensures { Gives (λ v. view v.now) result (member_at key.now place (view value.now)) }
{
    match value.get(key) {
        Some(found) => Ok(found),
        None => Err(FormFault::Wrong { place }),
    }
}

/// The whole number from `least` to `most` that the node is, where neither is below 0. Takes no memory.
pub fn natural_in(place: u32, value: &Value, least: u32, most: u32) -> Result<u32, FormFault>
    ensures value { Gives (λ n. n) result (natural_at least most place (view value.now)) }
    ensures range { IfOk result (λ n. (least ≤ n) × (n ≤ most)) }
{
    match value.as_u64() {
        Some(number) => {
            if number >= least as u64 && number <= most as u64 {
                Ok(number as u32)
            } else {
                Err(FormFault::Wrong { place })
            }
        }
        None => Err(FormFault::Wrong { place }),
    }
}

/// The two items of the list of exactly two that the node is. Takes no memory.
pub fn pair<'a>(place: u32, value: &'a Value) -> Result<(&'a Value, &'a Value), FormFault>
    ensures { Gives (λ p. (view p.0.now, view p.1.now)) result (pair_at place (view value.now)) }
{
    match value.as_array() {
        Some(list) => match list.as_slice() {
            [] => Err(FormFault::Wrong { place }),
            [_] => Err(FormFault::Wrong { place }),
            [first, second] => Ok((first, second)),
            [_, _, _, ..] => Err(FormFault::Wrong { place }),
        },
        None => Err(FormFault::Wrong { place }),
    }
}
