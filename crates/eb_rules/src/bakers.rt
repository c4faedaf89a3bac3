// The bakers on each authoring type.
ghost use Rattle.std.specs.Prelude.{◌≡◌, ◌≤◌, ℕ, List, [], Option, length, IfOk, OnOk};
ghost use Rattle.eb_rules.specs.Bakers.{AreByType, Ascends, IsGathered, IsNoted, at_number, is_on, numbers_on};
ghost use Rattle.eb_rules.specs.Scopes.{is_in_all};
ghost use Rattle.eb_rules.specs.declared.plans.BakerPlan.{BakerPlan};

use crate::plans::BakerPlan;
use eb_base::{AuthorNo, Items, Memory};
use std::alloc::Global;

// Authoring types have the numbers from 1 to this.
const MOST_TYPES: usize = 128;

// An empty list for each type.
fn no_bakers(alloc: Global) -> Result<Vec<Items<u8>>, Memory>
    ensures many { IfOk result (λ lists. length lists.items ≡ 128) }
    ensures none { IfOk result (λ lists. AreByType lists.items []) }
{
    let mut lists = Vec::new(alloc);
    for _at in 0..MOST_TYPES {
        lists.push(Items::new(alloc))?;
    }
    Ok(lists)
}

// The number of a baker behind those of its type.
fn note(lists: &mut Vec<Items<u8>>, authoring: AuthorNo, number: u8) -> Result<(), Memory>
    requires { length lists.old.items ≡ 128 }
    ensures { OnOk result (IsNoted authoring number lists.old.items lists.new.items) }
{
    let at = authoring.number() as usize - 1;
    lists[at].push(number)?;
    Ok(())
}

// The same, where a baker stands at the number.
fn gather(lists: &mut Vec<Items<u8>>, slot: &Option<BakerPlan>, number: u8) -> Result<(), Memory>
    requires { length lists.old.items ≡ 128 }
    ensures { OnOk result (IsGathered slot.now number lists.old.items lists.new.items) }
{
    match slot {
        Some(baker) => {
            note(lists, baker.authoring, number)?;
            Ok(())
        }
        None => Ok(()),
    }
}

/// For each authoring type, from number 1 on, the numbers of its bakers. The bakers stand at their numbers.
pub fn bakers_by_type(alloc: Global, bakers: &[Option<BakerPlan>]) -> Result<Vec<Items<u8>>, Memory>
    requires { length bakers.now ≤ 64 }
    ensures { IfOk result (λ lists. AreByType lists.items bakers.now) }
{
    let mut lists = no_bakers(alloc)?;
    let mut number = 0;
    for slot in bakers {
        number += 1;
        gather(&mut lists, slot, number)?;
    }
    Ok(lists)
}

/// The law that the numbers on a type are those whose baker is on it, each once, ascending.
pub fn numbers_are_those_on_the_type()
    ensures each { (kind n : ℕ) (bakers : List (Option BakerPlan)) → is_in_all n (numbers_on kind bakers) ≡ is_on kind (at_number n bakers) }
    ensures ascending { (kind : ℕ) (bakers : List (Option BakerPlan)) → Ascends 1 (numbers_on kind bakers) }
{}
