// Totals of a field over the entities of each scene.
ghost use Rattle.std.specs.Prelude.{◌≡◌, ℕ, List, [], ◌∷◌, ◌++◌, cond, ◌==◌, IfOk, OnOk, fold};
ghost use Rattle.std.specs.List.{slice_get};
ghost use Rattle.eb_system.specs.Totals as spec;
ghost use Rattle.eb_system.specs.Tables.{AreTotals, total_in, with_number};

use crate::wanted::Summed;
use eb_base::{Memory, Name};
use eb_schema::{Baked, BakedEntity, Cell, Val};
use std::alloc::Global;
use std::collections::BTreeMap;

/// What is asked after numbers, all at once.
#[derive(Clone, Copy)]
pub struct Total {
    /// How many there are.
    pub count: u64,
    /// Their sum.
    pub sum: i128,
    /// The greatest of them, if there is one.
    pub greatest: Option<i64>,
}

/// The totals of one field, by scene.
#[derive(Drop)]
pub struct SceneTotals {
    pub by_scene: BTreeMap<u32, Total>,
}

const NO_NUMBERS: Total = Total {
    count: 0,
    sum: 0,
    greatest: None,
};

/// The number in a field of a component, 0 where it holds none.
fn number_at(cell: &Cell, place: usize) -> i64
    ensures { result ≡ spec.number_at place cell.now }
{
    match cell.values.get(place) {
        Some(Val::Num(number)) => *number,
        _ => 0,
    }
}

/// The greater one, where there is one so far.
fn greater(greatest: Option<i64>, number: i64) -> i64
    ensures { result ≡ spec.greater greatest number }
{
    match greatest {
        Some(most) => most.max(number),
        None => number,
    }
}

impl Total {
    /// With one more number. There is memory for far fewer entities than a count or a sum has room for.
    fn with(self, number: i64) -> Result<Total, Memory>
        ensures { IfOk result (λ more. more ≡ with_number self number) }
    {
        let Some(count) = self.count.checked_add(1) else {
            return Err(Memory);
        };
        let Some(sum) = self.sum.checked_add(i128::from(number)) else {
            return Err(Memory);
        };
        let greatest = Some(greater(self.greatest, number));
        Ok(Total {
            count,
            sum,
            greatest,
        })
    }
}

impl SceneTotals {
    /// The total of a scene. Takes no memory.
    pub fn at(&self, scene: u32) -> Total
        ensures { result ≡ total_in self.now scene }
    {
        match self.by_scene.get(&scene) {
            Some(total) => *total,
            None => NO_NUMBERS,
        }
    }

    /// One more number of a scene.
    fn add(&mut self, scene: u32, number: i64) -> Result<(), Memory>
        ensures { OnOk result ((s : ℕ) → total_in self.new s ≡ cond (scene == s) (with_number (total_in self.old s) number) (total_in self.old s)) }
    {
        let total = self.at(scene).with(number)?;
        self.by_scene.insert(scene, total)?;
        Ok(())
    }
}

/// Counts an entity, if it has the type.
fn add_entity(
    totals: &mut SceneTotals,
    summed: &Summed,
    name: Name,
    entity: &BakedEntity,
) -> Result<(), Memory>
    ensures { OnOk result ((s : ℕ) → total_in totals.new s ≡ fold with_number (total_in totals.old s) (spec.numbers_in s summed.now.kind summed.now.place (name, entity.now))) }
{
    match entity.row.cell(summed.kind) {
        Some(cell) => {
            totals.add(name.scene, number_at(cell, summed.place))?;
            Ok(())
        }
        None => Ok(()),
    }
}

/// The totals of a field over the entities of each scene that have its type, in one pass over all entities.
pub fn scene_totals(alloc: Global, entities: &Baked, summed: &Summed) -> Result<SceneTotals, Memory>
    ensures { IfOk result (λ totals. AreTotals entities.now summed.now totals) }
{
    let mut totals = SceneTotals {
        by_scene: BTreeMap::new(alloc),
    };
    for (name, entity) in entities.iter() {
        add_entity(&mut totals, summed, *name, entity)?;
    }
    Ok(totals)
}
