// Objects brought together, one after the other.
ghost use Rattle.std.specs.Prelude.{◌≡◌, OnOk, IfOk};
ghost use Rattle.eb_merge.specs.Objects.{issues_of, nothing_merged, with_own, with_run};

use crate::objects::{put_extras, put_fault};
use crate::own_cells::OwnCells;
use eb_base::{Items, Memory, Name, Place};
use eb_eval::{Issue, Run, RunId};
use eb_schema::Baked;
use std::alloc::Global;

/// What the runs of objects give together, and what was left out. `docs/baking.md`, "Merging".
#[derive(Drop)]
pub struct Merged {
    /// The entities of the objects.
    pub entities: Baked,
    /// The runs that have a fault, in the order of the objects, and of one object by baker.
    pub faults: Items<Issue>,
    /// The components that a lower baker gives too, in the order of the objects, and of one object by type and baker.
    pub duplicates: Items<Issue>,
    /// The types beyond 32, in the order of the objects, and of one object by type.
    pub too_many: Items<Issue>,
}

impl Merged {
    /// No object. Takes no memory.
    pub fn open(alloc: Global) -> Self
        ensures { result ≡ nothing_merged }
    {
        Merged {
            entities: Baked::open(alloc),
            faults: Items::new(alloc),
            duplicates: Items::new(alloc),
            too_many: Items::new(alloc),
        }
    }

    /// Puts an object's own entity of this name, on which these components stand, into the section of this place, and
    /// lists what of them was left out.
    pub fn add_own(
        &mut self,
        alloc: Global,
        own: Name,
        place: Place,
        cells: OwnCells,
    ) -> Result<(), Memory>
        ensures { OnOk result (self.new ≡ with_own self.old own place cells) }
    {
        cells.put_duplicates(&mut self.duplicates, own)?;
        cells.put_too_many(&mut self.too_many, own)?;
        let row = cells.into_row(alloc)?;
        self.entities.put(own, place, row)?;
        Ok(())
    }

    /// Puts the extra entities of a run into the section of this place, and lists its fault.
    pub fn add_run(
        &mut self,
        alloc: Global,
        place: Place,
        id: RunId,
        run: &Run,
    ) -> Result<(), Memory>
        ensures { OnOk result (self.new ≡ with_run place self.old (id, run.now)) }
    {
        put_fault(&mut self.faults, id, run)?;
        put_extras(&mut self.entities, alloc, place, run)?;
        Ok(())
    }

    /// The entities, and all that was left out: faults, then duplicates, then types beyond 32.
    pub fn finish(self) -> Result<(Baked, Items<Issue>), Memory>
        ensures entities { IfOk result (λ done. done.0 ≡ self.entities) }
        ensures issues { IfOk result (λ done. done.1 ≡ issues_of self) }
    {
        let Merged {
            entities,
            mut faults,
            mut duplicates,
            mut too_many,
        } = self;
        faults.append(&mut duplicates)?;
        faults.append(&mut too_many)?;
        Ok((entities, faults))
    }
}
