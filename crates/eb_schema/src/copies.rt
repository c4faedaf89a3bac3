// Equal copies of fields and types, and of lists of them.
ghost use Rattle.std.specs.Prelude.{◌≡◌, IfOk};

use crate::kinds::{Authoring, Component, Field};
use eb_base::{Items, Memory};
use std::alloc::Global;

/// What can be copied where there is memory.
pub trait Copied: Drop {
    fn copied(&self, alloc: Global) -> Result<Self, Memory>
        ensures { IfOk result (λ copy. copy ≡ self.now) };
}

/// Equal items, in the same order.
pub fn copies_of<T: Copied>(alloc: Global, items: &[T]) -> Result<Items<T>, Memory>
    ensures { IfOk result (λ copies. copies ≡ items.now) }
{
    let mut copies = Vec::new(alloc);
    for item in items {
        copies.push(item.copied(alloc)?)?;
    }
    Ok(Items::of(copies))
}

impl Copied for Field {
    fn copied(&self, alloc: Global) -> Result<Self, Memory> {
        Ok(Field {
            name: self.name.copy(alloc)?,
            kind: self.kind,
        })
    }
}

impl Copied for Component {
    fn copied(&self, alloc: Global) -> Result<Self, Memory> {
        Ok(Component {
            number: self.number,
            name: self.name.copy(alloc)?,
            mode: self.mode,
            fields: copies_of(alloc, self.fields.items())?,
        })
    }
}

impl Copied for Authoring {
    fn copied(&self, alloc: Global) -> Result<Self, Memory> {
        Ok(Authoring {
            number: self.number,
            name: self.name.copy(alloc)?,
            copy: self.copy,
            fields: copies_of(alloc, self.fields.items())?,
        })
    }
}
