// What a level builder is told beside the entities.
use crate::ids::RunId;
use eb_base::{Name, TypeNo};
use eb_meaning::RunFault;

/// Something that baking left out, and why. `docs/baking.md`, "Issues".
#[derive(Clone, Copy)]
pub enum Issue {
    /// A run has a fault, and gives nothing.
    Fault {
        /// The run.
        id: RunId,
        /// Its fault.
        fault: RunFault,
    },
    /// A baker gives an entity a component that a lower baker gives it too, and the lower one's stands.
    Duplicate {
        /// The entity.
        name: Name,
        /// The component type.
        kind: TypeNo,
        /// The baker whose component is left out.
        baker: u8,
    },
    /// The bakers give an entity more than 32 types, and this one isn't among the 32 lowest.
    TooMany {
        /// The entity.
        name: Name,
        /// The type that is left out.
        kind: TypeNo,
    },
    /// A system's evaluation of an entity has a fault, and the entity stays as it was.
    System {
        /// The system, 1 to 32.
        system: u8,
        /// The entity.
        name: Name,
        /// The fault.
        fault: RunFault,
    },
    /// A system adds a new type to an entity that has 32.
    SystemTooMany {
        /// The system, 1 to 32.
        system: u8,
        /// The entity.
        name: Name,
        /// The type that is left out.
        kind: TypeNo,
    },
}
