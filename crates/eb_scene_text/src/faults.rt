// Why a document is no edit or no project.
ghost use Rattle.std.specs.Prelude.{◌≡◌};
ghost use Rattle.eb_scene_text.specs.declared.faults.ReadFault.TheVariants as read;
ghost use Rattle.eb_scene_text.specs.declared.faults.ProjectFault.TheVariants as project;

use eb_json::FormFault;
use eb_scene::EditFault;

/// Why a document is no edit. A place is the number of a node in preorder, and 4294967295 from that number on.
#[derive(Clone, Copy, Debug, PartialEq, Eq)]
pub enum ReadFault {
    /// Want of memory.
    Memory,
    /// The first node that isn't what the edit's form asks.
    BadRequest {
        /// Its place.
        place: u32,
    },
}

/// Why a document is no project. The form of the whole document is tested first.
#[derive(Clone, Copy, Debug, PartialEq, Eq)]
pub enum ProjectFault {
    /// Want of memory.
    Memory,
    /// The first node that isn't what the form asks.
    NotForm {
        /// Its place in preorder, or 4294967295 from that number on.
        place: u32,
    },
    /// One of the edits that the document stands for is refused.
    Rule {
        /// The number of the first such edit, from 0, or 4294967295 from that number on.
        index: u32,
        /// The rule that it breaks, which is never `Memory`.
        fault: EditFault,
    },
}

impl From<eb_base::Memory> for ProjectFault {
    ghost from_gives = { λ _ fault. fault ≡ project.Memory };

    fn from(_: eb_base::Memory) -> Self {
        ProjectFault::Memory
    }
}

impl From<FormFault> for ReadFault {
    ghost use Rattle.eb_scene_text.specs.ReadFaults.{of_request};

    ghost from_gives = { λ fault made. made ≡ of_request fault };

    fn from(fault: FormFault) -> Self {
        match fault {
            FormFault::Memory => ReadFault::Memory,
            FormFault::Wrong { place } => ReadFault::BadRequest { place },
        }
    }
}

impl From<FormFault> for ProjectFault {
    ghost use Rattle.eb_scene_text.specs.ReadFaults.{of_form};

    ghost from_gives = { λ fault made. made ≡ of_form fault };

    fn from(fault: FormFault) -> Self {
        match fault {
            FormFault::Memory => ProjectFault::Memory,
            FormFault::Wrong { place } => ProjectFault::NotForm { place },
        }
    }
}
