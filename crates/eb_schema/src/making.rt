// Testing drafts in preorder and making what they stand for.
ghost use Rattle.std.specs.Prelude.{◌≡◌, ◌≤◌, [], length, take};
ghost use Rattle.eb_schema.specs.SchemaFaults.{Tells};
ghost use Rattle.eb_schema.specs.SchemaForm.{placed};
ghost use Rattle.eb_schema.specs.SchemaTests.{each_of, each_within};

use crate::faults::SchemaFault;
use eb_base::Items;
use std::alloc::Global;

/// How the drafts of a list are made, each of which may rest on those before it.
pub trait Maker {
    ghost use Rattle.std.specs.Prelude.{List, Result};
    ghost use Rattle.eb_schema.specs.declared.faults.SchemaFault.{SchemaFault};

    type Draft: Drop;

    type Made: Drop;

    ghost makes: { Self → List Self.Draft → Self.Draft → Result Self.Made SchemaFault };

    ghost listed: { Self → List Self.Draft };

    /// The drafts.
    fn drafts(&self) -> &[Self::Draft]
        ensures { result.now ≡ listed self.now };

    /// What the draft at the index stands for.
    fn make(
        &self,
        alloc: Global,
        index: usize,
        draft: &Self::Draft,
    ) -> Result<Self::Made, SchemaFault>
        requires { index ≤ length (listed self.now) }
        ensures { Tells result (makes self.now (take index (listed self.now)) draft.now) };
}

/// Each draft made, in order.
fn each<M: Maker>(alloc: Global, maker: &M) -> Result<Items<M::Made>, SchemaFault>
    ensures { Tells result (each_of (M.makes maker.now) [] (M.listed maker.now)) }
{
    let mut made = Vec::new(alloc);
    for (index, draft) in maker.drafts().iter().enumerate() {
        made.push(maker.make(alloc, index, draft)?)?;
    }
    Ok(Items::of(made))
}

/// Each draft made, in order, of a list at this place that has at most `most`.
pub fn make_each<M: Maker>(
    alloc: Global,
    maker: &M,
    most: usize,
    place: u32,
) -> Result<Items<M::Made>, SchemaFault>
    ensures { Tells result (each_within most (M.makes maker.now) (placed place (M.listed maker.now))) }
{
    if maker.drafts().len() > most {
        return Err(SchemaFault::TooMany { place });
    }
    each(alloc, maker)
}
