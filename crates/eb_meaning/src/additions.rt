// What `add T { .. }` gives: the cell of a type, with the value of each field. `docs/rules.md`, "Meaning".
ghost use Rattle.std.specs.Prelude.{[]};
ghost use Rattle.eb_meaning.specs.Asks.{Goes, run};
ghost use Rattle.eb_meaning.specs.Statements as spec;

use crate::fields::tested;
use crate::sights::Reads;
use crate::terms::value;
use crate::values::{Stop, Value};
use eb_base::Items;
use eb_rules::{Addition, Filling};
use eb_scene::Key;
use eb_schema::{Cell, Val};
use std::alloc::Global;

// The value of a field, tested as soon as it is known.
fn field<R: Reads>(
    reads: &R,
    noted: &mut Items<Key>,
    names: &[Value],
    filling: &Filling,
) -> Result<Val, Stop>
    ensures { Goes (run (R.answers reads.now) (spec.field (R.sight reads.now) names.now filling.now) noted.old) result noted.new }
{
    let made = value(reads, noted, names, &filling.value)?;
    let made = tested(filling.kind, made)?;
    Ok(made)
}

// The values of all fields.
fn fields<R: Reads>(
    alloc: Global,
    reads: &R,
    noted: &mut Items<Key>,
    names: &[Value],
    fillings: &[Filling],
) -> Result<Items<Val>, Stop>
    ensures { Goes (run (R.answers reads.now) (spec.fields (R.sight reads.now) names.now fillings.now []) noted.old) result noted.new }
{
    let mut values = Items::new(alloc);
    for filling in fillings {
        let made = field(reads, noted, names, filling)?;
        values.push(made)?;
    }
    Ok(values)
}

/// The cell of one addition, where these are the values of the visible names: its values in the order of the fields, each
/// tested as soon as it is known. Its first fault, or want of memory, where it has none. The keys that are looked at are noted.
pub fn cell<R: Reads>(
    alloc: Global,
    reads: &R,
    noted: &mut Items<Key>,
    names: &[Value],
    addition: &Addition,
) -> Result<Cell, Stop>
    ensures { Goes (run (R.answers reads.now) (spec.cell (R.sight reads.now) names.now addition.now) noted.old) result noted.new }
{
    let values = fields(alloc, reads, noted, names, addition.values.as_slice())?;
    Ok(Cell {
        kind: addition.kind,
        values,
    })
}

/// The cells of these additions, in their order, or the first fault, or want of memory. The keys that are looked at are noted.
pub fn cells<R: Reads>(
    alloc: Global,
    reads: &R,
    noted: &mut Items<Key>,
    names: &[Value],
    additions: &[Addition],
) -> Result<Items<Cell>, Stop>
    ensures { Goes (run (R.answers reads.now) (spec.cells (R.sight reads.now) names.now additions.now []) noted.old) result noted.new }
{
    let mut made = Items::new(alloc);
    for addition in additions {
        let next = cell(alloc, reads, noted, names, addition)?;
        made.push(next)?;
    }
    Ok(made)
}
