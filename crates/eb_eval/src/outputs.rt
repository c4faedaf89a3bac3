// The entities that a run makes, of what its statements came to.
ghost use Rattle.std.specs.Prelude.{◌≡◌, ◌++◌, map, IfOk, OnOk};
ghost use Rattle.eb_eval.specs.Runs.{row_of, extra_output, outputs};

use crate::entities::{extra_entity, own_entity};
use crate::ids::RunId;
use crate::outcomes::Output;
use eb_base::{Items, Memory, Name};
use eb_meaning::{Extra, Scope};
use eb_schema::{Cell, Row};
use std::alloc::Global;

// The row of these cells: a later one of a type replaces an earlier one.
fn row_of(alloc: Global, cells: Items<Cell>) -> Result<Row, Memory>
    ensures { IfOk result (λ row. row ≡ row_of cells) }
{
    let mut row = Row::open(alloc);
    for cell in cells.into_vec() {
        row.put(cell)?;
    }
    Ok(row)
}

// An entity of these cells.
fn output_of(alloc: Global, name: Name, cells: Items<Cell>) -> Result<Output, Memory>
    ensures { IfOk result (λ x. x ≡ record { name = name; row = row_of cells }) }
{
    let row = row_of(alloc, cells)?;
    Ok(Output { name, row })
}

// The extras that were reached, behind the entities before.
fn push_extras(
    alloc: Global,
    id: RunId,
    extras: Items<Extra>,
    all: &mut Items<Output>,
) -> Result<(), Memory>
    ensures { OnOk result (all.new ≡ all.old ++ map (extra_output id) extras) }
{
    for extra in extras.into_vec() {
        let Extra { number, cells } = extra;
        all.push(output_of(alloc, extra_entity(id, number), cells)?)?;
    }
    Ok(())
}

/// The object's own entity, and the extras that were reached.
pub fn outputs(alloc: Global, id: RunId, scope: Scope) -> Result<Items<Output>, Memory>
    ensures { IfOk result (λ all. all ≡ outputs id scope) }
{
    let Scope {
        names: _,
        own,
        extras,
    } = scope;
    let name = own_entity(id.scene, id.object);
    let mut all = Items::new(alloc);
    all.push(output_of(alloc, name, own)?)?;
    push_extras(alloc, id, extras, &mut all)?;
    Ok(all)
}
