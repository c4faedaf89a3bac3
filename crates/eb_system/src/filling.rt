// Components put into a row, and the types that find no room in it.
ghost use Rattle.std.specs.Prelude.{◌≡◌, IfOk, OnOk, map};
ghost use Rattle.std.specs.List.Sorted.{IsStrictlySortedBy};
ghost use Rattle.std.specs.Ordering.{nat_cmp};
ghost use Rattle.eb_scene.specs.Numbers.{with_number};
ghost use Rattle.eb_system.specs.Stages.{filled, with_added};

use eb_base::{Items, Memory, TypeNo};
use eb_schema::{Cell, Row, place};
use std::alloc::Global;

/// A row with components that were added.
#[derive(Drop)]
pub struct Filled {
    /// The row.
    pub row: Row,
    /// The types that found no room in it, ascending, each once.
    pub left: Items<TypeNo>,
}

/// Puts a type into an ascending list, once. Where there is no memory, nothing changes.
fn put_type(kinds: &mut Items<TypeNo>, kind: TypeNo) -> Result<(), Memory>
    requires { IsStrictlySortedBy nat_cmp (map (λ k. k) kinds.old) }
    ensures kinds { OnOk result (kinds.new ≡ with_number kinds.old kind) }
    ensures order { OnOk result (IsStrictlySortedBy nat_cmp (map (λ k. k) kinds.new)) }
{
    match place(kinds.items(), kind) {
        Ok(_) => Ok(()),
        Err(at) => {
            kinds.insert(at, kind)?;
            Ok(())
        }
    }
}

/// Puts a component into the row, or its type among those that found no room.
fn add(filled: &mut Filled, cell: Cell) -> Result<(), Memory>
    requires { IsStrictlySortedBy nat_cmp (map (λ k. k) filled.old.left) }
    ensures filled { OnOk result (filled.new ≡ with_added filled.old cell) }
    ensures order { OnOk result (IsStrictlySortedBy nat_cmp (map (λ k. k) filled.new.left)) }
{
    let kind = cell.kind;
    if !filled.row.put(cell)? {
        put_type(&mut filled.left, kind)?;
    }
    Ok(())
}

/// A copy of the row with these components put into it, in their order.
pub fn fill(alloc: Global, row: &Row, added: Items<Cell>) -> Result<Filled, Memory>
    ensures { IfOk result (λ done. done ≡ filled row.now added) }
{
    let row = row.copy(alloc)?;
    let left = Items::new(alloc);
    let mut done = Filled { row, left };
    for cell in added.into_vec() {
        add(&mut done, cell)?;
    }
    Ok(done)
}
