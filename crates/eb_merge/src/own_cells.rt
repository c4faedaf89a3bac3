// The components that stand on an object's own entity, and the bakers whose components don't.
ghost use Rattle.std.specs.Prelude.{◌≡◌, ◌<◌, ◌≤◌, ◌++◌, [], ◌∷◌, IfOk, OnOk, OnErr, fold, length, map, slice_get, slice_set, insert, take, drop, IfSome};
ghost use Rattle.std.specs.List.Sorted.{IsStrictlySortedBy};
ghost use Rattle.std.specs.Ordering.{nat_cmp};
ghost use Rattle.eb_merge.specs.Standing.{duplicates_at, duplicates_of, kind_of, noted, row_of, too_many_of, type_beyond, with_gift};

use eb_base::{Items, Memory, Name, TypeNo};
use eb_eval::Issue;
use eb_schema::{Cell, MOST_KINDS, Row, Typed, place};
use std::alloc::Global;
use std::marker::Model;

/// A component that stands, and who else gives one of its type.
#[derive(Drop)]
pub struct Standing {
    /// The component of the lowest baker that gives the type.
    pub cell: Cell,
    /// The other bakers that give the type, ascending.
    pub others: Items<u8>,
}

impl Typed for Standing {
    ghost kind_of = { λ x. x.cell.kind };

    fn kind(&self) -> TypeNo {
        self.cell.kind
    }
}

/// What stands on an object's own entity, after some of its bakers. Contracts see the list, ascending by type.
#[derive(Drop)]
pub struct OwnCells {
    standing: Vec<Standing>,
}

impl Model for OwnCells {
    ghost use Rattle.std.specs.Prelude.{List, map};
    ghost use Rattle.std.specs.List.Sorted.{IsStrictlySortedBy};
    ghost use Rattle.std.specs.Ordering.{nat_cmp};
    ghost use Rattle.eb_merge.specs.declared.own_cells.Standing.{Standing};
    ghost use Rattle.eb_merge.specs.Standing.{kind_of};

    ghost Value = { List Standing };

    ghost view = { λ own. own.standing.items };

    ghost invariant = { λ own. IsStrictlySortedBy nat_cmp (map kind_of own.standing.items) };
}

/// Notes one more baker at what stands at a place. Where there is no memory, nothing changes.
fn note(standing: &mut Vec<Standing>, at: usize, baker: u8) -> Result<(), Memory>
    requires { at < length standing.old.items }
    ensures ok { OnOk result (IfSome (slice_get standing.old.items at) (λ x. standing.new.items ≡ slice_set standing.old.items at (noted baker x))) }
    ensures err { OnErr result (standing.new.items ≡ standing.old.items) }
{
    standing[at].others.push(baker)?;
    Ok(())
}

/// Puts a component at a place, where none of its type stands. Where there is no memory, nothing changes.
fn stand(standing: &mut Vec<Standing>, alloc: Global, at: usize, cell: &Cell) -> Result<(), Memory>
    requires { at ≤ length standing.old.items }
    ensures ok { OnOk result (standing.new.items ≡ insert standing.old.items at (record { cell = cell.now; others = [] })) }
    ensures err { OnErr result (standing.new.items ≡ standing.old.items) }
{
    let cell = cell.copy(alloc)?;
    let others = Items::new(alloc);
    standing.insert(at, Standing { cell, others })?;
    Ok(())
}

/// The components of these, in order.
fn cells_of(alloc: Global, standing: Vec<Standing>) -> Result<Items<Cell>, Memory>
    ensures { IfOk result (λ cells. cells ≡ map (λ x. x.cell) standing.items) }
{
    let mut cells = Items::new(alloc);
    for one in standing {
        cells.push(one.cell)?;
    }
    Ok(cells)
}

/// Lists each baker whose component of one type doesn't stand.
fn put_duplicates_at(out: &mut Items<Issue>, name: Name, standing: &Standing) -> Result<(), Memory>
    ensures { OnOk result (out.new ≡ out.old ++ duplicates_at name standing.now) }
{
    let kind = standing.cell.kind;
    for baker in standing.others.items() {
        let baker = *baker;
        out.push(Issue::Duplicate { name, kind, baker })?;
    }
    Ok(())
}

/// Lists each type, which stands beyond the 32 lowest.
fn put_types(out: &mut Items<Issue>, name: Name, standing: &[Standing]) -> Result<(), Memory>
    ensures { OnOk result (out.new ≡ out.old ++ map (type_beyond name) standing.now) }
{
    for one in standing {
        let kind = one.cell.kind;
        out.push(Issue::TooMany { name, kind })?;
    }
    Ok(())
}

impl OwnCells {
    /// Nothing stands. Takes no memory.
    pub fn open(alloc: Global) -> Self
        ensures { result ≡ [] }
    {
        OwnCells {
            standing: Vec::new(alloc),
        }
    }

    /// A baker, higher than those before, gives a component.
    fn give(&mut self, alloc: Global, baker: u8, cell: &Cell) -> Result<(), Memory>
        ensures { OnOk result (self.new ≡ with_gift baker self.old cell.now) }
    {
        match place(self.standing.as_slice(), cell.kind) {
            Ok(at) => {
                note(&mut self.standing, at, baker)?;
                Ok(())
            }
            Err(at) => {
                stand(&mut self.standing, alloc, at, cell)?;
                Ok(())
            }
        }
    }

    /// A baker, higher than those before, gives a row. A component stands where none of its type does.
    pub fn give_row(&mut self, alloc: Global, baker: u8, row: &Row) -> Result<(), Memory>
        ensures { OnOk result (self.new ≡ fold (with_gift baker) self.old row.now) }
    {
        for cell in row.cells() {
            self.give(alloc, baker, cell)?;
        }
        Ok(())
    }

    /// Lists each baker whose component doesn't stand, by types and then by bakers.
    pub fn put_duplicates(&self, out: &mut Items<Issue>, name: Name) -> Result<(), Memory>
        ensures { OnOk result (out.new ≡ out.old ++ duplicates_of name self.now) }
    {
        for standing in self.standing.as_slice() {
            put_duplicates_at(out, name, standing)?;
        }
        Ok(())
    }

    /// Lists each type beyond the 32 lowest.
    pub fn put_too_many(&self, out: &mut Items<Issue>, name: Name) -> Result<(), Memory>
        ensures { OnOk result (out.new ≡ out.old ++ too_many_of name self.now) }
    {
        if self.standing.len() > MOST_KINDS {
            put_types(out, name, &self.standing.as_slice()[MOST_KINDS..])?;
        }
        Ok(())
    }

    /// The row of the entity: the 32 lowest types.
    pub fn into_row(self, alloc: Global) -> Result<Row, Memory>
        ensures { IfOk result (λ row. row ≡ row_of self) }
    {
        let mut standing = self.standing;
        standing.truncate(MOST_KINDS);
        let cells = cells_of(alloc, standing)?;
        Ok(Row::of(cells))
    }
}
