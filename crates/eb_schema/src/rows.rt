// Values, cells and rows: what an entity has.
ghost use Rattle.std.specs.Prelude.{◌≡◌, ◌≤◌, [], IfOk, OnOk, OnErr, length};
ghost use Rattle.std.specs.Option.{option_copied};
ghost use Rattle.std.specs.List.Sorted.{IsStrictlySortedBy};
ghost use Rattle.std.specs.Ordering.{nat_cmp};
ghost use Rattle.eb_schema.specs.Rows.{IsRow, most_kinds, kinds_of, cell_of, takes_cell, put_cell};

use crate::copies::{Copied, copies_of};
use crate::type_order::{Typed, place};
use eb_base::{Items, Memory, Name, TypeNo};
use std::alloc::Global;
use std::marker::Model;

/// Most cells that a row has, and most types of a set.
pub const MOST_KINDS: usize = 32;

/// The value of one field.
#[derive(Clone, Copy, Debug, PartialEq, Eq)]
pub enum Val {
    /// A whole number, or for a fixed-point field its units of 1/65536.
    Num(i64),
    /// A reference to the entity of this name.
    To(Name),
    /// A reference to none.
    Null,
    /// A reference to an entity that was removed.
    Gone,
}

/// What an entity has of one component type.
#[derive(Drop)]
pub struct Cell {
    /// The component type.
    pub kind: TypeNo,
    /// One value for each field, in the fields' order.
    pub values: Items<Val>,
}

/// What one entity has: at most 32 cells, in ascending order of their types. Contracts see the list of the cells.
#[derive(Drop)]
pub struct Row {
    cells: Items<Cell>,
}

impl Model for Row {
    ghost use Rattle.std.specs.Prelude.{List};
    ghost use Rattle.eb_schema.specs.declared.rows.Cell.{Cell};
    ghost use Rattle.eb_schema.specs.Rows.{IsRow};

    ghost Value = { List Cell };

    ghost view = { λ r. r.cells };

    ghost invariant = { λ r. IsRow r.cells };
}

impl Typed for Cell {
    ghost kind_of = { λ c. c.kind };

    fn kind(&self) -> TypeNo {
        self.kind
    }
}

impl Copied for Cell {
    fn copied(&self, alloc: Global) -> Result<Self, Memory> {
        Ok(Cell {
            kind: self.kind,
            values: Items::of(Vec::from_slice(alloc, self.values.items())?),
        })
    }
}

impl Cell {
    /// An equal cell.
    pub fn copy(&self, alloc: Global) -> Result<Self, Memory>
        ensures { IfOk result (λ cell. cell ≡ self.now) }
    {
        let cell = self.copied(alloc)?;
        Ok(cell)
    }
}

impl Row {
    /// The row of these cells, which are in order. Takes no memory.
    pub fn of(cells: Items<Cell>) -> Self
        requires { IsRow cells }
        ensures { result ≡ cells }
    {
        Row { cells }
    }

    /// The row with no cells. Takes no memory.
    pub fn open(alloc: Global) -> Self
        ensures { result ≡ [] }
    {
        Row {
            cells: Items::new(alloc),
        }
    }

    /// The cells, in ascending order of their types. Takes no memory.
    pub fn cells(&self) -> &[Cell]
        ensures cells { result.now ≡ self.now }
        ensures order { IsStrictlySortedBy nat_cmp (kinds_of self.now) }
        ensures few { length self.now ≤ most_kinds }
    {
        self.cells.items()
    }

    /// The cell of a type, if there is one. Takes no memory, and time by the logarithm of the number of cells.
    pub fn cell(&self, kind: TypeNo) -> Option<&Cell>
        ensures { option_copied result ≡ cell_of self.now kind }
    {
        match place(self.cells.items(), kind) {
            Ok(at) => self.cells.get(at),
            Err(_) => None,
        }
    }

    /// Puts a cell in the place of the one of its type, or adds it where there is none. Answers false, and
    /// changes nothing, exactly where the type is new and there are 32 cells. Where there is no memory,
    /// nothing changes.
    pub fn put(&mut self, cell: Cell) -> Result<bool, Memory>
        ensures told { IfOk result (λ put. put ≡ takes_cell self.old cell) }
        ensures ok { OnOk result (self.new ≡ put_cell self.old cell) }
        ensures err { OnErr result (self.new ≡ self.old) }
    {
        match place(self.cells.items(), cell.kind) {
            Ok(at) => {
                self.cells.set(at, cell);
                Ok(true)
            }
            Err(at) => {
                if self.cells.len() >= MOST_KINDS {
                    return Ok(false);
                }
                self.cells.insert(at, cell)?;
                Ok(true)
            }
        }
    }

    /// An equal row.
    pub fn copy(&self, alloc: Global) -> Result<Self, Memory>
        ensures { IfOk result (λ row. row ≡ self.now) }
    {
        let cells = copies_of(alloc, self.cells.items())?;
        Ok(Row { cells })
    }
}
