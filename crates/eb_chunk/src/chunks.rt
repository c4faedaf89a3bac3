// A chunk: a block with the rows of one layout.
ghost use Rattle.std.specs.Prelude.{◌≡◌, ◌+◌, ◌-◌, ◌≤◌, ◌<◌, [], ◌∷◌, ◌++◌, length, take, slice_set};
ghost use Rattle.std.specs.Prelude.{ℕ, List};
ghost use Rattle.eb_schema.specs.Schemas.{Types};
ghost use Rattle.eb_schema.specs.Layouts.{capacity, column_at, columns_of};
ghost use Rattle.eb_schema.specs.Slots.{Fits, width};
ghost use Rattle.eb_chunk.specs.Columns.{IsNumber, column_of};
ghost use Rattle.eb_chunk.specs.Rows.{Alike, AreSlots, held, rows, row_of, row_in, slot_set, slot_in, with_carried, without_row};

use crate::carrying::carry_row;
use crate::cells::{read_entity, read_name, read_slot, write_slot};
use crate::rows::{copy_row_from, move_row, write_row};
use crate::views::ColumnView;
use eb_base::{Entity, Name};
use eb_block::Block;
use eb_schema::{Layout, Slot};
use std::marker::Model;

/// A block with rows of one layout, which each call is given. Contracts see the block's bytes and the number of rows,
/// and in them the list of the rows. No call takes memory. `docs/chunks.md`.
#[derive(Drop)]
pub struct Chunk {
    block: Block,
    len: u32,
}

impl Model for Chunk {
    ghost use Rattle.eb_chunk.specs.Rows.{Held, held};

    ghost Value = { Held };

    ghost view = { λ c. held c.block c.len };
}

impl Chunk {
    /// An empty chunk in this block.
    pub fn open(block: Block) -> Self
        ensures { result ≡ held block 0 }
    {
        Chunk { block, len: 0 }
    }

    /// The block, whatever it holds.
    pub fn close(self) -> Block
        ensures { result ≡ self.bytes }
    {
        self.block
    }

    /// How many rows there are.
    pub fn len(&self) -> u32
        ensures { result ≡ self.now.len }
    {
        self.len
    }

    /// Adds a row. There is room for it, and there is a value for each column, which fits.
    pub fn push(&mut self, layout: &Layout, entity: Entity, name: Name, slots: &[Slot])
        requires room { self.old.len < capacity layout.now }
        requires slots { AreSlots layout.now slots.now }
        ensures rows { rows layout.now self.new ≡ rows layout.now self.old ++ row_of entity name slots.now ∷ [] }
        ensures len { self.new.len ≡ self.old.len + 1 }
    {
        let _most = layout.capacity();
        write_row(&mut self.block, layout, self.len, entity, name, slots);
        self.len += 1;
    }

    /// The entity of a row.
    pub fn entity_at(&self, layout: &Layout, row: u32) -> Entity
        requires own { self.now.len ≤ capacity layout.now }
        requires row { row < self.now.len }
        ensures { result ≡ (row_in (rows layout.now self.now) row).entity }
    {
        read_entity(&self.block, layout, row)
    }

    /// The name of a row.
    pub fn name_at(&self, layout: &Layout, row: u32) -> Name
        requires own { self.now.len ≤ capacity layout.now }
        requires row { row < self.now.len }
        ensures { result ≡ (row_in (rows layout.now self.now) row).name }
    {
        read_name(&self.block, layout, row)
    }

    /// The value of a row in a column.
    pub fn get(&self, layout: &Layout, row: u32, column: u32) -> Slot
        requires own { self.now.len ≤ capacity layout.now }
        requires row { row < self.now.len }
        requires column { column < length layout.now }
        ensures value { result ≡ slot_in (rows layout.now self.now) row column }
        ensures fits { Fits (column_at layout.now column).holds result }
    {
        read_slot(&self.block, layout, row, column)
    }

    /// Sets the value of a row in a column; it fits the column.
    pub fn set(&mut self, layout: &Layout, row: u32, column: u32, slot: Slot)
        requires own { self.old.len ≤ capacity layout.now }
        requires row { row < self.old.len }
        requires column { column < length layout.now }
        requires fits { Fits (column_at layout.now column).holds slot }
        ensures rows { rows layout.now self.new ≡ slot_set (rows layout.now self.old) row column slot }
        ensures len { self.new.len ≡ self.old.len }
    {
        write_slot(&mut self.block, layout, row, column, slot);
    }

    /// Drops the last row; there is one.
    pub fn take_last(&mut self, layout: &Layout)
        requires { 0 < self.old.len }
        ensures rows { rows layout.now self.new ≡ take (self.old.len - 1) (rows layout.now self.old) }
        ensures len { self.new.len ≡ self.old.len - 1 }
    {
        let _layout = layout;
        self.len -= 1;
    }

    /// Moves the last row of `last`, a chunk of the same layout that has a row, into a row of this chunk.
    pub fn fill_gap(&mut self, layout: &Layout, row: u32, last: &mut Chunk)
        requires own { (self.old.len ≤ capacity layout.now) × (last.old.len ≤ capacity layout.now) }
        requires row { row < self.old.len }
        requires some { 0 < last.old.len }
        ensures rows { rows layout.now self.new ≡ slice_set (rows layout.now self.old) row (row_in (rows layout.now last.old) (last.old.len - 1)) }
        ensures len { self.new.len ≡ self.old.len }
        ensures last { rows layout.now last.new ≡ take (last.old.len - 1) (rows layout.now last.old) }
        ensures last_len { last.new.len ≡ last.old.len - 1 }
    {
        copy_row_from(&mut self.block, layout, row, &last.block, last.len - 1);
        last.take_last(layout);
    }

    /// Moves the last row into a row; where that is the last, it is dropped.
    pub fn fill_own(&mut self, layout: &Layout, row: u32)
        requires own { self.old.len ≤ capacity layout.now }
        requires row { row < self.old.len }
        ensures rows { rows layout.now self.new ≡ without_row self.old.len (rows layout.now self.old) row }
        ensures len { self.new.len ≡ self.old.len - 1 }
    {
        move_row(&mut self.block, layout, row, self.len - 1);
        self.len -= 1;
    }

    /// Adds a row of another chunk, which has a layout of its own: the values of the fields that both layouts have, and
    /// zeros in the other columns. There is room for it, and a field of both holds the same in both.
    pub fn append_from(&mut self, layout: &Layout, from: &Chunk, from_layout: &Layout, row: u32)
        requires room { self.old.len < capacity layout.now }
        requires own { from.now.len ≤ capacity from_layout.now }
        requires row { row < from.now.len }
        requires alike { Alike layout.now from_layout.now }
        ensures rows { rows layout.now self.new ≡ with_carried layout.now from_layout.now (rows layout.now self.old) (rows from_layout.now from.now) row }
        ensures len { self.new.len ≡ self.old.len + 1 }
    {
        let _most = layout.capacity();
        carry_row(
            &mut self.block,
            layout,
            self.len,
            &from.block,
            from_layout,
            row,
        );
        self.len += 1;
    }

    /// The numbers of a column, which is `W` bytes wide.
    pub fn column<const W: usize>(&self, layout: &Layout, column: u32) -> ColumnView<'_, W>
        requires own { self.now.len ≤ capacity layout.now }
        requires column { column < length layout.now }
        requires number { IsNumber (column_at layout.now column).holds }
        requires width { width (column_at layout.now column).holds ≡ W }
        ensures numbers { result ≡ column_of (rows layout.now self.now) column }
        ensures len { length result ≡ self.now.len }
    {
        let _most = layout.capacity();
        let start = layout.start_of(column) as usize;
        let rows = self.len as usize;
        ColumnView::of(self.block.read(start, rows * W), rows)
    }
}

/// The law that layouts of one schema agree on what their common fields hold, as `append_from` asks.
pub fn layouts_of_a_schema_are_alike()
    ensures { (types : Types) (kinds others : List ℕ) → Alike (columns_of types kinds) (columns_of types others) }
{}
