// The numbers of one column, read straight from a block.
ghost use Rattle.std.specs.Prelude.{◌≡◌, ◌≤◌, ◌<◌, ◌*◌, ℕ, ℤ, pos, List, length, slice_index_or, Some, FitsSigned};
ghost use Rattle.std.specs.Int.{w64};
ghost use Rattle.eb_chunk.specs.Columns.{IsWidth, IsView, number_of, numbers, total_of, greatest, greatest_of};

use std::marker::Model;

/// The numbers of one column of a chunk, each `W` bytes wide. Contracts see the list of the numbers, in the order of
/// the rows. `docs/chunks.md`.
#[derive(Drop)]
pub struct ColumnView<'a, const W: usize> {
    bytes: &'a [u8],
    rows: usize,
}

impl<'a, const W: usize> Model for ColumnView<'a, W> {
    ghost use Rattle.std.specs.Prelude.{ℤ, List};
    ghost use Rattle.eb_chunk.specs.Columns.{IsView, numbers};

    ghost Value = { List ℤ };

    ghost view = { λ v. numbers W v.rows v.bytes.now };

    ghost invariant = { λ v. IsView W v.rows v.bytes.now };
}

// The number that as many bytes hold as it is wide.
#[inline(always)]
fn number(width: usize, bytes: &[u8]) -> i64
    requires width { IsWidth width }
    requires size { length bytes.now ≡ width }
    ensures value { result ≡ number_of width bytes.now }
    ensures fits { FitsSigned w64 result }
{
    match width {
        1 => i64::from(bytes[0].cast_signed()),
        2 => i64::from(u16::from_le_bytes([bytes[0], bytes[1]]).cast_signed()),
        4 => i64::from(u32::from_le_bytes([bytes[0], bytes[1], bytes[2], bytes[3]]).cast_signed()),
        _ => u64::from_le_bytes([
            bytes[0], bytes[1], bytes[2], bytes[3], bytes[4], bytes[5], bytes[6], bytes[7],
        ])
        .cast_signed(),
    }
}

// One of so many numbers.
#[inline(always)]
fn number_at(width: usize, bytes: &[u8], rows: usize, row: usize) -> i64
    requires view { IsView width rows bytes.now }
    requires row { row < rows }
    ensures value { result ≡ slice_index_or (numbers width rows bytes.now) row (pos 0) }
    ensures fits { FitsSigned w64 result }
{
    let at = row * width;
    number(width, &bytes[at..][..width])
}

// The sum of so many numbers.
#[inline(always)]
fn sum_of(width: usize, bytes: &[u8], rows: usize) -> i128
    requires { IsView width rows bytes.now }
    ensures { result ≡ total_of (numbers width rows bytes.now) }
{
    let mut sum = 0;
    for row in 0..rows {
        sum += i128::from(number_at(width, bytes, rows, row));
    }
    sum
}

// The greatest of so many numbers.
#[inline(always)]
fn greatest_in(width: usize, bytes: &[u8], rows: usize) -> i64
    requires view { IsView width rows bytes.now }
    requires some { 0 < rows }
    ensures { greatest_of (numbers width rows bytes.now) ≡ Some result }
{
    let mut best = number_at(width, bytes, rows, 0);
    for row in 1..rows {
        best = best.max(number_at(width, bytes, rows, row));
    }
    best
}

impl<'a, const W: usize> ColumnView<'a, W> {
    /// The view of so many numbers.
    pub(crate) fn of(bytes: &'a [u8], rows: usize) -> Self
        requires { IsView W rows bytes.now }
        ensures { result ≡ numbers W rows bytes.now }
    {
        ColumnView { bytes, rows }
    }

    /// The number of a row.
    pub fn num(&self, row: u32) -> i64
        requires { row < length self.now }
        ensures { result ≡ slice_index_or self.now row (pos 0) }
    {
        number_at(W, self.bytes, self.rows, row as usize)
    }

    /// The sum of all numbers.
    pub fn sum(&self) -> i128
        ensures { result ≡ total_of self.now }
    {
        sum_of(W, self.bytes, self.rows)
    }

    /// The greatest number, if there is one.
    pub fn max(&self) -> Option<i64>
        ensures { result ≡ greatest_of self.now }
    {
        if self.rows == 0 {
            return None;
        }
        Some(greatest_in(W, self.bytes, self.rows))
    }
}
