// Rows of chunks that move, and columns of each width, with numbers that were worked out by hand.
ghost use Rattle.std.specs.Prelude.{◌≡◌, length};

use crate::layout_texts::{layout, schema, types};
use crate::row_lines::{Line, are_lines, chunk, has_row, is_line, line_of, push};
use eb_base::Entity;
use eb_chunk::{Chunk, ColumnView, layouts_of_a_schema_are_alike};
use eb_schema::{Kind, Layout, Schema, Slot, TypeSet};
use std::alloc::Global;

/// A row of one number, three times that of its entity less 100.
fn counted(alloc: Global, index: u32) -> Option<Line> {
    let number = 3 * i64::from(index) - 100;
    Some(line_of(index, Vec::from_slice(alloc, &[Slot::Num(number)]).ok()?))
}

/// Rows of one number each.
fn counted_lines(alloc: Global, indices: &[u32]) -> Option<Vec<Line>> {
    let mut lines = Vec::new(alloc);
    for index in indices {
        lines.push(counted(alloc, *index)?).ok()?;
    }
    Some(lines)
}

/// A chunk of so many rows of one number each.
fn counted_chunk(alloc: Global, layout: &Layout, rows: u32) -> Option<Chunk> {
    let mut chunk = chunk(alloc)?;
    for index in 0..rows {
        if !push(&mut chunk, layout, &counted(alloc, index)?) {
            return None;
        }
    }
    Some(chunk)
}

/// The sum of a column of numbers, its greatest and its first.
type Told = (i128, Option<i64>, Option<i64>);

/// What a view of so many rows tells.
fn told_by<const W: usize>(view: &ColumnView<'_, W>, rows: u32) -> Told
    requires { length view.now ≡ rows }
{
    let first = if rows > 0 { Some(view.num(0)) } else { None };
    (view.sum(), view.max(), first)
}

/// What a column of numbers tells, read as wide as it is.
fn told(chunk: &Chunk, layout: &Layout, column: u32) -> Option<Told> {
    let rows = chunk.len();
    if column >= layout.columns() || rows > layout.capacity() {
        return None;
    }
    match layout.kind_at(column) {
        Kind::I8 => Some(told_by(&chunk.column::<1>(layout, column), rows)),
        Kind::I16 => Some(told_by(&chunk.column::<2>(layout, column), rows)),
        Kind::I32 => Some(told_by(&chunk.column::<4>(layout, column), rows)),
        Kind::I64 | Kind::Fix => Some(told_by(&chunk.column::<8>(layout, column), rows)),
        _ => None,
    }
}

/// Moves the last row of a full chunk into its first: whether one more was taken before, the rows that are left, whether the
/// first two are the right ones, and the sums before and after.
fn filled(alloc: Global) -> Option<(bool, u32, [bool; 2], [i128; 2])> {
    let layout = layout(alloc, &[1])?;
    let mut chunk = counted_chunk(alloc, &layout, 128)?;
    let more = push(&mut chunk, &layout, &counted(alloc, 128)?);
    let before = told(&chunk, &layout, 0)?.0;
    if !has_row(&chunk, &layout, 0) {
        return None;
    }
    chunk.fill_own(&layout, 0);
    let first = is_line(&chunk, &layout, 0, &counted(alloc, 127)?);
    let second = is_line(&chunk, &layout, 1, &counted(alloc, 1)?);
    let after = told(&chunk, &layout, 0)?.0;
    Some((more, chunk.len(), [first, second], [before, after]))
}

#[test]
fn a_full_chunk_is_filled_from_its_end(rt: HostRuntime) {
    assert_eq!(rt;
        filled(rt.alloc()),
        Some((false, 127, [true; 2], [11584, 11684]))
    );
}

/// Moves the last of five rows into the second of three in another chunk, and drops the last of those: whether the rows of
/// both chunks are the right ones.
fn gap(alloc: Global) -> Option<[bool; 2]> {
    let layout = layout(alloc, &[1])?;
    let mut chunk = counted_chunk(alloc, &layout, 3)?;
    let mut last = counted_chunk(alloc, &layout, 5)?;
    if !has_row(&chunk, &layout, 1) || !has_row(&last, &layout, 4) {
        return None;
    }
    chunk.fill_gap(&layout, 1, &mut last);
    chunk.take_last(&layout);
    let kept = counted_lines(alloc, &[0, 4])?;
    let left = counted_lines(alloc, &[0, 1, 2, 3])?;
    Some([
        are_lines(&chunk, &layout, &kept),
        are_lines(&last, &layout, &left),
    ])
}

#[test]
fn a_gap_is_filled_from_another_chunk(rt: HostRuntime) {
    assert_eq!(rt; gap(rt.alloc()), Some([true; 2]));
}

/// Adds a row with the columns of some types to a chunk with those of others: whether it is the wanted one there.
fn carried_as(
    alloc: Global,
    schema: &Schema,
    from_types: &TypeSet,
    to_types: &TypeSet,
    given: &Line,
    wanted: &Line,
) -> Option<bool> {
    let from_layout = Layout::of(alloc, schema, from_types).ok()?;
    let layout = Layout::of(alloc, schema, to_types).ok()?;
    let mut from = chunk(alloc)?;
    let mut to = chunk(alloc)?;
    let pushed = push(&mut from, &from_layout, given);
    if !pushed || !has_row(&from, &from_layout, 0) || to.len() >= layout.capacity() {
        return None;
    }
    layouts_of_a_schema_are_alike();
    to.append_from(&layout, &from, &from_layout, 0);
    Some(is_line(&to, &layout, 0, wanted))
}

/// The same, where the types are given by their numbers.
fn carried_between(
    alloc: Global,
    schema: &Schema,
    from: &[u8],
    to: &[u8],
    given: &Line,
    wanted: &Line,
) -> Option<bool> {
    let from_types = types(alloc, from)?;
    let to_types = types(alloc, to)?;
    carried_as(alloc, schema, &from_types, &to_types, given, wanted)
}

/// Whether a row with these values of some types has those values in the columns of others.
fn is_carried(
    alloc: Global,
    schema: &Schema,
    from: &[u8],
    to: &[u8],
    slots: &[Slot],
    want: &[Slot],
) -> Option<bool> {
    let given = line_of(9, Vec::from_slice(alloc, slots).ok()?);
    let wanted = line_of(9, Vec::from_slice(alloc, want).ok()?);
    carried_between(alloc, schema, from, to, &given, &wanted)
}

/// Rows that are carried to more columns, to fewer, to none, to others and to the same.
fn carried(alloc: Global, schema: &Schema) -> [Option<bool>; 5] {
    let [one, two, zero] = [Slot::Num(7), Slot::Num(8), Slot::Num(0)];
    let small = Slot::Num(-3);
    let link = Slot::Link(Entity {
        index: 3,
        serial: 1 << 40,
    });
    let null = Slot::Link(Entity::NULL);
    let each = [small, small, small, small, one, link];
    let none = [zero, zero, zero, zero, zero, null];
    [
        is_carried(alloc, schema, &[1], &[4, 1], &[one], &[one, zero]),
        is_carried(alloc, schema, &[4, 1], &[4], &[one, two], &[two]),
        is_carried(alloc, schema, &[1], &[], &[one], &[]),
        is_carried(alloc, schema, &[1, 4], &[5], &[one, two], &none),
        is_carried(alloc, schema, &[5], &[5], &each, &each),
    ]
}

#[test]
fn rows_are_carried_by_their_fields(rt: HostRuntime) {
    let alloc = rt.alloc();
    let schema = schema(alloc).expect(&rt, "the document is a schema");
    assert_eq!(rt; carried(alloc, &schema), [Some(true); 5]);
}

/// What the first six columns tell.
fn told_of_six(chunk: &Chunk, layout: &Layout) -> [Option<Told>; 6] {
    let mut told_of = [None; 6];
    for column in 0..6 {
        told_of[column] = told(chunk, layout, column as u32);
    }
    told_of
}

/// What the columns of all kinds tell in a chunk of these rows.
fn columns(alloc: Global, rows: &[[Slot; 6]]) -> Option<[Option<Told>; 6]> {
    let layout = layout(alloc, &[5])?;
    let mut chunk = chunk(alloc)?;
    for row in rows {
        if !push(
            &mut chunk,
            &layout,
            &line_of(1, Vec::from_slice(alloc, row).ok()?),
        ) {
            return None;
        }
    }
    Some(told_of_six(&chunk, &layout))
}

#[test]
fn columns_of_each_width_are_summed(rt: HostRuntime) {
    let alloc = rt.alloc();
    let num = Slot::Num;
    let null = Slot::Link(Entity::NULL);
    let nothing = Some((0, None, None));
    let empty = [nothing, nothing, nothing, nothing, nothing, None];
    assert_eq!(rt; columns(alloc, &[]), Some(empty));
    let least = [
        num(-128),
        num(-32768),
        num(-2147483648),
        num(i64::MIN),
        num(-65536),
        null,
    ];
    let most = [
        num(127),
        num(32767),
        num(2147483647),
        num(i64::MAX),
        num(98304),
        null,
    ];
    let small = [num(1), num(2), num(3), num(4), num(5), null];
    let full = [
        Some((0, Some(127), Some(-128))),
        Some((1, Some(32767), Some(-32768))),
        Some((2, Some(2147483647), Some(-2147483648))),
        Some((3, Some(i64::MAX), Some(i64::MIN))),
        Some((32773, Some(98304), Some(-65536))),
        None,
    ];
    assert_eq!(rt; columns(alloc, &[least, most, small]), Some(full));
}

/// A row with a value of each kind.
fn graded(alloc: Global, row: u32) -> Option<Line> {
    let number = i64::from(row);
    let slots = [
        Slot::Num(number - 64),
        Slot::Num(100 * number),
        Slot::Num(1000 * number),
        Slot::Num(number),
        Slot::Num(-number),
        Slot::Link(Entity::NULL),
    ];
    Some(line_of(row, Vec::from_slice(alloc, &slots).ok()?))
}

/// What the columns of all kinds tell of 128 rows, of which the last has filled the first.
fn columns_filled(alloc: Global) -> Option<[Option<Told>; 6]> {
    let layout = layout(alloc, &[5])?;
    let mut chunk = chunk(alloc)?;
    for row in 0..128 {
        if !push(&mut chunk, &layout, &graded(alloc, row)?) {
            return None;
        }
    }
    if !has_row(&chunk, &layout, 0) {
        return None;
    }
    chunk.fill_own(&layout, 0);
    Some(told_of_six(&chunk, &layout))
}

#[test]
fn columns_of_each_width_are_filled(rt: HostRuntime) {
    let want = [
        Some((0, Some(63), Some(63))),
        Some((812800, Some(12700), Some(12700))),
        Some((8128000, Some(127000), Some(127000))),
        Some((8128, Some(127), Some(127))),
        Some((-8128, Some(-1), Some(-127))),
        None,
    ];
    assert_eq!(rt; columns_filled(rt.alloc()), Some(want));
}
