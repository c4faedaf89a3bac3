// Layouts of types of one schema, and values as bytes.
use crate::layout_texts::layout;
use eb_base::Entity;
use eb_schema::{Kind, Slot, get_slot, put_slot};
use std::alloc::Global;

/// Row bytes, capacity, number of columns and start of the last column of the layout of these types.
fn layout_of(alloc: Global, numbers: &[u8]) -> Option<(u32, u32, u32, u32)> {
    let layout = layout(alloc, numbers)?;
    let columns = layout.columns();
    let start = if columns == 0 {
        0
    } else {
        layout.start_of(columns - 1)
    };
    Some((layout.row_bytes(), layout.capacity(), columns, start))
}

#[test]
fn layouts_have_their_columns(rt: HostRuntime) {
    let alloc = rt.alloc();
    assert_eq!(rt; layout_of(alloc, &[]), Some((28, 128, 0, 0)));
    assert_eq!(rt; layout_of(alloc, &[1]), Some((36, 128, 1, 3584)));
    assert_eq!(rt; layout_of(alloc, &[5]), Some((63, 128, 6, 6528)));
    assert_eq!(rt; layout_of(alloc, &[7]), Some((220, 74, 16, 15392)));
    assert_eq!(rt; layout_of(alloc, &[9, 7, 8]), Some((512, 32, 45, 16256)));
}

/// The bytes of a number of 16 bits, and the number that they hold again.
fn written(number: i64) -> Option<(u8, u8, Slot)> {
    if number < -32768 || number > 32767 {
        return None;
    }
    let mut bytes = [0, 0];
    put_slot(Kind::I16, Slot::Num(number), &mut bytes);
    Some((bytes[0], bytes[1], get_slot(Kind::I16, &bytes)))
}

#[test]
fn the_low_byte_comes_first(rt: HostRuntime) {
    assert_eq!(rt; written(258), Some((2, 1, Slot::Num(258))));
    assert_eq!(rt; written(-2), Some((254, 255, Slot::Num(-2))));
    assert_eq!(rt; written(40000), None);
    let mut bytes = [0; 12];
    put_slot(Kind::Ref, Slot::Link(Entity::NULL), &mut bytes);
    assert_eq!(rt; get_slot(Kind::Ref, &bytes), Slot::Link(Entity::NULL));
}
