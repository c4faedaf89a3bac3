// What is baked, under names: each call once with ample memory.
use eb_base::{Name, Place};
use eb_schema::{Baked, Row};
use std::alloc::Global;

/// The name of the entity of an object.
fn name(object: u32) -> Name {
    Name {
        play: 0,
        scene: 4,
        object,
        extra: 0,
    }
}

/// Puts an entity without components into a section.
fn put(alloc: Global, baked: &mut Baked, object: u32, section: u8) -> Option<()> {
    let place = Place { scene: 4, section };
    baked.put(name(object), place, Row::open(alloc)).ok()?;
    Some(())
}

/// The section of an entity, and how many components it has.
fn section_of(baked: &Baked, object: u32) -> Option<(u8, usize)> {
    match baked.get(&name(object)) {
        Some((place, row)) => Some((place.section, row.cells().len())),
        None => None,
    }
}

/// The objects of all entities, in the order in which they are told, joined as digits.
fn order_of(baked: &Baked) -> u32 {
    let mut digits = 0u32;
    for (name, _) in baked.iter() {
        digits = digits.wrapping_mul(10).wrapping_add(name.object);
    }
    digits
}

/// A map of four entities, of which one was put twice and another is taken away, twice.
fn changed(alloc: Global) -> Option<(Baked, bool, bool)> {
    let mut baked = Baked::open(alloc);
    put(alloc, &mut baked, 9, 1)?;
    put(alloc, &mut baked, 2, 1)?;
    put(alloc, &mut baked, 5, 1)?;
    put(alloc, &mut baked, 7, 0)?;
    put(alloc, &mut baked, 2, 3)?;
    let first = baked.take(&name(5));
    let second = baked.take(&name(5));
    Some((baked, first, second))
}

/// Whether a copy has the names 2, 7 and 9, ascending.
fn is_copied(alloc: Global, baked: &Baked) -> Option<bool> {
    let copy = baked.copy(alloc).ok()?;
    let names = copy.names(alloc).ok()?;
    Some(names.as_slice() == [name(2), name(7), name(9)].as_slice())
}

#[test]
fn baked_entities_are_kept_by_name(rt: HostRuntime) {
    let alloc = rt.alloc();
    let (baked, first, second) = changed(alloc).expect(&rt, "there is memory");
    assert_eq!(rt; [first, second], [true, false]);
    assert_eq!(rt; baked.len(), 3);
    assert_eq!(rt; order_of(&baked), 279);
    assert_eq!(rt; section_of(&baked, 2), Some((3, 0)));
    assert_eq!(rt; section_of(&baked, 7), Some((0, 0)));
    assert_eq!(rt; section_of(&baked, 5), None);
    assert_eq!(rt; is_copied(alloc, &baked), Some(true));
}
