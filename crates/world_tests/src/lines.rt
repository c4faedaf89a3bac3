// Values, names and tags as text, and the lines of a small world.
ghost use Rattle.std.specs.Prelude.{◌≡◌, IfOk};
ghost use Rattle.eb_schema.specs.Schemas.{plain_types};

use crate::plain::{empty, name, put};
use eb_base::{Memory, Name, Place, Tag, Text};
use eb_query::{Query, put_field, put_name, put_tag};
use eb_schema::{Field, Kind, Schema, Val};
use eb_world::World;
use std::alloc::Global;

/// Values of a field `f` of a kind, each with its text.
const VALUES: [(Kind, Val, &str); 7] = [
    (Kind::I64, Val::Num(i64::MIN), "f=-9223372036854775808"),
    (Kind::I8, Val::Num(0), "f=0"),
    (Kind::Fix, Val::Num(6553), "f=0.0999908447265625"),
    (Kind::Fix, Val::Num(-6554), "f=-0.100006103515625"),
    (
        Kind::Ref,
        Val::To(Name {
            play: 0,
            scene: 1,
            object: 2,
            extra: 0,
        }),
        "f=0.1.2.0",
    ),
    (Kind::Ref, Val::Null, "f=null"),
    (Kind::Ref, Val::Gone, "f=gone"),
];

/// Names of objects of scene 1 and tags, each with its text.
const HEADS: [(u32, Tag, &str); 2] = [
    (
        4_294_967_295,
        Some(Place {
            scene: 16,
            section: 63,
        }),
        "0.1.4294967295.016:63",
    ),
    (7, None, "0.1.7.0-"),
];

/// The text of a value of a field `f`.
fn field_text(alloc: Global, kind: Kind, value: Val) -> Result<Vec<u8>, Memory> {
    let field = Field {
        name: Text::of(alloc, b"f")?,
        kind,
    };
    let mut out = Vec::new(alloc);
    put_field(&mut out, &field, value)?;
    Ok(out)
}

/// The text of a name and a tag.
fn head_text(alloc: Global, object: u32, tag: Tag) -> Result<Vec<u8>, Memory> {
    let mut out = Vec::new(alloc);
    put_name(&mut out, name(object))?;
    put_tag(&mut out, tag)?;
    Ok(out)
}

/// Whether these are the bytes that were written.
fn is(written: Result<Vec<u8>, Memory>, text: &str) -> bool {
    match written {
        Ok(bytes) => bytes.as_slice() == text.as_bytes(),
        Err(_) => false,
    }
}

/// The first text that isn't that of its value.
fn other_field(alloc: Global, cases: &[(Kind, Val, &'static str)]) -> Option<&'static str> {
    for (kind, value, text) in cases {
        if !is(field_text(alloc, *kind, *value), text) {
            return Some(*text);
        }
    }
    None
}

/// The first text that isn't that of its name and tag.
fn other_head(alloc: Global, cases: &[(u32, Tag, &'static str)]) -> Option<&'static str> {
    for (object, tag, text) in cases {
        if !is(head_text(alloc, *object, *tag), text) {
            return Some(*text);
        }
    }
    None
}

/// A world of three entities, made in another order than that of their names.
fn unordered(alloc: Global) -> Result<World, Memory>
    ensures { IfOk result (λ world. world.types ≡ plain_types) }
{
    let mut world = empty(alloc)?;
    let tag = Some(Place {
        scene: 1,
        section: 0,
    });
    put(alloc, &mut world, tag, 10, -3)?;
    put(alloc, &mut world, tag, 2, 8)?;
    put(alloc, &mut world, tag, 9, 0)?;
    Ok(world)
}

/// The lines of its entities.
fn dump(alloc: Global) -> Option<Text> {
    let schema = Schema::plain(alloc).ok()?;
    let world = unordered(alloc).ok()?;
    let query = Query::of(alloc, &schema, &[], &[], &[]).ok()?;
    query.rows_text(alloc, &world, &schema).ok()
}

/// Whether they ascend by name.
fn is_dumped(alloc: Global, wanted: &str) -> bool {
    match dump(alloc) {
        Some(text) => text.is(wanted.as_bytes()),
        None => false,
    }
}

const DUMP: &str = "0.1.2.0 1:0 Value(v=8)\n0.1.9.0 1:0 Value(v=0)\n0.1.10.0 1:0 Value(v=-3)\n";

#[test]
fn entities_are_written(rt: HostRuntime) {
    assert_eq!(rt; other_field(rt.alloc(), &VALUES), None);
    assert_eq!(rt; other_head(rt.alloc(), &HEADS), None);
    assert!(rt; is_dumped(rt.alloc(), DUMP));
}
