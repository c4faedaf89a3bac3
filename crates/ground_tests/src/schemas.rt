// Each public call of a schema once with ample memory, on the fixture.
use crate::fixture::FIXTURE;
use eb_base::{AuthorNo, TypeNo};
use eb_schema::{Mode, Schema};
use serde_json::Value;
use std::alloc::Global;

/// A copy of the schema of the fixture.
fn fixture_schema(alloc: Global) -> Option<Schema> {
    let document = Value::from_str(alloc, FIXTURE).ok()?;
    let schema = Schema::read(alloc, &document).ok()?;
    schema.copy(alloc).ok()
}

/// The number of the component type of this name, or 0.
fn component_number(schema: &Schema, name: &[u8]) -> u8 {
    match schema.component_named(name) {
        Some(kind) => kind.number(),
        None => 0,
    }
}

/// The number of the authoring type of this name, or 0.
fn authoring_number(schema: &Schema, name: &[u8]) -> u8 {
    match schema.authoring_named(name) {
        Some(kind) => kind.number(),
        None => 0,
    }
}

/// What baking does with the component type of this number, and how many fields it has.
fn component_facts(schema: &Schema, number: u8) -> Option<(Mode, usize)> {
    let found = schema.component(TypeNo::new(number)?)?;
    Some((found.mode, found.fields.items().len()))
}

/// The number that the authoring type of this number is copied to, and how many fields it has.
fn authoring_facts(schema: &Schema, number: u8) -> Option<(Option<TypeNo>, usize)> {
    let found = schema.authoring(AuthorNo::new(number)?)?;
    Some((found.copy, found.fields.items().len()))
}

/// How many component types, authoring types and fields of assets there are; and the numbers of a component type, of
/// none, of an authoring type, and of none.
fn numbers(schema: &Schema) -> ([usize; 3], [u8; 4]) {
    let counts = [
        schema.components().len(),
        schema.authoring_types().len(),
        schema.asset_fields().len(),
    ];
    let named = [
        component_number(schema, b"Hidden"),
        component_number(schema, b"Nest"),
        authoring_number(schema, b"Gun"),
        authoring_number(schema, b"Near"),
    ];
    (counts, named)
}

/// The number of the one type of the plain schema.
fn plain_number(alloc: Global) -> u8 {
    match Schema::plain(alloc) {
        Ok(schema) => component_number(&schema, b"Value"),
        Err(_) => 0,
    }
}

/// What is told of the component types 14 and 16, and of the authoring types 11 and 17.
fn facts(
    schema: &Schema,
) -> (
    [Option<(Mode, usize)>; 2],
    [Option<(Option<TypeNo>, usize)>; 2],
) {
    let components = [component_facts(schema, 14), component_facts(schema, 16)];
    let authoring = [authoring_facts(schema, 11), authoring_facts(schema, 17)];
    (components, authoring)
}

#[test]
fn the_fixture_is_read(rt: HostRuntime) {
    let schema = fixture_schema(rt.alloc());
    assert_eq!(rt;
        schema.as_ref().map(numbers),
        Some(([15, 16, 1], [15, 0, 12, 0]))
    );
    assert_eq!(rt;
        schema.as_ref().map(facts),
        Some((
            [Some((Mode::Baking, 1)), None],
            [Some((TypeNo::new(9), 13)), None]
        ))
    );
}

#[test]
fn the_plain_schema_is_made(rt: HostRuntime) {
    assert_eq!(rt; plain_number(rt.alloc()), 1);
}
