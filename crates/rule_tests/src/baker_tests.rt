// Bakers found by number and by type.
use eb_base::AuthorNo;
use eb_rules::Rules;
use eb_schema::Schema;
use serde_json::Value;
use std::alloc::Global;

/// Types with gaps between their numbers.
const SCHEMA: &str = r#"{"assets":[],"authoring":[
{"copy":null,"fields":[],"name":"Div","number":3},
{"copy":null,"fields":[],"name":"Gun","number":5},
{"copy":null,"fields":[["hp","i64"]],"name":"Stats","number":8}],"components":[]}"#;

/// Bakers of which the first in the text is not the one with the lowest number.
const BAKERS: &str =
    "baker 9 on Stats { } baker 64 on Gun { } system 3 { } baker 5 on Stats { } baker 1 on Stats { let x = this.hp; }";

/// Numbers of authoring types, and those of their bakers.
const BY_TYPE: [(u8, &[u8]); 5] = [(8, &[1, 5, 9]), (5, &[64]), (3, &[]), (1, &[]), (128, &[])];

/// Numbers, and the types of their bakers.
const BY_NUMBER: [(u8, Option<u8>); 7] = [
    (0, None),
    (1, Some(8)),
    (2, None),
    (5, Some(8)),
    (9, Some(8)),
    (64, Some(5)),
    (65, None),
];

fn schema(alloc: Global) -> Option<Schema> {
    let document = Value::from_str(alloc, SCHEMA).ok()?;
    Schema::read(alloc, &document).ok()
}

fn bakers_are(rules: &Rules, kind: u8, wanted: &[u8]) -> bool {
    match AuthorNo::new(kind) {
        Some(kind) => rules.bakers_of(kind) == wanted,
        None => false,
    }
}

fn type_of_baker(rules: &Rules, number: u8) -> Option<u8> {
    let baker = rules.resolved().baker(number)?;
    Some(baker.authoring.number())
}

/// The first type with other bakers.
fn first_wrong_type(rules: &Rules, cases: &[(u8, &[u8])]) -> Option<u8> {
    for (kind, wanted) in cases {
        if !bakers_are(rules, *kind, wanted) {
            return Some(*kind);
        }
    }
    None
}

/// The first number with another baker.
fn first_wrong_number(rules: &Rules, cases: &[(u8, Option<u8>)]) -> Option<u8> {
    for (number, wanted) in cases {
        if type_of_baker(rules, *number) != *wanted {
            return Some(*number);
        }
    }
    None
}

/// The first type or number that is found wrong; 255 where there are no rules.
fn first_wrong_baker(alloc: Global) -> Option<u8> {
    let Some(schema) = schema(alloc) else {
        return Some(255);
    };
    match Rules::read(alloc, BAKERS.as_bytes(), &schema) {
        Ok(rules) => {
            first_wrong_type(&rules, &BY_TYPE).or(first_wrong_number(&rules, &BY_NUMBER))
        }
        Err(_) => Some(255),
    }
}

#[test]
fn bakers_are_found(rt: HostRuntime) {
    assert_eq!(rt; first_wrong_baker(rt.alloc()), None);
}
