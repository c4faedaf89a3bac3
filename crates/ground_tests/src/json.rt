// Each public call on documents once with ample memory, and expected values worked out by hand.
ghost use Rattle.std.specs.Prelude.{pos};
ghost use Rattle.eb_json.specs.Forms.{whole_number_at};

use eb_json::{
    Form, FormFault, after, document, has_keys, inside, is_null, is_text, list_of, list_within,
    member, natural_in, null_or, object, pair, text, whole_number, whole_number_in,
    whole_number_within,
};
use serde_json::Value;
use std::alloc::Global;

/// A whole number from 1 to 3.
struct Small;

impl Form for Small {
    type Read = i64;

    ghost reads = { λ _. whole_number_at (pos 1) (pos 3) };

    fn read(&self, _alloc: Global, place: u32, value: &Value) -> Result<i64, FormFault> {
        whole_number_in(place, value, 1, 3)
    }
}

/// The place of the wrong node.
fn wrong<T: Drop>(read: Result<T, FormFault>) -> Option<u32> {
    match read {
        Err(FormFault::Wrong { place }) => Some(place),
        _ => None,
    }
}

// ---- documents

/// Bytes, and the whole number that their document is; none where they are a document, but no whole number.
const DOCUMENTS: [(&[u8], Option<i64>); 8] = [
    (b"7", Some(7)),
    (b" -9223372036854775808 ", Some(i64::MIN)),
    (b"9223372036854775808", None),
    (b"-0", None),
    (b"1.0", None),
    (b"1e2", None),
    (b"null", None),
    (b"{\"a\":1,\"a\":2}", None),
];

/// Bytes that are no document.
const NO_DOCUMENTS: [&[u8]; 4] = [b"", b"{", b"1 2", b"\"\xff\""];

/// The whole number of a document, where bytes are one.
fn number_of(alloc: Global, bytes: &[u8]) -> Option<Option<i64>> {
    match document(alloc, bytes) {
        Ok(Some(value)) => Some(whole_number(&value)),
        _ => None,
    }
}

/// The place of the first bytes with another number.
fn other_number(alloc: Global, cases: &[(&[u8], Option<i64>)]) -> Option<usize> {
    for (index, (bytes, wanted)) in cases.iter().enumerate() {
        if number_of(alloc, bytes) != Some(*wanted) {
            return Some(index);
        }
    }
    None
}

/// Whether bytes are no document.
fn is_none(alloc: Global, bytes: &[u8]) -> bool {
    match document(alloc, bytes) {
        Ok(read) => read.is_none(),
        Err(_) => false,
    }
}

/// The place of the first bytes that are a document.
fn a_document(alloc: Global, cases: &[&[u8]]) -> Option<usize> {
    for (index, bytes) in cases.iter().enumerate() {
        if !is_none(alloc, bytes) {
            return Some(index);
        }
    }
    None
}

#[test]
fn documents_are_read(rt: HostRuntime) {
    assert_eq!(rt; other_number(rt.alloc(), &DOCUMENTS), None);
    assert_eq!(rt; a_document(rt.alloc(), &NO_DOCUMENTS), None);
}

// ---- plain values. The root is node 0, a 1, b 2, the two items of b 3 and 4, c 5, n 6

const PLAIN: &str = "{\"b\":[1,{\"c\":2}],\"a\":\"x\",\"n\":null}";

fn plain(alloc: Global) -> Option<Value> {
    Value::from_str(alloc, PLAIN).ok()
}

/// Whether the root has just these keys, and the wrong node where it hasn't.
fn keys(root: &Value) -> ([bool; 3], [Option<u32>; 3]) {
    (
        [
            has_keys(root, &["a", "b", "n"]),
            has_keys(root, &["a", "b"]),
            has_keys(root, &["a", "b", "c"]),
        ],
        [
            wrong(object(5, root, &["a", "b", "n"])),
            wrong(object(5, root, &["a"])),
            wrong(member(9, root, "c")),
        ],
    )
}

/// What is told of the texts a and b, and of the null n.
fn texts(root: &Value) -> Option<([bool; 5], Option<u32>)> {
    let a = member(0, root, "a").ok()?;
    let b = member(0, root, "b").ok()?;
    let n = member(0, root, "n").ok()?;
    Some((
        [
            is_text(a, "x"),
            is_text(a, "y"),
            text(1, a).ok() == Some("x"),
            is_null(n),
            is_null(a),
        ],
        wrong(text(2, b)),
    ))
}

/// Places inside and behind nodes.
fn places(root: &Value) -> Option<[u32; 5]> {
    let a = member(0, root, "a").ok()?;
    let b = member(0, root, "b").ok()?;
    Some([
        inside(0),
        after(1, a),
        after(2, b),
        after(0, root),
        after(u32::MAX - 2, root),
    ])
}

/// What is told of the items of b: numbers, and wrong nodes.
fn items(root: &Value) -> Option<([Option<i64>; 2], Option<u32>, [Option<u32>; 2])> {
    let b = member(0, root, "b").ok()?;
    let (first, second) = pair(2, b).ok()?;
    Some((
        [whole_number(first), whole_number_within(first, 2, 9)],
        natural_in(3, first, 1, 128).ok(),
        [wrong(natural_in(3, first, 2, 128)), wrong(pair(4, second))],
    ))
}

/// Whether all of this is told of the plain value.
fn is_told(alloc: Global) -> Option<[bool; 4]> {
    let root = plain(alloc)?;
    Some([
        keys(&root) == ([true, false, false], [None, Some(5), Some(9)]),
        texts(&root) == Some(([true, false, true, true, false], Some(2))),
        places(&root) == Some([1, 2, 6, 7, u32::MAX]),
        items(&root) == Some(([Some(1), None], Some(1), [Some(3), Some(4)])),
    ])
}

#[test]
fn plain_values_are_told(rt: HostRuntime) {
    assert_eq!(rt; is_told(rt.alloc()), Some([true; 4]));
}

// ---- lists

/// The first wrong nodes of a list, with no limit, one that it breaks and one that it keeps, and of what is no list.
fn wrong_items(alloc: Global) -> Option<[Option<u32>; 4]> {
    let list = Value::from_str(alloc, "[1,3,[2],4]").ok()?;
    let null = Value::from_str(alloc, "null").ok()?;
    Some([
        wrong(list_of(alloc, &Small, 10, &list)),
        wrong(list_within(alloc, &Small, 3, 10, &list)),
        wrong(list_within(alloc, &Small, 4, 10, &list)),
        wrong(list_of(alloc, &Small, 6, &null)),
    ])
}

/// Whether a list is read, and what reads null or a number of null and of a list.
fn read_items(alloc: Global) -> Option<(bool, bool, Option<u32>)> {
    let right = Value::from_str(alloc, "[1,3]").ok()?;
    let null = Value::from_str(alloc, "null").ok()?;
    let read = list_of(alloc, &Small, 0, &right).ok()?;
    Some((
        read.as_slice() == [1, 3].as_slice(),
        null_or(alloc, &Small, 0, &null) == Ok(None),
        wrong(null_or(alloc, &Small, 4, &right)),
    ))
}

#[test]
fn lists_give_the_first_wrong_node(rt: HostRuntime) {
    let places = [Some(13), Some(10), Some(13), Some(6)];
    assert_eq!(rt; wrong_items(rt.alloc()), Some(places));
    assert_eq!(rt; read_items(rt.alloc()), Some((true, true, Some(4))));
}
