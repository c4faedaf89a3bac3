// The numbers of a document's nodes, in preorder from 0: items of a list in order, members of an
// object ascending by the bytes of their keys. A key has no number.
ghost use Rattle.std.specs.Prelude.{◌≡◌};
ghost use Rattle.serde_json.specs.View.{view, items_view, members_view};
ghost use Rattle.eb_json.specs.Places.{further, nodes_of, items_nodes, members_nodes};

use serde_json::{Map, Value};

/// The place after the value at this place and all nodes below it. From 4294967295 on places stay there.
#[cycle(nodes)]
pub fn after(place: u32, value: &Value) -> u32
    ensures { result ≡ further place (nodes_of (view value.now)) }
{
    let first = place.saturating_add(1);
    match value {
        Value::Array(list) => after_items(first, list),
        Value::Object(map) => after_members(first, map),
        _ => first,
    }
}

#[cycle(nodes)]
fn after_items(place: u32, list: &[Value]) -> u32
    ensures { result ≡ further place (items_nodes (items_view list.now)) }
{
    let mut next = place;
    for value in list {
        next = after(next, value);
    }
    next
}

#[cycle(nodes)]
fn after_members(place: u32, map: &Map<String, Value>) -> u32
    ensures { result ≡ further place (members_nodes (members_view map.now.entries)) }
{
    let mut next = place;
    for (_, value) in map {
        next = after(next, value);
    }
    next
}

/// The place of the first node inside the list or object at this place.
pub fn inside(place: u32) -> u32
    ensures { result ≡ further place 1 }
{
    place.saturating_add(1)
}
