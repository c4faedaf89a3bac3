// What `edit_read` says of a document that is a request and no edit.
use eb_scene_text::{ReadFault, edit_read};
use serde_json::Value;
use std::alloc::Global;

/// The place of the first wrong node of an edit, none where it is one; or none where there is no document.
fn wrong_node(alloc: Global, text: &str) -> Option<Option<u32>> {
    let document = Value::from_str(alloc, text).ok()?;
    match edit_read(alloc, &document) {
        Ok(_) => Some(None),
        Err(ReadFault::BadRequest { place }) => Some(Some(place)),
        Err(ReadFault::Memory) => None,
    }
}

#[test]
fn the_word_of_another_request_is_wrong_alone(rt: HostRuntime) {
    assert_eq!(rt;
        wrong_node(rt.alloc(), r#"{"a":[1,2],"do":"load"}"#),
        Some(Some(4))
    );
}
