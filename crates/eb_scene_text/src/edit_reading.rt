// Reading the document of an edit.
ghost use Rattle.std.specs.Prelude.{◌≡◌, IfOk};
ghost use Rattle.serde_json.specs.View.{view, members_view};
ghost use Rattle.eb_json.specs.Forms.{Gives};
ghost use Rattle.eb_json.specs.Places.{further};
ghost use Rattle.eb_scene.specs.Validity.{IsEdit};
ghost use Rattle.eb_scene_text.specs.ReadFaults.{TellsRequest};
ghost use Rattle.serde_json.specs.Find.{as_object};
ghost use Rattle.eb_scene_text.specs.EditForm.{edit_of, edit_word_at, members_as, nodes_before, place_of};

use crate::edit_forms::{
    add_object, asset_alone, put_asset, put_component, remove_component, remove_object,
    scene_alone, set_asset_field, set_field, set_parent, set_section,
};
use crate::faults::ReadFault;
use crate::words::{Word, word_of};
use eb_json::{FormFault, after, inside, member};
use eb_scene::Edit;
use serde_json::{Map, Value};
use std::alloc::Global;

/// The place of the member of a key, of members whose first value stands at this place.
#[tactic(auto, unfolding(crate::specs::EditForm::nodes_before))]
fn place_among(place: u32, map: &Map<String, Value>, key: &str) -> u32
    ensures { result ≡ further place (nodes_before key.now (members_view map.now.entries)) }
{
    let mut next = place;
    for (name, value) in map {
        if name.as_str() < key {
            next = after(next, value);
        } else {
            return next;
        }
    }
    next
}

/// The place of the member of a key, in the object at this place.
fn place_of(place: u32, document: &Value, key: &str) -> u32
    ensures { result ≡ place_of key.now place (as_object (view document.now)) }
{
    match document.as_object() {
        Some(map) => place_among(inside(place), map, key),
        None => place,
    }
}

/// The word of the edit at this place.
#[tactic(auto, unfolding(crate::specs::EditForm::edit_word_at))]
fn edit_word(place: u32, document: &Value) -> Result<Word, FormFault>
    ensures { Gives (λ x. x) result (edit_word_at place (view document.now)) }
{
    let found = member(place, document, "do")?;
    let word = match found.as_str() {
        Some(text) => word_of(text),
        None => None,
    };
    match word {
        Some(word) => Ok(word),
        None => Err(FormFault::Wrong {
            place: place_of(place, document, "do"),
        }),
    }
}

/// The edit of a word, with its members.
fn members_as(alloc: Global, word: Word, place: u32, document: &Value) -> Result<Edit, FormFault>
    ensures { Gives (λ x. x) result (members_as word place (view document.now)) }
{
    match word {
        Word::AddScene => {
            let scene = scene_alone(alloc, place, document)?;
            Ok(Edit::AddScene { scene })
        }
        Word::RemoveScene => {
            let scene = scene_alone(alloc, place, document)?;
            Ok(Edit::RemoveScene { scene })
        }
        Word::AddObject => add_object(alloc, place, document),
        Word::RemoveObject => remove_object(alloc, place, document),
        Word::SetParent => set_parent(alloc, place, document),
        Word::SetSection => set_section(alloc, place, document),
        Word::PutComponent => put_component(alloc, place, document),
        Word::RemoveComponent => remove_component(alloc, place, document),
        Word::SetField => set_field(alloc, place, document),
        Word::PutAsset => put_asset(alloc, place, document),
        Word::RemoveAsset => {
            let asset = asset_alone(alloc, place, document)?;
            Ok(Edit::RemoveAsset { asset })
        }
        Word::SetAssetField => set_asset_field(alloc, place, document),
    }
}

/// The edit that a document is: an object with the member `do` and the members of that word. `BadRequest` gives the
/// first node that has another form, and only the node of `do` where that is no word of an edit. Scenes are 1 to 16,
/// and objects and assets from 1.
/// `docs/project-text.md`, "Edits".
#[tactic(auto, unfolding(crate::specs::EditForm::edit_of))]
pub fn edit_read(alloc: Global, document: &Value) -> Result<Edit, ReadFault>
    ensures edit { TellsRequest result (edit_of (view document.now)) }
    ensures valid { IfOk result (λ edit. IsEdit edit) }
{
    let word = edit_word(0, document)?;
    let edit = members_as(alloc, word, 0, document)?;
    Ok(edit)
}
