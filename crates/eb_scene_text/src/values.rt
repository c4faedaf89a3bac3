// Readers of what edits and projects write: numbers, texts and values.
ghost use Rattle.std.specs.Prelude.{◌≡◌};
ghost use Rattle.serde_json.specs.View.{view};
ghost use Rattle.eb_json.specs.Forms.{text_at, natural_at};
ghost use Rattle.eb_scene_text.specs.Values.{scene_at, number_at, above_at, mark_at, raw_of, raw_at};

use eb_base::{Text, fix_read};
use eb_json::{Form, FormFault, natural_in, null_or, text};
use eb_scene::Raw;
use serde_json::Value;
use std::alloc::Global;

/// A scene, 1 to 16.
pub struct SceneForm;

impl Form for SceneForm {
    type Read = u8;

    ghost reads = { λ _. scene_at };

    fn read(&self, _alloc: Global, place: u32, value: &Value) -> Result<u8, FormFault> {
        let number = natural_in(place, value, 1, 16)?;
        Ok(number as u8)
    }
}

/// The number of an object or of an asset, from 1.
pub struct NumberForm;

impl Form for NumberForm {
    type Read = u32;

    ghost reads = { λ _. number_at };

    fn read(&self, _alloc: Global, place: u32, value: &Value) -> Result<u32, FormFault> {
        natural_in(place, value, 1, u32::MAX)
    }
}

/// A parent, or null.
pub struct AboveForm;

impl Form for AboveForm {
    type Read = Option<u32>;

    ghost reads = { λ _. above_at };

    fn read(&self, alloc: Global, place: u32, value: &Value) -> Result<Option<u32>, FormFault> {
        null_or(alloc, &NumberForm, place, value)
    }
}

/// A whole number that isn't below 0.
struct NaturalForm;

impl Form for NaturalForm {
    type Read = u32;

    ghost reads = { λ _. natural_at 0 4294967295 };

    fn read(&self, _alloc: Global, place: u32, value: &Value) -> Result<u32, FormFault> {
        natural_in(place, value, 0, u32::MAX)
    }
}

/// A mark, or null. Whether it is that of a section is for the edit to say.
pub struct MarkForm;

impl Form for MarkForm {
    type Read = Option<u32>;

    ghost reads = { λ _. mark_at };

    fn read(&self, alloc: Global, place: u32, value: &Value) -> Result<Option<u32>, FormFault> {
        null_or(alloc, &NaturalForm, place, value)
    }
}

/// Any text.
pub struct TextForm;

impl Form for TextForm {
    type Read = Text;

    ghost reads = { λ _. text_at };

    fn read(&self, alloc: Global, place: u32, value: &Value) -> Result<Text, FormFault> {
        let found = text(place, value)?;
        Ok(Text::of(alloc, found.as_bytes())?)
    }
}

/// The value that a node is: a whole number, fixed text in range, or null.
fn raw(value: &Value) -> Option<Raw>
    ensures { result ≡ raw_of (view value.now) }
{
    match value {
        Value::Null => Some(Raw::Null),
        Value::Number(number) => {
            let whole = number.as_i64()?;
            Some(Raw::Int(whole))
        }
        Value::String(text) => {
            let units = fix_read(text.as_bytes())?;
            Some(Raw::Units(units))
        }
        Value::Bool(_) => None,
        Value::Array(_) => None,
        Value::Object(_) => None,
    }
}

/// A value.
pub struct ValueForm;

impl Form for ValueForm {
    type Read = Raw;

    ghost reads = { λ _. raw_at };

    fn read(&self, _alloc: Global, place: u32, value: &Value) -> Result<Raw, FormFault> {
        match raw(value) {
            Some(raw) => Ok(raw),
            None => Err(FormFault::Wrong { place }),
        }
    }
}
