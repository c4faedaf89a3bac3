// Members of objects: of known keys, one after the other, and of any keys.
ghost use Rattle.serde_json.specs.View.{view, members_view};
ghost use Rattle.eb_json.specs.Forms.{Gives};
ghost use Rattle.eb_scene_text.specs.Values.{raw_field_at, fields_at, members_at, each_member_at, taken, skipped};

use crate::values::ValueForm;
use eb_base::{Items, Text};
use eb_json::{Form, FormFault, after, inside, member};
use eb_scene::RawField;
use serde_json::{Map, Value};
use std::alloc::Global;

/// What the member of a key reads as, whose value stands at this place, and the place behind it.
pub fn taken<F: Form>(
    alloc: Global,
    form: &F,
    key: &str,
    document: &Value,
    place: u32,
) -> Result<(F::Read, u32), FormFault>
    ensures { Gives (λ x. x) result (taken (F.reads form.now) key.now (view document.now) place) }
{
    let value = member(place, document, key)?;
    let read = form.read(alloc, place, value)?;
    Ok((read, after(place, value)))
}

/// The place behind the member of a key, whose value stands at this place. Takes no memory.
pub fn skipped(key: &str, document: &Value, place: u32) -> Result<u32, FormFault>
    ensures { Gives (λ x. x) result (skipped key.now (view document.now) place) }
{
    let value = member(place, document, key)?;
    Ok(after(place, value))
}

/// What a member of an object can be asked to be, whatever its key is.
pub trait MemberForm {
    ghost use Rattle.std.specs.Prelude.{ℕ, List, Result};
    ghost use Rattle.serde_json.specs.Data.{Data};
    ghost use Rattle.eb_json.specs.declared.faults.FormFault.{FormFault};

    /// What such a member is read as.
    type Read: Drop;

    ghost reads: { Self → List ℕ → ℕ → Data → Result Self.Read FormFault };

    /// What the member of a key is read as, whose value stands at this place.
    fn read(
        &self,
        alloc: Global,
        key: &str,
        place: u32,
        value: &Value,
    ) -> Result<Self::Read, FormFault>
        ensures { Gives (λ x. x) result (reads self.now key.now place (view value.now)) };
}

fn members_of<F: MemberForm>(
    alloc: Global,
    form: &F,
    place: u32,
    map: &Map<String, Value>,
) -> Result<Vec<F::Read>, FormFault>
    ensures { Gives (λ v. v.items) result (members_at (F.reads form.now) place (members_view map.now.entries)) }
{
    let mut read = Vec::new(alloc);
    let mut next = place;
    for (key, value) in map {
        read.push(form.read(alloc, key.as_str(), next, value)?)?;
        next = after(next, value);
    }
    Ok(read)
}

/// The members of the object that the node is, each read by the form.
pub fn each_member<F: MemberForm>(
    alloc: Global,
    form: &F,
    place: u32,
    value: &Value,
) -> Result<Items<F::Read>, FormFault>
    ensures { Gives (λ x. x) result (each_member_at (F.reads form.now) place (view value.now)) }
{
    match value.as_object() {
        Some(map) => {
            let read = members_of(alloc, form, inside(place), map)?;
            Ok(Items::of(read))
        }
        None => Err(FormFault::Wrong { place }),
    }
}

/// A value under the name of its field.
struct RawFieldForm;

impl MemberForm for RawFieldForm {
    type Read = RawField;

    ghost reads = { λ _. raw_field_at };

    fn read(
        &self,
        alloc: Global,
        key: &str,
        place: u32,
        value: &Value,
    ) -> Result<RawField, FormFault> {
        let value = ValueForm.read(alloc, place, value)?;
        let name = Text::of(alloc, key.as_bytes())?;
        Ok(RawField { name, value })
    }
}

/// An object whose members are values.
pub struct FieldsForm;

impl Form for FieldsForm {
    type Read = Items<RawField>;

    ghost reads = { λ _. fields_at };

    fn read(&self, alloc: Global, place: u32, value: &Value) -> Result<Items<RawField>, FormFault> {
        each_member(alloc, &RawFieldForm, place, value)
    }
}
