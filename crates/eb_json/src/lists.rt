// Forms made of a form: lists of it, and null or it.
ghost use Rattle.std.specs.Prelude.{◌≡◌};
ghost use Rattle.serde_json.specs.View.{view, items_view};
ghost use Rattle.eb_json.specs.Forms.{Gives, items_at, list_at, list_within_at, null_or_at};

use crate::documents::is_null;
use crate::faults::FormFault;
use crate::forms::Form;
use crate::places::{after, inside};
use serde_json::Value;
use std::alloc::Global;

fn items_of<F: Form>(
    alloc: Global,
    form: &F,
    place: u32,
    values: &[Value],
) -> Result<Vec<F::Read>, FormFault>
    ensures { Gives (λ v. v.items) result (items_at (F.reads form.now) place (items_view values.now)) }
{
    let mut read = Vec::new(alloc);
    let mut next = place;
    for value in values {
        read.push(form.read(alloc, next, value)?)?;
        next = after(next, value);
    }
    Ok(read)
}

/// The list that the node is, each item of it read by the form.
pub fn list_of<F: Form>(
    alloc: Global,
    form: &F,
    place: u32,
    value: &Value,
) -> Result<Vec<F::Read>, FormFault>
    ensures { Gives (λ v. v.items) result (list_at (F.reads form.now) place (view value.now)) }
{
    match value.as_array() {
        Some(list) => items_of(alloc, form, inside(place), list),
        None => Err(FormFault::Wrong { place }),
    }
}

/// The list of at most `most` items that the node is, each item of it read by the form. With more items
/// the list itself is wrong.
pub fn list_within<F: Form>(
    alloc: Global,
    form: &F,
    most: usize,
    place: u32,
    value: &Value,
) -> Result<Vec<F::Read>, FormFault>
    ensures { Gives (λ v. v.items) result (list_within_at most (F.reads form.now) place (view value.now)) }
{
    match value.as_array() {
        Some(list) => {
            if list.len() > most {
                return Err(FormFault::Wrong { place });
            }
            items_of(alloc, form, inside(place), list)
        }
        None => Err(FormFault::Wrong { place }),
    }
}

/// None where the node is `null`, else what the form reads.
pub fn null_or<F: Form>(
    alloc: Global,
    form: &F,
    place: u32,
    value: &Value,
) -> Result<Option<F::Read>, FormFault>
    ensures { Gives (λ x. x) result (null_or_at (F.reads form.now) place (view value.now)) }
{
    if is_null(value) {
        return Ok(None);
    }
    Ok(Some(form.read(alloc, place, value)?))
}
