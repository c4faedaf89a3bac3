// Members of objects: exact sets of keys.
ghost use Rattle.std.specs.Prelude.{◌≡◌, map};
ghost use Rattle.serde_json.specs.View.{view};
ghost use Rattle.eb_json.specs.Documents.{has_each, has_keys};

use serde_json::Value;

/// Whether there is a member for each of these keys.
#[tactic(auto, unfolding(crate::specs::Documents::has_each))]
fn has_each(value: &Value, keys: &[&str]) -> bool
    ensures { result ≡ has_each (map (λ k. k.now) keys.now) (view value.now) }
{
    for key in keys {
        if value.get(*key).is_none() {
            return false;
        }
    }
    true
}

/// Whether the value is an object whose keys are exactly these, which differ from each other.
#[tactic(auto, unfolding(crate::specs::Documents::has_keys))]
pub fn has_keys(value: &Value, keys: &[&str]) -> bool
    ensures { result ≡ has_keys (map (λ k. k.now) keys.now) (view value.now) }
{
    match value.as_object() {
        Some(map) => map.len() == keys.len() && has_each(value, keys),
        None => false,
    }
}
