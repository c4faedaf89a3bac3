// From bytes to a document, and the plain values in one.
ghost use Rattle.std.specs.Prelude.{◌≡◌, ℤ, Option, Some, None, option_map, IfOk};
ghost use Rattle.serde_json.specs.View.{view};
ghost use Rattle.eb_json.specs.Documents.{document_of, whole_number_of, within, is_null, is_text};

use eb_base::Memory;
use serde_json::Value;
use std::alloc::Global;

/// The document that the bytes are: none where they aren't UTF-8 or aren't one JSON value with at most
/// 127 lists and objects inside each other. The last of members with one key stands.
#[tactic(auto, unfolding(crate::specs::Documents::document_of))]
pub fn document(alloc: Global, bytes: &[u8]) -> Result<Option<Value>, Memory>
    ensures { IfOk result (λ found. option_map (λ v. view v) found ≡ document_of bytes.now) }
{
    match Value::from_slice(alloc, bytes) {
        Ok(value) => Ok(Some(value)),
        Err(fault) => {
            if fault.is_memory() {
                Err(Memory)
            } else {
                Ok(None)
            }
        }
    }
}

/// The whole number that the value is, where it is one within `i64` that is written without point and exponent.
pub fn whole_number(value: &Value) -> Option<i64>
    ensures { result ≡ whole_number_of (view value.now) }
{
    value.as_i64()
}

/// The whole number that the value is, where it is one from `least` to `most`.
pub fn whole_number_within(value: &Value, least: i64, most: i64) -> Option<i64>
    ensures { result ≡ within least most (whole_number_of (view value.now)) }
{
    match value.as_i64() {
        Some(number) => {
            if number >= least && number <= most {
                Some(number)
            } else {
                None
            }
        }
        None => None,
    }
}

/// Whether the value is `null`.
pub fn is_null(value: &Value) -> bool
    ensures { result ≡ is_null (view value.now) }
{
    value.is_null()
}

/// Whether the value is this text.
pub fn is_text(value: &Value, text: &str) -> bool
    ensures { result ≡ is_text text.now (view value.now) }
{
    match value.as_str() {
        Some(found) => found == text,
        None => false,
    }
}
