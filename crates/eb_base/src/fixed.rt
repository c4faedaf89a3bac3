// Fixed text: decimal numbers for whole numbers of 65536ths.
ghost use Rattle.std.specs.Prelude.{◌≡◌, ℕ, ℤ, true, ◌+◌, ◌*◌, ◌<◌, ◌≤◌, ◌^◌, ◌++◌, ◌-◌, ◌≢◌, slice_index, length, IfOk, IfSome, OnOk};
ghost use Rattle.eb_base.specs.Arithmetic.{fits_i64};
ghost use Rattle.eb_base.specs.Digits.{digits_after, point_in, value_after};
ghost use Rattle.eb_base.specs.FixedPoint.{fixed_at, fixed_from, fixed_of, fixed_text, fraction_digits, fraction_text, in_i64, units_of, with_point};

use crate::calc::floor;
use crate::digits::{digits_read, point_place};
use crate::memory::Memory;
use crate::texts::Text;
use std::alloc::Global;

// A 65536th has at most so many digits behind the point.
const MOST_PLACES: usize = 16;

/// The units of fixed text, 65536 to the 1: an optional `-`, 1 to 15 digits, and optionally a point and 1 to 16 digits.
/// Leading zeros are allowed. The value is the floor of the number times 65536. None exactly where the text has
/// another form or the value isn't in `i64`. Takes no memory.
pub fn fix_read(text: &[u8]) -> Option<i64>
    ensures { result ≡ fixed_of text.now }
{
    match text {
        [] => None,
        [b'-', rest @ ..] => unsigned_read(true, rest),
        [_, ..] => unsigned_read(false, text),
    }
}

/// The exact text of a number of units, which `fix_read` reads back where it lies in `i64`: no leading and no trailing zeros.
pub fn fix_write(alloc: Global, units: i128) -> Result<Text, Memory>
    ensures { IfOk result (λ text. text ≡ fixed_text units) }
{
    let size = units.unsigned_abs();
    let whole = size / 65536;
    let mut text = if units < 0 {
        format!(in alloc; "-{whole}")?.into_bytes()
    } else {
        format!(in alloc; "{whole}")?.into_bytes()
    };
    fraction_write(&mut text, (size % 65536) as u32)?;
    Ok(Text::from_vec(text))
}

// What stands behind the sign.
fn unsigned_read(negative: bool, text: &[u8]) -> Option<i64>
    ensures { result ≡ fixed_at negative text.now (point_in text.now) }
{
    match point_place(text) {
        None => parts_read(negative, text, b"".as_slice()),
        Some(at) => pointed_read(negative, &text[..at], &text[at + 1..]),
    }
}

// The digits before a point, and those behind it, of which there is one at least.
fn pointed_read(negative: bool, whole: &[u8], fraction: &[u8]) -> Option<i64>
    ensures { result ≡ with_point negative whole.now fraction.now }
{
    match fraction {
        [] => None,
        [_, ..] => parts_read(negative, whole, fraction),
    }
}

// The digits before the point, and those behind it.
fn parts_read(negative: bool, whole: &[u8], fraction: &[u8]) -> Option<i64>
    ensures { result ≡ fixed_from negative whole.now fraction.now }
{
    if whole.is_empty() || whole.len() > 15 || fraction.len() > MOST_PLACES {
        return None;
    }
    let digits = both_digits(whole, fraction)?;
    to_units(negative, fraction.len(), digits)
}

// The number that the digits of both parts write together.
fn both_digits(whole: &[u8], fraction: &[u8]) -> Option<u128>
    requires whole { length whole.now ≤ 15 }
    requires fraction { length fraction.now ≤ 16 }
    ensures value { result ≡ digits_after 0 (whole.now ++ fraction.now) }
    ensures bound { IfSome result (λ n. n < 10 ^ 31) }
{
    let digits = few_digits(0, whole)?;
    few_digits(digits, fraction)
}

// At most 16 digits more, which leave room.
fn few_digits(start: u128, text: &[u8]) -> Option<u128>
    requires small { start < 10 ^ 15 }
    requires few { length text.now ≤ 16 }
    ensures value { result ≡ digits_after start text.now }
    ensures bound { IfSome result (λ n. n < (start + 1) * 10 ^ length text.now) }
{
    digits_read(start, 1 << 120, text)
}

// The floor in units, where it lies in i64.
fn to_units(negative: bool, places: usize, digits: u128) -> Option<i64>
    requires few { places ≤ 16 }
    requires small { digits < 10 ^ 31 }
    ensures { result ≡ in_i64 (units_of negative places digits) }
{
    let scale = 10u128.pow(places as u32) as i128;
    let size = (digits * 65536) as i128;
    let units = floor(if negative { -size } else { size }, scale);
    match i64::try_from(units) {
        Ok(units) => Some(units),
        Err(_) => None,
    }
}

/// Adds a point and the digits of a fraction, in units of 65536 to the 1, or nothing where there is no fraction.
pub fn fraction_write(out: &mut Vec<u8>, fraction: u32) -> Result<(), Memory>
    requires { fraction < 65536 }
    ensures { OnOk result (out.new.items ≡ out.old.items ++ fraction_text fraction) }
{
    if fraction == 0 {
        return Ok(());
    }
    out.push(b'.')?;
    places_write(out, fraction)?;
    Ok(())
}

// The digits of a fraction behind the point.
fn places_write(out: &mut Vec<u8>, fraction: u32) -> Result<(), Memory>
    requires { fraction < 65536 }
    ensures { OnOk result (out.new.items ≡ out.old.items ++ fraction_digits 16 fraction) }
{
    let mut rest = fraction;
    for _place in 0..MOST_PLACES {
        if rest == 0 {
            return Ok(());
        }
        out.push(b'0' + (rest * 10 / 65536) as u8)?;
        rest = rest * 10 % 65536;
    }
    Ok(())
}

/// The law that the fixed text of each value of `i64` reads back as that value, and that the digits of a fraction are its
/// own: as a number behind the point they are fraction / 65536, and the last of them isn't 0.
pub fn fixed_text_reads_back()
    ensures back { (units : ℤ) → fits_i64 units ≡ true → fixed_of (fixed_text units) ≡ Some units }
    ensures exact { (fraction : ℕ) → fraction < 65536 → value_after 0 (fraction_digits 16 fraction) * 65536 ≡ fraction * 10 ^ length (fraction_digits 16 fraction) }
    ensures ends { (fraction : ℕ) → fraction < 65536 → 0 < length (fraction_digits 16 fraction) → slice_index (fraction_digits 16 fraction) (length (fraction_digits 16 fraction) - 1) ≢ 48 }
{}
