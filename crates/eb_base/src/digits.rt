// Reading numbers in decimal digits.
ghost use Rattle.std.specs.Prelude.{◌≡◌, ◌<◌, ◌≤◌, ◌^◌, [], ◌∷◌, length, IfSome};
ghost use Rattle.eb_base.specs.Digits.{below, digits_after, number_below, point_in};

/// The number that a text writes in decimal digits, without sign or leading zero, where it is below the limit.
/// None exactly where the text has another form or the number isn't below the limit. Takes no memory.
pub fn number_read(limit: u64, text: &[u8]) -> Option<u64>
    ensures { result ≡ number_below limit text.now }
{
    match text {
        [] => None,
        [b'0', _, ..] => None,
        [_, ..] => Some(digits_read(0, limit as u128, text)? as u64),
    }
}

/// The number that these digits go on to write after `start`, leading zeros allowed, where it is below the limit. None exactly
/// where the text isn't digits alone or the number isn't below the limit. Takes no memory.
pub fn digits_read(start: u128, limit: u128, text: &[u8]) -> Option<u128>
    requires small { limit ≤ 2 ^ 120 }
    requires room { start < 2 ^ 120 }
    ensures { result ≡ below limit (digits_after start text.now) }
{
    let mut number = start;
    for digit in text {
        number = digit_read(number, limit, *digit)?;
    }
    if number < limit { Some(number) } else { None }
}

// One digit more.
fn digit_read(number: u128, limit: u128, digit: u8) -> Option<u128>
    requires small { limit ≤ 2 ^ 120 }
    requires room { number < 2 ^ 120 }
    ensures { result ≡ below limit (digits_after number (digit ∷ [])) }
{
    if digit < b'0' || digit > b'9' {
        return None;
    }
    let more = number * 10 + (digit - b'0') as u128;
    if more < limit { Some(more) } else { None }
}

// The place of the first point.
pub(crate) fn point_place(text: &[u8]) -> Option<usize>
    ensures place { result ≡ point_in text.now }
    ensures within { IfSome result (λ at. at < length text.now) }
{
    for at in 0..text.len() {
        if text[at] == b'.' {
            return Some(at);
        }
    }
    None
}
