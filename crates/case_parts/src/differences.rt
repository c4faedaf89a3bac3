// Where two texts differ first.
ghost use Rattle.std.specs.Prelude.{◌≡◌, ◌↔◌, IsNone};

/// The number of the first line, from 1, in which two texts differ; None exactly where they are the same.
pub fn first_difference(came: &[u8], wanted: &[u8]) -> Option<usize>
    ensures { IsNone result ↔ (came.now ≡ wanted.now) }
{
    if came == wanted {
        return None;
    }
    Some(common_lines(came, wanted).saturating_add(1))
}

/// How many whole lines two texts have in common at their front.
fn common_lines(came: &[u8], wanted: &[u8]) -> usize {
    let common = came.iter().zip(wanted).take_while(|(a, b)| a == b);
    common.filter(|(a, _)| **a == b'\n').count()
}

/// The line of this number, from 1, without its line feed; nothing where there is none.
pub fn line_at(text: &[u8], number: usize) -> &[u8] {
    let mut lines = text.split(|byte| *byte == b'\n');
    lines.nth(number.saturating_sub(1)).unwrap_or(b"")
}
