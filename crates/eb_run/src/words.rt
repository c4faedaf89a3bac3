// The words of a command line.
ghost use Rattle.std.specs.Prelude.{◌≡◌};
ghost use Rattle.eb_run.specs.Words.{is_form, usage_text};

use eb_base::Text;

/// What the sink gets where the words are no form.
#[tactic(auto, unfolding(crate::specs::Words::usage_text))]
pub fn usage() -> &'static [u8]
    ensures { result.now ≡ usage_text }
{
    b"usage: ebake bake|session|watch|show NAME|sample N\n".as_slice()
}

/// Whether the words are `session` alone.
pub fn is_session(words: &[Text]) -> bool
    ensures { result ≡ is_form words.now }
{
    match words {
        [] => false,
        [word] => word.bytes() == b"session".as_slice(),
        [_, _, ..] => false,
    }
}
