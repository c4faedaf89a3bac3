// The names of component types, authoring types and fields, and the words that can be none.
ghost use Rattle.std.specs.Prelude.{◌≡◌, bytes_eq};
ghost use Rattle.std.specs.List.{list_all, list_any};
ghost use Rattle.eb_base.specs.TypeNames.{is_reserved, is_type_name, letter, starts_with_letter, word_byte};

// The words that the rule language keeps for itself.
const RESERVED: [&str; 35] = [
    "baker", "system", "job", "on", "let", "if", "else", "add", "set", "remove", "create",
    "destroy", "extra", "this", "own", "parent", "children", "within", "asset", "entity", "at",
    "sum", "count", "min", "max", "all", "any", "none", "key", "or", "fix", "int", "null", "true",
    "false",
];

/// Whether a text can name a component type, an authoring type or a field: a letter a-z or A-Z, at most 31 letters,
/// digits or underscores behind it, and no reserved word of the rule language. Takes no memory.
pub fn is_name(text: &[u8]) -> bool
    ensures { result ≡ is_type_name text.now }
{
    begins_with_letter(text) && is_word(text) && text.len() <= 32 && !is_reserved_word(text)
}

/// Whether the rule language keeps this word for itself. Takes no memory.
pub fn is_reserved_word(text: &[u8]) -> bool
    ensures { result ≡ is_reserved text.now }
{
    is_one_of(text, &RESERVED)
}

// Whether this is one of the words.
fn is_one_of(text: &[u8], words: &[&str]) -> bool
    ensures { result ≡ list_any (λ word. bytes_eq word.now text.now) words.now }
{
    for word in words {
        if word.as_bytes() == text {
            return true;
        }
    }
    false
}

// Whether the first byte is a letter.
fn begins_with_letter(text: &[u8]) -> bool
    ensures { result ≡ starts_with_letter text.now }
{
    match text {
        [] => false,
        [first, ..] => is_letter(*first),
    }
}

// Whether each byte can stand in a word.
fn is_word(text: &[u8]) -> bool
    ensures { result ≡ list_all word_byte text.now }
{
    text.iter().all(|byte| is_word_byte(*byte))
}

/// Whether this is a letter, a to z or A to Z.
pub fn is_letter(byte: u8) -> bool
    ensures { result ≡ letter byte }
{
    (byte >= b'a' && byte <= b'z') || (byte >= b'A' && byte <= b'Z')
}

/// Whether this is a letter, a digit or an underscore.
pub fn is_word_byte(byte: u8) -> bool
    ensures { result ≡ word_byte byte }
{
    is_letter(byte) || (byte >= b'0' && byte <= b'9') || byte == b'_'
}
