// One token at a time, and a blank behind it.
ghost use Rattle.std.specs.Prelude.{◌≡◌, ◌++◌, ◌∷◌, [], OnOk, IfOk, if◌then◌else◌};
ghost use Rattle.eb_base.specs.FixedPoint.{fixed_text};
ghost use Rattle.eb_rule_text.specs.Spelling as spec;
ghost use Rattle.eb_rule_text.specs.declared.lexemes.Lexeme.TheVariants as l;

use crate::marks::Mark;
use eb_base::{Memory, Text, fix_write};
use std::alloc::Global;

// What is printed behind most tokens, and behind those that end a line.
const SPACE: u8 = b' ';

fn spelling(mark: Mark) -> &'static [u8]
    ensures { result.now ≡ spec.mark_text mark }
{
    match mark {
        Mark::Baker => b"baker",
        Mark::System => b"system",
        Mark::Job => b"job",
        Mark::On => b"on",
        Mark::Let => b"let",
        Mark::If => b"if",
        Mark::Else => b"else",
        Mark::Add => b"add",
        Mark::Set => b"set",
        Mark::Remove => b"remove",
        Mark::Create => b"create",
        Mark::Destroy => b"destroy",
        Mark::Extra => b"extra",
        Mark::This => b"this",
        Mark::Own => b"own",
        Mark::Parent => b"parent",
        Mark::Children => b"children",
        Mark::Within => b"within",
        Mark::Asset => b"asset",
        Mark::Entity => b"entity",
        Mark::At => b"at",
        Mark::Sum => b"sum",
        Mark::Count => b"count",
        Mark::Min => b"min",
        Mark::Max => b"max",
        Mark::All => b"all",
        Mark::Any => b"any",
        Mark::None => b"none",
        Mark::Key => b"key",
        Mark::Or => b"or",
        Mark::Fix => b"fix",
        Mark::Int => b"int",
        Mark::Null => b"null",
        Mark::True => b"true",
        Mark::False => b"false",
        Mark::LBrace => b"{",
        Mark::RBrace => b"}",
        Mark::LParen => b"(",
        Mark::RParen => b")",
        Mark::Comma => b",",
        Mark::Colon => b":",
        Mark::Semicolon => b";",
        Mark::Dot => b".",
        Mark::Assign => b"=",
        Mark::Equal => b"==",
        Mark::NotEqual => b"!=",
        Mark::Less => b"<",
        Mark::AtMost => b"<=",
        Mark::Greater => b">",
        Mark::AtLeast => b">=",
        Mark::Plus => b"+",
        Mark::Minus => b"-",
        Mark::Star => b"*",
        Mark::Slash => b"/",
        Mark::And => b"&&",
        Mark::Either => b"||",
        Mark::Not => b"!",
    }
}

fn gap(mark: Mark) -> u8
    ensures { result ≡ spec.gap (l.Mark mark) }
{
    match mark {
        Mark::Semicolon => b'\n',
        Mark::RBrace => b'\n',
        _ => SPACE,
    }
}

/// A reserved word or a sign.
#[tactic(auto, unfolding(crate::specs::Spelling::token_text))]
pub fn put_mark(out: &mut Vec<u8>, mark: Mark) -> Result<(), Memory>
    ensures { OnOk result (out.new.items ≡ out.old.items ++ spec.token_text (l.Mark mark)) }
{
    put(out, spelling(mark), gap(mark))?;
    Ok(())
}

/// A name.
#[tactic(auto, unfolding(crate::specs::Spelling::token_text))]
pub fn put_name(out: &mut Vec<u8>, name: &Text) -> Result<(), Memory>
    ensures { OnOk result (out.new.items ≡ out.old.items ++ spec.token_text (l.Name name.now)) }
{
    put(out, name.bytes(), SPACE)?;
    Ok(())
}

/// A whole number.
#[tactic(auto, unfolding(crate::specs::Spelling::token_text))]
pub fn put_int(alloc: Global, out: &mut Vec<u8>, number: i64) -> Result<(), Memory>
    ensures { OnOk result (out.new.items ≡ out.old.items ++ spec.token_text (l.Int number)) }
{
    let text = format!(in alloc; "{number}")?;
    put(out, text.as_bytes(), SPACE)?;
    Ok(())
}

/// A number with a point.
#[tactic(auto, unfolding(crate::specs::Spelling::token_text))]
pub fn put_fix(alloc: Global, out: &mut Vec<u8>, units: i64) -> Result<(), Memory>
    ensures { OnOk result (out.new.items ≡ out.old.items ++ spec.token_text (l.Fix units)) }
{
    let text = fix_write(alloc, units as i128)?;
    let text = pointed(alloc, text)?;
    put(out, text.bytes(), SPACE)?;
    Ok(())
}

// The same number with a point, also where it is whole.
fn pointed(alloc: Global, text: Text) -> Result<Text, Memory>
    ensures { IfOk result (λ t. t ≡ spec.pointed text) }
{
    if has_point(text.bytes()) {
        return Ok(text);
    }
    let mut longer = Vec::from_slice(alloc, text.bytes())?;
    longer.extend_from_slice(b".0".as_slice())?;
    Ok(Text::from_vec(longer))
}

fn has_point(text: &[u8]) -> bool
    ensures { result ≡ spec.has_point text.now }
{
    text.iter().any(|byte| *byte == b'.')
}

// Bytes, and a blank.
fn put(out: &mut Vec<u8>, bytes: &[u8], blank: u8) -> Result<(), Memory>
    ensures { OnOk result (out.new.items ≡ out.old.items ++ (bytes.now ++ blank ∷ [])) }
{
    out.extend_from_slice(bytes)?;
    out.push(blank)?;
    Ok(())
}
