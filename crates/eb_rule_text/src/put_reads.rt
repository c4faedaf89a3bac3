// Prints reads, one function for each line of the grammar.
ghost use Rattle.std.specs.Prelude.{◌≡◌, ◌++◌, ◌∷◌, [], OnOk};
ghost use Rattle.eb_rule_text.specs.declared.lexemes.Lexeme.TheVariants as l;
ghost use Rattle.eb_rule_text.specs.declared.marks.Mark.TheVariants as m;
ghost use Rattle.eb_rule_text.specs.declared.trees.Find.TheVariants as f;
ghost use Rattle.eb_rule_text.specs.declared.trees.Read.TheVariants as r;
ghost use Rattle.eb_rule_text.specs.Printing as spec;
ghost use Rattle.eb_rule_text.specs.Spelled as spelled;
ghost use Rattle.eb_rule_text.specs.Spelling.{text_of};

use crate::marks::Mark;
use crate::spelling::{put_mark, put_name};
use crate::trees::{FieldPath, Find, Reach, Read};
use eb_base::{Memory, Text};

// T . f
fn put_path(out: &mut Vec<u8>, path: &FieldPath) -> Result<(), Memory>
    ensures { OnOk result (out.new.items ≡ out.old.items ++ text_of (spelled.path_then path.now [])) }
{
    put_name(out, &path.kind)?;
    put_mark(out, Mark::Dot)?;
    put_name(out, &path.field)?;
    Ok(())
}

// ( T )
fn put_kind(out: &mut Vec<u8>, kind: &Text) -> Result<(), Memory>
    ensures { OnOk result (out.new.items ≡ out.old.items ++ text_of (spelled.kind_then kind.now [])) }
{
    put_mark(out, Mark::LParen)?;
    put_name(out, kind)?;
    put_mark(out, Mark::RParen)?;
    Ok(())
}

// ( T ) . f
fn put_member(out: &mut Vec<u8>, path: &FieldPath) -> Result<(), Memory>
    ensures { OnOk result (out.new.items ≡ out.old.items ++ text_of (spelled.member_then path.now [])) }
{
    put_kind(out, &path.kind)?;
    put_mark(out, Mark::Dot)?;
    put_name(out, &path.field)?;
    Ok(())
}

// ( T . f )
fn put_path_in(out: &mut Vec<u8>, path: &FieldPath) -> Result<(), Memory>
    ensures { OnOk result (out.new.items ≡ out.old.items ++ text_of (spelled.path_in_then path.now [])) }
{
    put_mark(out, Mark::LParen)?;
    put_path(out, path)?;
    put_mark(out, Mark::RParen)?;
    Ok(())
}

// ( this . T . r )
pub fn put_link_in(out: &mut Vec<u8>, path: &FieldPath) -> Result<(), Memory>
    ensures { OnOk result (out.new.items ≡ out.old.items ++ text_of (spelled.link_in_then path.now [])) }
{
    put_mark(out, Mark::LParen)?;
    put_mark(out, Mark::This)?;
    put_mark(out, Mark::Dot)?;
    put_path(out, path)?;
    put_mark(out, Mark::RParen)?;
    Ok(())
}

// ( this . a )
fn put_field_in(out: &mut Vec<u8>, field: &Text) -> Result<(), Memory>
    ensures { OnOk result (out.new.items ≡ out.old.items ++ text_of (spelled.field_in_then field.now [])) }
{
    put_mark(out, Mark::LParen)?;
    put_mark(out, Mark::This)?;
    put_mark(out, Mark::Dot)?;
    put_name(out, field)?;
    put_mark(out, Mark::RParen)?;
    Ok(())
}

fn reach_mark(over: Reach) -> Mark
    ensures { result ≡ spelled.reach_mark over }
{
    match over {
        Reach::Children => Mark::Children,
        Reach::Within => Mark::Within,
    }
}

// A mark in front of ( T ) . f
fn put_marked(out: &mut Vec<u8>, mark: Mark, path: &FieldPath) -> Result<(), Memory>
    ensures { OnOk result (out.new.items ≡ out.old.items ++ text_of (l.Mark mark ∷ spelled.member_then path.now [])) }
{
    put_mark(out, mark)?;
    put_member(out, path)?;
    Ok(())
}

// A mark, whom it asks, and ( T ) . f
fn put_over(out: &mut Vec<u8>, mark: Mark, over: Reach, path: &FieldPath) -> Result<(), Memory>
    ensures { OnOk result (out.new.items ≡ out.old.items ++ text_of (l.Mark mark ∷ l.Mark (spelled.reach_mark over) ∷ spelled.member_then path.now [])) }
{
    put_mark(out, mark)?;
    put_marked(out, reach_mark(over), path)?;
    Ok(())
}

// A mark, all, and ( T . f )
fn put_all(out: &mut Vec<u8>, mark: Mark, path: &FieldPath) -> Result<(), Memory>
    ensures { OnOk result (out.new.items ≡ out.old.items ++ text_of (l.Mark mark ∷ l.Mark m.All ∷ spelled.path_in_then path.now [])) }
{
    put_mark(out, mark)?;
    put_mark(out, Mark::All)?;
    put_path_in(out, path)?;
    Ok(())
}

// count, whom it asks, and ( T )
fn put_count(out: &mut Vec<u8>, over: Mark, kind: &Text) -> Result<(), Memory>
    ensures { OnOk result (out.new.items ≡ out.old.items ++ text_of (l.Mark m.Count ∷ l.Mark over ∷ spelled.kind_then kind.now [])) }
{
    put_mark(out, Mark::Count)?;
    put_mark(out, over)?;
    put_kind(out, kind)?;
    Ok(())
}

// asset ( this . a ) . f
#[tactic(auto, unfolding(crate::specs::Printing::find_text))]
fn put_asset(out: &mut Vec<u8>, link: &Text, field: &Text) -> Result<(), Memory>
    ensures { OnOk result (out.new.items ≡ out.old.items ++ spec.find_text (f.Asset link.now field.now)) }
{
    put_mark(out, Mark::Asset)?;
    put_field_in(out, link)?;
    put_mark(out, Mark::Dot)?;
    put_name(out, field)?;
    Ok(())
}

// at ( this . T . r ) . T . f
#[tactic(auto, unfolding(crate::specs::Printing::find_text))]
fn put_at(out: &mut Vec<u8>, link: &FieldPath, path: &FieldPath) -> Result<(), Memory>
    ensures { OnOk result (out.new.items ≡ out.old.items ++ spec.find_text (f.At link.now path.now)) }
{
    put_mark(out, Mark::At)?;
    put_link_in(out, link)?;
    put_mark(out, Mark::Dot)?;
    put_path(out, path)?;
    Ok(())
}

// A read without its `or`.
#[tactic(auto, unfolding(crate::specs::Printing::find_text))]
fn put_find(out: &mut Vec<u8>, read: &Find) -> Result<(), Memory>
    ensures { OnOk result (out.new.items ≡ out.old.items ++ spec.find_text read.now) }
{
    match read {
        Find::Own(path) => put_marked(out, Mark::Own, path),
        Find::Parent(path) => put_marked(out, Mark::Parent, path),
        Find::Asset(link, field) => put_asset(out, link, field),
        Find::Min(over, path) => put_over(out, Mark::Min, *over, path),
        Find::Max(over, path) => put_over(out, Mark::Max, *over, path),
        Find::At(link, path) => put_at(out, link, path),
        Find::MaxAll(path) => put_all(out, Mark::Max, path),
    }
}

// Reads, each with its `or`.
pub fn put_finds(out: &mut Vec<u8>, reads: &[Find]) -> Result<(), Memory>
    ensures { OnOk result (out.new.items ≡ out.old.items ++ spec.finds_text reads.now) }
{
    for read in reads {
        put_find(out, read)?;
        put_mark(out, Mark::Or)?;
    }
    Ok(())
}

// this . a
#[tactic(auto, unfolding(crate::specs::Printing::read_text))]
fn put_this(out: &mut Vec<u8>, field: &Text) -> Result<(), Memory>
    ensures { OnOk result (out.new.items ≡ out.old.items ++ spec.read_text (r.This field.now)) }
{
    put_mark(out, Mark::This)?;
    put_mark(out, Mark::Dot)?;
    put_name(out, field)?;
    Ok(())
}

// this . T . f
#[tactic(auto, unfolding(crate::specs::Printing::read_text))]
fn put_this_path(out: &mut Vec<u8>, path: &FieldPath) -> Result<(), Memory>
    ensures { OnOk result (out.new.items ≡ out.old.items ++ spec.read_text (r.Field path.now)) }
{
    put_mark(out, Mark::This)?;
    put_mark(out, Mark::Dot)?;
    put_path(out, path)?;
    Ok(())
}

// entity ( this )
#[tactic(auto, unfolding(crate::specs::Printing::read_text))]
fn put_entity(out: &mut Vec<u8>) -> Result<(), Memory>
    ensures { OnOk result (out.new.items ≡ out.old.items ++ spec.read_text r.Entity) }
{
    put_mark(out, Mark::Entity)?;
    put_mark(out, Mark::LParen)?;
    put_mark(out, Mark::This)?;
    put_mark(out, Mark::RParen)?;
    Ok(())
}

// entity ( this . a )
#[tactic(auto, unfolding(crate::specs::Printing::read_text))]
fn put_entity_at(out: &mut Vec<u8>, field: &Text) -> Result<(), Memory>
    ensures { OnOk result (out.new.items ≡ out.old.items ++ spec.read_text (r.EntityAt field.now)) }
{
    put_mark(out, Mark::Entity)?;
    put_field_in(out, field)?;
    Ok(())
}

// entity ( x )
#[tactic(auto, unfolding(crate::specs::Printing::read_text))]
fn put_entity_of(out: &mut Vec<u8>, name: &Text) -> Result<(), Memory>
    ensures { OnOk result (out.new.items ≡ out.old.items ++ spec.read_text (r.EntityOf name.now)) }
{
    put_mark(out, Mark::Entity)?;
    put_kind(out, name)?;
    Ok(())
}

// A read that always has a value.
#[tactic(auto, unfolding(crate::specs::Printing::read_text))]
pub fn put_read(out: &mut Vec<u8>, read: &Read) -> Result<(), Memory>
    ensures { OnOk result (out.new.items ≡ out.old.items ++ spec.read_text read.now) }
{
    match read {
        Read::This(field) => put_this(out, field),
        Read::Field(path) => put_this_path(out, path),
        Read::Sum(over, path) => put_over(out, Mark::Sum, *over, path),
        Read::Count(over, kind) => put_count(out, reach_mark(*over), kind),
        Read::SumAll(path) => put_all(out, Mark::Sum, path),
        Read::CountAll(kind) => put_count(out, Mark::All, kind),
        Read::Entity => put_entity(out),
        Read::EntityAt(field) => put_entity_at(out, field),
        Read::EntityOf(name) => put_entity_of(out, name),
    }
}
