// What a walk over statements has come to.
use crate::faults::Refusal;
use crate::scopes::Visible;
use eb_base::{Items, Memory, TypeNo};
use eb_rule_names::VisibleNames;
use eb_rule_text::Context;
use eb_schema::{Field, Schema};
use std::alloc::AllocError;
use std::marker::Model;

/// Why a walk over statements stops.
#[derive(Clone, Copy, Debug, PartialEq, Eq)]
pub enum WalkError {
    /// Want of memory.
    Memory,
    Refused(Refusal),
}

impl From<Memory> for WalkError {
    ghost use Rattle.std.specs.Prelude.{◌≡◌};
    ghost use Rattle.eb_rules.specs.declared.walking.WalkError.TheVariants.{Memory};

    ghost from_gives = { λ _ e. e ≡ Memory };

    fn from(_: Memory) -> WalkError {
        WalkError::Memory
    }
}

impl From<AllocError> for WalkError {
    ghost use Rattle.std.specs.Prelude.{◌≡◌};
    ghost use Rattle.eb_rules.specs.declared.walking.WalkError.TheVariants.{Memory};

    ghost from_gives = { λ _ e. e ≡ Memory };

    fn from(_: AllocError) -> WalkError {
        WalkError::Memory
    }
}

impl From<Refusal> for WalkError {
    ghost use Rattle.std.specs.Prelude.{◌≡◌};
    ghost use Rattle.eb_rules.specs.declared.walking.WalkError.TheVariants.{Refused};

    ghost from_gives = { λ x e. e ≡ Refused x };

    fn from(refusal: Refusal) -> WalkError {
        WalkError::Refused(refusal)
    }
}

/// What a walk over the statements of one baker or system has come to.
#[derive(Drop)]
pub struct State {
    /// The visible names.
    pub known: VisibleNames<Visible>,
    /// The different types that were added to the object's own entity.
    pub types: Items<TypeNo>,
    /// How many extras there were.
    pub extras: usize,
}

/// What stays the same on a walk.
#[derive(Drop)]
pub struct Ground<'a> {
    pub schema: &'a Schema,
    /// A baker, whose entities have at most 32 types, or a system.
    pub context: Context,
    /// The fields of the baker's own authoring type; none in systems.
    pub own: &'a [Field],
    /// The types in the list `all` of a system's query; none in bakers.
    pub all: &'a [TypeNo],
}

impl<'a> Model for Ground<'a> {
    ghost use Rattle.eb_rules.specs.Statements.{Fixed};

    ghost Value = { Fixed };

    ghost view = { λ g. record { types = g.schema.now; context = g.context; own = g.own.now; all = g.all.now } };
}
