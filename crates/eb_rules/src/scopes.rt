// What names mean where an expression stands.
ghost use Rattle.std.specs.Prelude.{◌≡◌};
ghost use Rattle.eb_rules.specs.Scopes as spec;

use crate::shapes::Shape;
use eb_base::{Text, TypeNo};
use eb_rule_names::{Named, VisibleNames};
use eb_rule_text::Context;
use eb_schema::{Field, Schema};
use std::marker::Model;

/// What a visible name stands for.
#[derive(Clone, Copy, Debug, PartialEq, Eq)]
pub enum Bound {
    /// A value of a `let`.
    Value(Shape),
    /// An extra or a created entity.
    Entity,
}

/// What it is as a value.
pub fn as_value(bound: Bound) -> Option<Shape>
    ensures { result ≡ spec.as_value bound }
{
    match bound {
        Bound::Value(shape) => Some(shape),
        Bound::Entity => None,
    }
}

/// What it is in the place of an entity.
pub fn as_entity(bound: Bound) -> Option<Shape>
    ensures { result ≡ spec.as_entity bound }
{
    match bound {
        Bound::Value(_) => None,
        Bound::Entity => Some(Shape::Ref),
    }
}

/// A visible name.
#[derive(Debug, Drop)]
pub struct Visible {
    pub name: Text,
    pub bound: Bound,
}

impl Named for Visible {
    ghost name_of = { λ visible. visible.name };

    fn name(&self) -> &[u8] {
        self.name.bytes()
    }
}

/// Where an expression stands.
#[derive(Drop)]
pub struct Scope<'g, 'k> {
    pub schema: &'g Schema,
    /// In which of the three forms it stands.
    pub context: Context,
    /// The fields of the baker's own authoring type; none in systems and jobs.
    pub own: &'g [Field],
    /// The types in the list `all` of the query; none in bakers.
    pub all: &'g [TypeNo],
    /// The visible names, each different.
    pub known: &'k VisibleNames<Visible>,
}

impl<'g, 'k> Model for Scope<'g, 'k> {
    ghost use Rattle.eb_rules.specs.Scopes.{Where};

    ghost Value = { Where };

    ghost view = { λ s. record { types = s.schema.now; context = s.context; own = s.own.now; all = s.all.now; known = s.known.now } };
}
