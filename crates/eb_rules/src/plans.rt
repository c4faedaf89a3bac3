// The resolved trees: types by their numbers, fields by their places and kinds, visible names by their positions. They have no
// parentheses and no names. What is printed is the tree that was read.
ghost use Rattle.std.specs.Prelude.{◌≡◌, option_copied};
ghost use Rattle.eb_rules.specs.Bakers as spec;

use crate::queries::Query3;
use eb_base::{AuthorNo, TypeNo};
use eb_rule_text::{Link, Reach};
use eb_schema::Kind;
use sqlite_items::{Boxed, Items};

/// A field of a known type, or of the assets.
#[derive(Clone, Copy, Debug, PartialEq, Eq)]
pub struct FieldPlace {
    /// How many fields of the type stand before it.
    pub place: usize,
    /// What it holds.
    pub kind: Kind,
}

/// A field of an authoring type.
#[derive(Clone, Copy, Debug, PartialEq, Eq)]
pub struct AuthoredField {
    pub kind: AuthorNo,
    pub field: FieldPlace,
}

/// A field of a component type.
#[derive(Clone, Copy, Debug, PartialEq, Eq)]
pub struct ComponentField {
    pub kind: TypeNo,
    pub field: FieldPlace,
}

/// A read that finds a value or nothing, and so goes on with `or`.
#[derive(Clone, Copy, Debug, PartialEq, Eq)]
pub enum FindTerm {
    /// `own(T).f`
    Own(AuthoredField),
    /// `parent(T).f`
    Parent(AuthoredField),
    /// `asset(this.a).f`: a of the object's own type, and f of the assets.
    Asset(FieldPlace, FieldPlace),
    /// `min children(T).f` or `min within(T).f`
    Min(Reach, AuthoredField),
    /// `max children(T).f` or `max within(T).f`
    Max(Reach, AuthoredField),
    /// `at(this.T.r).U.g`: T.r and U.g.
    At(ComponentField, ComponentField),
    /// `max all(T.f)`
    MaxAll(ComponentField),
}

/// A read that always has a value.
#[derive(Clone, Copy, Debug, PartialEq, Eq)]
pub enum ReadTerm {
    /// `this.f` of a baker: f of the object's own type.
    This(FieldPlace),
    /// `this.T.f` of a system or a job.
    Field(ComponentField),
    /// `sum children(T).f` or `sum within(T).f`
    Sum(Reach, AuthoredField),
    /// `count children(T)` or `count within(T)`
    Count(Reach, AuthorNo),
    /// `sum all(T.f)`
    SumAll(ComponentField),
    /// `count all(T)`
    CountAll(TypeNo),
    /// `entity(this)`
    Entity,
    /// `entity(this.r)`: r of the object's own type.
    EntityAt(FieldPlace),
}

/// An expression.
#[derive(Drop)]
pub enum Term {
    /// A whole number, from 0 to 9223372036854775807.
    Int(i64),
    /// A number with a point, in units of 1/65536.
    Fix(i64),
    True,
    False,
    Null,
    /// The value of a `let`, or in `entity(x)` the entity x: its position among the visible names.
    Name(usize),
    /// `fix(e)`
    ToFix(Boxed<Term>),
    /// `int(e)`
    ToInt(Boxed<Term>),
    /// A read that always has a value.
    Read(ReadTerm),
    /// Reads each of which goes on with `or`, at least one, and what stands behind the last `or`.
    Find(Items<FindTerm>, Boxed<Term>),
    /// `-e`
    Negate(Boxed<Term>),
    /// `!e`
    Not(Boxed<Term>),
    /// A first operand, and operators each with the operand behind it, from left to right.
    Chain(Boxed<Term>, Items<Link<Term>>),
}

/// A value of a field, and what the field holds.
#[derive(Drop)]
pub struct Filling {
    pub kind: Kind,
    pub value: Term,
}

/// `add T { .. }`
#[derive(Drop)]
pub struct Addition {
    pub kind: TypeNo,
    /// A value for each field, in the order of the schema.
    pub values: Items<Filling>,
}

/// A statement of a baker or a system. Each `let` and each extra puts a name behind those that are visible, and the names of a
/// block go at its end.
#[derive(Drop)]
pub enum Step {
    /// `let x = e;`
    Let(Term),
    /// `add T { .. }`
    Add(Addition),
    /// `extra x { .. }`: how many extras of the baker stand before it in the text, and its additions.
    Extra(usize, Items<Addition>),
    /// `if e { .. } else { .. }`. Without `else` the second list is empty.
    If(Term, Items<Step>, Items<Step>),
}

/// `baker n on T { .. }`
#[derive(Drop)]
pub struct BakerPlan {
    /// 1 to 64.
    pub number: u8,
    pub authoring: AuthorNo,
    pub body: Items<Step>,
}

/// `system n .. { .. }`
#[derive(Drop)]
pub struct SystemPlan {
    /// 1 to 32.
    pub number: u8,
    pub query: Query3,
    pub body: Items<Step>,
}

/// All rules, each at its number: a baker of number n stands behind n - 1 others or gaps, and a system alike.
#[derive(Drop)]
pub struct RulesPlan {
    /// Bakers 1 to 64.
    pub bakers: eb_base::Items<Option<BakerPlan>>,
    /// Systems 1 to 32.
    pub systems: eb_base::Items<Option<SystemPlan>>,
}

/// What stands at a number, of what stands at its own from 1 on. Takes no memory.
pub fn at_number<T>(number: u8, slots: &[Option<T>]) -> Option<&T>
    ensures { option_copied result ≡ spec.at_number number slots.now }
{
    if number == 0 {
        return None;
    }
    match slots.get(number as usize - 1) {
        Some(Some(rule)) => Some(rule),
        Some(None) => None,
        None => None,
    }
}

impl RulesPlan {
    /// The baker of a number, if there is one. Takes no memory.
    pub fn baker(&self, number: u8) -> Option<&BakerPlan>
        ensures { option_copied result ≡ spec.at_number number self.now.bakers }
    {
        at_number(number, self.bakers.items())
    }

    /// The system of a number, if there is one. Takes no memory.
    pub fn system(&self, number: u8) -> Option<&SystemPlan>
        ensures { option_copied result ≡ spec.at_number number self.now.systems }
    {
        at_number(number, self.systems.items())
    }
}

/// What a command acts on.
#[derive(Clone, Copy, Debug, PartialEq, Eq)]
pub enum Aim {
    /// `this`
    This,
    /// A created entity: its position among the visible names.
    Created(usize),
    /// `at(this.T.r)`
    At(ComponentField),
}

/// A command of a job.
#[derive(Drop)]
pub enum Order {
    /// `create x`
    Create,
    /// `destroy target`
    Destroy(Aim),
    /// `remove target T`
    Remove(Aim, TypeNo),
    /// `add target T { .. }`
    Add(Aim, Addition),
    /// `set target T { .. }`
    Set(Aim, Addition),
}

/// A job.
#[derive(Drop)]
pub struct JobPlan {
    pub query: Query3,
    pub key: Term,
    /// The commands, in the order of the text.
    pub orders: Items<Order>,
}
