// What a value is, and what operators make of it.
ghost use Rattle.std.specs.Prelude.{◌≡◌};
ghost use Rattle.eb_rules.specs.Shapes as spec;

use crate::plans::{FindTerm, ReadTerm};
use eb_rule_text::Op;
use eb_schema::Kind;

/// What a value of the rule language is.
#[derive(Clone, Copy, Debug, PartialEq, Eq)]
pub enum Shape {
    Int,
    Fix,
    Bool,
    Ref,
}

/// The shape of what a component's field holds.
pub fn shape_of(kind: Kind) -> Option<Shape>
    ensures { result ≡ spec.shape_of kind }
{
    match kind {
        Kind::I8 => Some(Shape::Int),
        Kind::I16 => Some(Shape::Int),
        Kind::I32 => Some(Shape::Int),
        Kind::I64 => Some(Shape::Int),
        Kind::Fix => Some(Shape::Fix),
        Kind::Ref => Some(Shape::Ref),
        Kind::Asset => None,
    }
}

/// The shape of a field that holds numbers.
pub fn number_of(kind: Kind) -> Option<Shape>
    ensures { result ≡ spec.number_of kind }
{
    match kind {
        Kind::I8 => Some(Shape::Int),
        Kind::I16 => Some(Shape::Int),
        Kind::I32 => Some(Shape::Int),
        Kind::I64 => Some(Shape::Int),
        Kind::Fix => Some(Shape::Fix),
        Kind::Ref => None,
        Kind::Asset => None,
    }
}

pub fn same_shape(a: Shape, b: Shape) -> bool
    ensures { result ≡ spec.same_shape a b }
{
    match a {
        Shape::Int => match b {
            Shape::Int => true,
            _ => false,
        },
        Shape::Fix => match b {
            Shape::Fix => true,
            _ => false,
        },
        Shape::Bool => match b {
            Shape::Bool => true,
            _ => false,
        },
        Shape::Ref => match b {
            Shape::Ref => true,
            _ => false,
        },
    }
}

// What two numbers of one shape make.
fn of_numbers(a: Shape, b: Shape) -> Option<Shape>
    ensures { result ≡ spec.of_numbers a b }
{
    match a {
        Shape::Int => match b {
            Shape::Int => Some(Shape::Int),
            _ => None,
        },
        Shape::Fix => match b {
            Shape::Fix => Some(Shape::Fix),
            _ => None,
        },
        Shape::Bool => None,
        Shape::Ref => None,
    }
}

// Whether two numbers of one shape stand in an order.
fn of_order(a: Shape, b: Shape) -> Option<Shape>
    ensures { result ≡ spec.of_order (spec.of_numbers a b) }
{
    match of_numbers(a, b) {
        Some(_) => Some(Shape::Bool),
        None => None,
    }
}

// Whether both are true, or one is.
fn of_truths(a: Shape, b: Shape) -> Option<Shape>
    ensures { result ≡ spec.of_truths a b }
{
    match a {
        Shape::Bool => match b {
            Shape::Bool => Some(Shape::Bool),
            _ => None,
        },
        _ => None,
    }
}

// Whether two numbers or two truths are the same.
fn of_equals(a: Shape, b: Shape) -> Option<Shape>
    ensures { result ≡ spec.of_equals a b }
{
    match a {
        Shape::Bool => of_truths(a, b),
        _ => of_order(a, b),
    }
}

/// What an operator makes of two operands, where it may.
pub fn of_op(op: Op, a: Shape, b: Shape) -> Option<Shape>
    ensures { result ≡ spec.of_op op a b }
{
    match op {
        Op::Either => of_truths(a, b),
        Op::And => of_truths(a, b),
        Op::Equal => of_equals(a, b),
        Op::NotEqual => of_equals(a, b),
        Op::Less => of_order(a, b),
        Op::AtMost => of_order(a, b),
        Op::Greater => of_order(a, b),
        Op::AtLeast => of_order(a, b),
        Op::Plus => of_numbers(a, b),
        Op::Minus => of_numbers(a, b),
        Op::Times => of_numbers(a, b),
        Op::Over => of_numbers(a, b),
    }
}

/// What `-` makes of an operand.
pub fn of_minus(a: Shape) -> Option<Shape>
    ensures { result ≡ spec.of_minus a }
{
    of_numbers(a, a)
}

/// What `!` makes of an operand.
pub fn of_not(a: Shape) -> Option<Shape>
    ensures { result ≡ spec.of_not a }
{
    of_truths(a, a)
}

/// What `fix(..)` makes of an operand.
pub fn of_fix(a: Shape) -> Option<Shape>
    ensures { result ≡ spec.of_fix a }
{
    match a {
        Shape::Int => Some(Shape::Fix),
        _ => None,
    }
}

/// What `int(..)` makes of an operand.
pub fn of_int(a: Shape) -> Option<Shape>
    ensures { result ≡ spec.of_int a }
{
    match a {
        Shape::Fix => Some(Shape::Int),
        _ => None,
    }
}

/// Whether this shape is wanted, where one is.
pub fn fits(wanted: Option<Shape>, shape: Shape) -> bool
    ensures { result ≡ spec.fits wanted shape }
{
    match wanted {
        Some(wanted) => same_shape(wanted, shape),
        None => false,
    }
}

fn only_where(holds: bool, shape: Option<Shape>) -> Option<Shape>
    ensures { result ≡ spec.only_where holds shape }
{
    if holds { shape } else { None }
}

pub fn is_ref(kind: Kind) -> bool
    ensures { result ≡ spec.is_ref kind }
{
    match kind {
        Kind::Ref => true,
        _ => false,
    }
}

fn is_asset(kind: Kind) -> bool
    ensures { result ≡ spec.is_asset kind }
{
    match kind {
        Kind::Asset => true,
        _ => false,
    }
}

/// The shape of the number that a read finds, where its fields may be read so.
pub fn found_shape(find: &FindTerm) -> Option<Shape>
    ensures { result ≡ spec.found_shape find.now }
{
    match find {
        FindTerm::Own(at) => number_of(at.field.kind),
        FindTerm::Parent(at) => number_of(at.field.kind),
        FindTerm::Asset(link, at) => only_where(is_asset(link.kind), number_of(at.kind)),
        FindTerm::Min(_, at) => number_of(at.field.kind),
        FindTerm::Max(_, at) => number_of(at.field.kind),
        FindTerm::At(link, at) => only_where(is_ref(link.field.kind), number_of(at.field.kind)),
        FindTerm::MaxAll(at) => number_of(at.field.kind),
    }
}

/// The shape of a read's value, where its field may be read so.
pub fn read_shape(read: &ReadTerm) -> Option<Shape>
    ensures { result ≡ spec.read_shape read.now }
{
    match read {
        ReadTerm::This(at) => number_of(at.kind),
        ReadTerm::Field(at) => shape_of(at.field.kind),
        ReadTerm::Sum(_, at) => number_of(at.field.kind),
        ReadTerm::Count(_, _) => Some(Shape::Int),
        ReadTerm::SumAll(at) => number_of(at.field.kind),
        ReadTerm::CountAll(_) => Some(Shape::Int),
        ReadTerm::Entity => Some(Shape::Ref),
        ReadTerm::EntityAt(at) => only_where(is_ref(at.kind), Some(Shape::Ref)),
    }
}
