// What operators give, by the tags of their operands. `docs/rules.md`, "Types" and "Meaning".
ghost use Rattle.std.specs.Prelude.{◌≡◌};
ghost use Rattle.eb_meaning.specs.Operators as spec;

use crate::values::{RunFault, Value};
use eb_base::{Calc, CalcFault};
use eb_rule_text::Op;

/// What operands give that stand together in no well-typed expression.
pub const NO_VALUE: Value = Value::Int(0);

// How many units a number with a point has to the 1.
const UNITS: i64 = 65536;

/// What a number counts.
#[derive(Clone, Copy)]
pub enum Scale {
    /// 1, of a whole number.
    Whole,
    /// 1/65536, of a number with a point.
    Fixed,
}

/// Whether a value counts as true. Takes no memory.
pub fn truth(value: Value) -> bool
    ensures { result ≡ spec.truth value }
{
    match value {
        Value::Truth(truth) => truth,
        _ => false,
    }
}

fn fault_of(fault: CalcFault) -> RunFault
    ensures { result ≡ spec.fault_of fault }
{
    match fault {
        CalcFault::Overflow => RunFault::Overflow,
        CalcFault::DivZero => RunFault::DivZero,
    }
}

fn number(scale: Scale, number: i64) -> Value
    ensures { result ≡ spec.number scale number }
{
    match scale {
        Scale::Whole => Value::Int(number),
        Scale::Fixed => Value::Fix(number),
    }
}

fn product(scale: Scale, left: i64, right: i64) -> Result<i64, CalcFault>
    ensures { result ≡ spec.product scale left right }
{
    match scale {
        Scale::Whole => Calc::mul(left, right),
        Scale::Fixed => Calc::fmul(left, right),
    }
}

fn quotient(scale: Scale, left: i64, right: i64) -> Result<i64, CalcFault>
    ensures { result ≡ spec.quotient scale left right }
{
    match scale {
        Scale::Whole => Calc::div(left, right),
        Scale::Fixed => Calc::fdiv(left, right),
    }
}

// The number of a calculation, or its fault.
fn calculated(scale: Scale, made: Result<i64, CalcFault>) -> Result<Value, RunFault>
    ensures { result ≡ spec.calculated scale made }
{
    match made {
        Ok(made) => Ok(number(scale, made)),
        Err(fault) => Err(fault_of(fault)),
    }
}

fn compared(op: Op, left: i64, right: i64) -> bool
    ensures { result ≡ spec.compared op left right }
{
    match op {
        Op::Equal => left == right,
        Op::NotEqual => left != right,
        Op::Less => left < right,
        Op::AtMost => left <= right,
        Op::Greater => left > right,
        Op::AtLeast => left >= right,
        _ => false,
    }
}

// An operator between two numbers of one scale.
fn of_numbers(scale: Scale, op: Op, left: i64, right: i64) -> Result<Value, RunFault>
    ensures { result ≡ spec.of_numbers scale op left right }
{
    match op {
        Op::Plus => calculated(scale, Calc::add(left, right)),
        Op::Minus => calculated(scale, Calc::sub(left, right)),
        Op::Times => calculated(scale, product(scale, left, right)),
        Op::Over => calculated(scale, quotient(scale, left, right)),
        _ => Ok(Value::Truth(compared(op, left, right))),
    }
}

fn of_truths(op: Op, left: bool, right: bool) -> bool
    ensures { result ≡ spec.of_truths op left right }
{
    match op {
        Op::Either => left || right,
        Op::And => left && right,
        Op::Equal => left == right,
        Op::NotEqual => left != right,
        _ => false,
    }
}

/// Whether the left operand alone decides, so that the right one isn't evaluated. Takes no memory.
pub fn left_decides(op: Op, left: Value) -> bool
    ensures { result ≡ spec.left_decides op left }
{
    match op {
        Op::Either => truth(left),
        Op::And => !truth(left),
        _ => false,
    }
}

/// The value of an operator between two operands: `Overflow` where a number doesn't lie in `i64`, `DivZero` where a divisor
/// is 0. Takes no memory.
pub fn applied(op: Op, left: Value, right: Value) -> Result<Value, RunFault>
    ensures { result ≡ spec.applied op left right }
{
    match (left, right) {
        (Value::Int(left), Value::Int(right)) => of_numbers(Scale::Whole, op, left, right),
        (Value::Fix(left), Value::Fix(right)) => of_numbers(Scale::Fixed, op, left, right),
        (Value::Truth(left), Value::Truth(right)) => Ok(Value::Truth(of_truths(op, left, right))),
        _ => Ok(NO_VALUE),
    }
}

/// `-e`: 0 minus e, or `Overflow`. Takes no memory.
pub fn negated(value: Value) -> Result<Value, RunFault>
    ensures { result ≡ spec.negated value }
{
    match value {
        Value::Int(number) => calculated(Scale::Whole, Calc::sub(0, number)),
        Value::Fix(units) => calculated(Scale::Fixed, Calc::sub(0, units)),
        _ => Ok(NO_VALUE),
    }
}

/// `fix(e)`: a whole number as one with a point, or `Overflow`. Takes no memory.
pub fn to_fix(value: Value) -> Result<Value, RunFault>
    ensures { result ≡ spec.to_fix value }
{
    match value {
        Value::Int(number) => calculated(Scale::Fixed, Calc::mul(number, UNITS)),
        _ => Ok(NO_VALUE),
    }
}

/// `int(e)`: the floor of a number with a point. Takes no memory.
pub fn to_int(value: Value) -> Result<Value, RunFault>
    ensures { result ≡ spec.to_int value }
{
    match value {
        Value::Fix(units) => calculated(Scale::Whole, Calc::div(units, UNITS)),
        _ => Ok(NO_VALUE),
    }
}
