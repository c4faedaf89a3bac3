// What is made of numbers that a read gathers.
ghost use Rattle.std.specs.Prelude.{◌≡◌, fold};
ghost use Rattle.eb_eval.specs.Sums.{total, sum_value, count_value, better, best_of, best_value};

use crate::fields::value_as;
use eb_meaning::{RunFault, Value};
use eb_schema::Kind;

/// Which of several numbers is meant.
#[derive(Clone, Copy)]
pub enum Extreme {
    /// The least.
    Least,
    /// The greatest.
    Greatest,
}

// The exact sum.
fn total(numbers: &[i64]) -> i128
    ensures { result ≡ total numbers.now }
{
    let mut sum = 0;
    for number in numbers {
        sum += i128::from(*number);
    }
    sum
}

/// The sum as the value of a field of the kind, or `Overflow` where it doesn't lie in `i64`.
pub fn sum_value(kind: Kind, numbers: &[i64]) -> Result<Value, RunFault>
    ensures { result ≡ sum_value kind numbers.now }
{
    match i64::try_from(total(numbers)) {
        Ok(sum) => Ok(value_as(kind, sum)),
        Err(_) => Err(RunFault::Overflow),
    }
}

/// How many there are.
pub fn count_value(numbers: &[i64]) -> Value
    ensures { result ≡ count_value numbers.now }
{
    Value::Int(numbers.len() as i64)
}

// The lesser or the greater of two.
fn better(extreme: Extreme, a: i64, b: i64) -> i64
    ensures { result ≡ better extreme a b }
{
    match extreme {
        Extreme::Least => a.min(b),
        Extreme::Greatest => a.max(b),
    }
}

// The best of a number and others.
fn best_from(extreme: Extreme, first: i64, others: &[i64]) -> i64
    ensures { result ≡ fold (better extreme) first others.now }
{
    let mut best = first;
    for number in others {
        best = better(extreme, best, *number);
    }
    best
}

/// The least or the greatest as the value of a field of the kind; none of nothing.
pub fn best_value(extreme: Extreme, kind: Kind, numbers: &[i64]) -> Option<Value>
    ensures { result ≡ best_value extreme kind numbers.now }
{
    match numbers {
        [] => None,
        [first, others @ ..] => Some(value_as(kind, best_from(extreme, *first, others))),
    }
}
