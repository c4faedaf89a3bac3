// Values of expressions, and why an evaluation stops.
ghost use Rattle.std.specs.Prelude.{◌≡◌};
ghost use Rattle.eb_meaning.specs.declared.values.RunFault.{RunFault};
ghost use Rattle.eb_meaning.specs.declared.values.Stop.TheVariants as stop;

use eb_base::{Memory, Name};

/// What a value of a reference refers to.
#[derive(Clone, Copy)]
pub enum Link {
    /// Nothing.
    Null,
    /// An entity that was removed.
    Gone,
    /// The entity of this name.
    To(Name),
    /// The entity that a job creates by its `create` of this number, counted from 0 through its text.
    Created(u32),
}

/// The value of an expression.
#[derive(Clone, Copy)]
pub enum Value {
    /// A whole number.
    Int(i64),
    /// A number with a point, in units of 1/65536.
    Fix(i64),
    /// True or false.
    Truth(bool),
    /// A reference.
    Link(Link),
}

/// Why an expression or a statement has no value.
#[derive(Clone, Copy)]
pub enum RunFault {
    /// A calculation has a value that doesn't lie in `i64`.
    Overflow,
    /// A divisor is 0.
    DivZero,
    /// A value doesn't fit the kind of its field.
    Range,
}

/// Why an evaluation stops before its end.
#[derive(Clone, Copy)]
pub enum Stop {
    /// What is evaluated has this fault, the first in the order of evaluation.
    Fault(RunFault),
    /// There was no memory.
    Memory,
}

impl From<Memory> for Stop {
    ghost from_gives = { λ _ given. given ≡ stop.Memory };

    fn from(_: Memory) -> Self {
        Stop::Memory
    }
}

impl From<RunFault> for Stop {
    ghost from_gives = { λ fault given. given ≡ stop.Fault fault };

    fn from(fault: RunFault) -> Self {
        Stop::Fault(fault)
    }
}
