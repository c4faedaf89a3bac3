// Arithmetic of the rule language on whole and fixed numbers: exact, or a named fault.
ghost use Rattle.std.specs.Prelude.{◌≡◌, ◌≢◌, ◌<◌, ◌^◌, ℕ, ℤ, ◌+ℤ◌, ◌*ℤ◌, ◌≤ℤ◌, ◌<ℤ◌, neg_ℤ, pos, unsigned_abs};
ghost use Rattle.eb_base.specs.Arithmetic.{fitting, floor_quotient, over, sum_of, difference_of, product_of, quotient_of, fixed_product_of, fixed_quotient_of};

/// How many units a fixed number's 1 has: a fixed number is a count of 65536ths.
pub const UNITS: i128 = 65536;

/// Why a calculation has no value.
#[derive(Clone, Copy, Debug, PartialEq, Eq)]
pub enum CalcFault {
    /// The value doesn't lie in `i64`.
    Overflow,
    /// The divisor is 0.
    DivZero,
}

/// The calculations, on whole numbers and on units of fixed numbers. None takes memory.
pub struct Calc;

impl Calc {
    /// a + b. The fault is Overflow.
    pub fn add(a: i64, b: i64) -> Result<i64, CalcFault>
        ensures { result ≡ sum_of a b }
    {
        fit(a as i128 + b as i128)
    }

    /// a - b. The fault is Overflow.
    pub fn sub(a: i64, b: i64) -> Result<i64, CalcFault>
        ensures { result ≡ difference_of a b }
    {
        fit(a as i128 - b as i128)
    }

    /// a * b. The fault is Overflow.
    pub fn mul(a: i64, b: i64) -> Result<i64, CalcFault>
        ensures { result ≡ product_of a b }
    {
        fit(product(a, b))
    }

    /// The floor of a / b: DivZero where b is 0, else the fault is Overflow.
    pub fn div(a: i64, b: i64) -> Result<i64, CalcFault>
        ensures { result ≡ quotient_of a b }
    {
        quotient(a as i128, b)
    }

    /// The product of two fixed numbers, the floor of a * b / 65536 units. The fault is Overflow.
    pub fn fmul(a: i64, b: i64) -> Result<i64, CalcFault>
        ensures { result ≡ fixed_product_of a b }
    {
        fit(floor(product(a, b), UNITS))
    }

    /// The quotient of two fixed numbers, the floor of a * 65536 / b units: DivZero where b is 0, else the fault is Overflow.
    pub fn fdiv(a: i64, b: i64) -> Result<i64, CalcFault>
        ensures { result ≡ fixed_quotient_of a b }
    {
        quotient(a as i128 * UNITS, b)
    }
}

// The floor of a / b, or the fault.
fn quotient(a: i128, b: i64) -> Result<i64, CalcFault>
    requires { unsigned_abs a < 2 ^ 127 }
    ensures { result ≡ over b (floor_quotient a b) }
{
    if b == 0 {
        return Err(CalcFault::DivZero);
    }
    fit(floor(a, b as i128))
}

// The value, or Overflow.
fn fit(value: i128) -> Result<i64, CalcFault>
    ensures { result ≡ fitting value }
{
    match i64::try_from(value) {
        Ok(number) => Ok(number),
        Err(_) => Err(CalcFault::Overflow),
    }
}

// a * b, which always has room.
fn product(a: i64, b: i64) -> i128
    ensures value { result ≡ a *ℤ b }
    ensures small { unsigned_abs result < 2 ^ 127 }
{
    a as i128 * b as i128
}

// The floor of a / b.
pub(crate) fn floor(a: i128, b: i128) -> i128
    requires nonzero { b ≢ pos 0 }
    requires room { unsigned_abs a < 2 ^ 127 }
    requires small { unsigned_abs b < 2 ^ 127 }
    ensures { result ≡ floor_quotient a b }
{
    if b > 0 {
        a.div_euclid(b)
    } else {
        (-a).div_euclid(-b)
    }
}

/// The law that the quotients of the definitions are floors: q = floor_quotient a b has q * b <= a < q * b + b where b is
/// above 0, and is that of -a and -b where b is below.
pub fn floors_are_exact()
    ensures low { (a : ℤ) (b : ℕ) → 0 < b → (floor_quotient a (pos b) *ℤ pos b) ≤ℤ a }
    ensures high { (a : ℤ) (b : ℕ) → 0 < b → a <ℤ (floor_quotient a (pos b) *ℤ pos b +ℤ pos b) }
    ensures negative { (a : ℤ) (b : ℕ) → 0 < b → floor_quotient a (neg_ℤ (pos b)) ≡ floor_quotient (neg_ℤ a) (pos b) }
{}
