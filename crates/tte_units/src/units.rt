ghost use Rattle.std.specs.Prelude.{◌<ℤ◌, ◌<◌, ◌^◌, ◌≡◌, ◌≤ℤ◌, neg_ℤ, pos};
ghost use Rattle.tte_units.specs.{Amount.{amount, units_of}, Mean.{IsMean, mean_of}};

/// A time, a clock's reading or a delay, in units of 2^-16 ns: 1 ns is 65,536 units.
#[derive(Clone, Copy, Debug, PartialEq, Eq, PartialOrd, Ord)]
pub struct Units(pub i64);

/// The greatest reading, point, adjustment, expected value or local value, in units. The least is its
/// negative.
pub const READING_LIMIT: u64 = (1 << 61) + (1 << 58);

impl Units {
    /// So many units: fewer than 2^63.
    pub fn from_amount(n: u64) -> Units
        requires { n < 2 ^ 63 }
        ensures value { result ≡ units_of n }
        ensures whole { result.0 ≡ pos n }
    {
        Units(n as i64)
    }

    /// How many units these are. They are not negative.
    pub fn amount(self) -> u64
        requires { pos 0 ≤ℤ self.0 }
        ensures value { result ≡ amount self }
        ensures whole { self.0 ≡ pos result }
    {
        self.0 as u64
    }
}

/// How many units these are, without their sign.
pub fn magnitude(units: Units) -> u64
    ensures { result ≡ amount units }
{
    units.0.unsigned_abs()
}

/// The mean of two numbers of units, rounded towards minus infinity.
///
/// Both lie strictly between -2^61 and 2^61.
pub fn mean(a: Units, b: Units) -> Units
    requires a_low { neg_ℤ (pos (2 ^ 61)) <ℤ a.0 }
    requires a_high { a.0 <ℤ pos (2 ^ 61) }
    requires b_low { neg_ℤ (pos (2 ^ 61)) <ℤ b.0 }
    requires b_high { b.0 <ℤ pos (2 ^ 61) }
    ensures value { result.0 ≡ mean_of a.0 b.0 }
    ensures floor { IsMean a.0 b.0 result.0 }
{
    Units((a.0 + b.0).div_euclid(2))
}
