ghost use Rattle.std.specs.Prelude.{◌≡◌, ◌^◌, pos, neg_ℤ, ◌<ℤ◌};
ghost use Rattle.{audit_law.specs.collections.Small.IsSmall, tte_units.specs.Mean.mean_of};

/// The mean of two numbers, rounded towards minus infinity.
pub(crate) fn mean(a: i128, b: i128) -> i128
    requires first { IsSmall a }
    requires second { IsSmall b }
    ensures value { result ≡ mean_of a b }
    ensures small { IsSmall result }
{
    (a + b).div_euclid(2)
}
