ghost use Rattle.std.specs.Prelude.{◌≡◌, ◌⊎◌, ◌-ℤ◌, ◌≤ℤ◌, All};
ghost use Rattle.run_law.specs.law.Spread.{IsLocal, IsSpread};

use tte_units::Units;

/// How far local clocks are apart: the greatest less the least, and 0 where there are none.
///
/// Each lies from -(2^61 + 2^58) to 2^61 + 2^58 units of 2^-16 ns.
pub fn spread(locals: &[Units]) -> Units
    requires { All IsLocal locals.now }
    ensures { IsSpread locals.now result }
{
    let Some(&first) = locals.first() else {
        return Units(0);
    };
    let mut least = first;
    let mut greatest = first;
    for &local in locals {
        least = lesser(least, local);
        greatest = greater(greatest, local);
    }
    apart(least, greatest)
}

fn lesser(a: Units, b: Units) -> Units
    ensures one { (result ≡ a) ⊎ (result ≡ b) }
    ensures first { result.0 ≤ℤ a.0 }
    ensures second { result.0 ≤ℤ b.0 }
{
    if b.0 < a.0 { b } else { a }
}

fn greater(a: Units, b: Units) -> Units
    ensures one { (result ≡ a) ⊎ (result ≡ b) }
    ensures first { a.0 ≤ℤ result.0 }
    ensures second { b.0 ≤ℤ result.0 }
{
    if a.0 < b.0 { b } else { a }
}

fn apart(least: Units, greatest: Units) -> Units
    requires least { IsLocal least }
    requires greatest { IsLocal greatest }
    ensures { result.0 ≡ (greatest.0 -ℤ least.0) }
{
    Units(greatest.0 - least.0)
}
