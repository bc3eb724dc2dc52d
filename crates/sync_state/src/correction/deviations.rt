ghost use Rattle.std.specs.{Int.w64, Prelude.{◌-ℤ◌, ◌↔◌, ◌≡◌, FitsSigned, IfSome, IsNone}};
ghost use Rattle.tte_units.specs.Mean.{IsMean};
ghost use Rattle.sync_state.specs.correction.{Correction.correction_of, Deviation.{IsSmall, deviation_of}};

use tte_units::{Units, mean};

/// How far a device's clock is behind: its local clock should have shown `expected` at the point
/// of a frame, and showed the point plus the adjustment.
///
/// Both `expected - point` and the value are to fit 64 bits, as they do where each of the three
/// lies from -(2^61 + 2^58) to 2^61 + 2^58.
pub fn deviation(expected: Units, point: Units, adjustment: Units) -> Units
    requires difference { FitsSigned w64 (expected.0 -ℤ point.0) }
    requires value { FitsSigned w64 (deviation_of expected.0 point.0 adjustment.0) }
    ensures { result.0 ≡ deviation_of expected.0 point.0 adjustment.0 }
{
    Units(expected.0 - point.0 - adjustment.0)
}

/// The correction of a clock by the deviations that its two channels show: the mean of both,
/// rounded towards minus infinity, or the one that is there. It is None exactly where neither is.
///
/// Each that is there lies strictly between -2^61 and 2^61.
pub fn correction(a: Option<Units>, b: Option<Units>) -> Option<Units>
    requires a_small { IfSome a (λ x. IsSmall x.0) }
    requires b_small { IfSome b (λ y. IsSmall y.0) }
    ensures value { result ≡ correction_of a b }
    ensures none { IsNone result ↔ (IsNone a × IsNone b) }
    ensures floor { IfSome a (λ x. IfSome b (λ y. IfSome result (λ c. IsMean x.0 y.0 c.0))) }
{
    match (a, b) {
        (Some(a), Some(b)) => Some(mean(a, b)),
        (Some(only), None) | (None, Some(only)) => Some(only),
        (None, None) => None,
    }
}
