ghost use Rattle.std.specs.Prelude.{◌≡◌, ◌+◌, ◌↔◌, pos, ◌+ℤ◌, ◌≤ℤ◌, ◌<ℤ◌, unsigned_abs, IsNone, IfSome};

use tte_units::Units;

/// The transparent clock of a frame that leaves a device: the clock with which the frame came, and
/// the hold as the device measured it, which is not negative.
///
/// It is None exactly where the sum exceeds `dmax`: the frame is too old.
pub fn leave(clock: u64, measured: Units, dmax: Units) -> Option<u64>
    requires { pos 0 ≤ℤ measured.0 }
    ensures old { IsNone result ↔ (dmax.0 <ℤ (pos clock +ℤ measured.0)) }
    ensures sum { IfSome result (λ grown. grown ≡ clock + unsigned_abs measured.0) }
    ensures young { IfSome result (λ grown. pos grown ≤ℤ dmax.0) }
{
    grown(clock, measured, dmax)
}

/// The transparent clock of a frame that arrives at a device: the clock with which it left, and the
/// nominal delay of the wire, which is not negative.
///
/// It is None exactly where the sum exceeds `dmax`: the frame is too old.
pub fn arrive(clock: u64, wire: Units, dmax: Units) -> Option<u64>
    requires { pos 0 ≤ℤ wire.0 }
    ensures old { IsNone result ↔ (dmax.0 <ℤ (pos clock +ℤ wire.0)) }
    ensures sum { IfSome result (λ grown. grown ≡ clock + unsigned_abs wire.0) }
    ensures young { IfSome result (λ grown. pos grown ≤ℤ dmax.0) }
{
    grown(clock, wire, dmax)
}

// The clock grown by a time, unless it exceeds `dmax`.
fn grown(clock: u64, by: Units, dmax: Units) -> Option<u64>
    requires { pos 0 ≤ℤ by.0 }
    ensures old { IsNone result ↔ (dmax.0 <ℤ (pos clock +ℤ by.0)) }
    ensures sum { IfSome result (λ grown. grown ≡ clock + unsigned_abs by.0) }
    ensures young { IfSome result (λ grown. pos grown ≤ℤ dmax.0) }
{
    let sum = i128::from(clock) + i128::from(by.0);
    if sum <= i128::from(dmax.0) {
        Some(sum as u64)
    } else {
        None
    }
}
