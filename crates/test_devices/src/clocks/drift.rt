ghost use Rattle.std.specs.Prelude.{◌≤◌, ◌^◌, pos, ◌≤ℤ◌, unsigned_abs};

use drift_clock::{
    Clock, SegmentClock, SteadyClock, clock_laws, segment_law, slip_law, steady_law,
};
use tte_units::{Ppb, Units};

// What a clock with this rate from time 0 on reads after 1,500,000,000 units.
fn reading<C: Clock>(grain: i64, rate: i32) -> i64
    requires some { pos 1 ≤ℤ grain }
    requires fine { grain ≤ℤ pos (2 ^ 20) }
    requires magnitude { unsigned_abs rate ≤ 1000000 }
{
    let mut clock = C::fresh(Units(grain));
    clock.rate(Units(0), Ppb(rate));
    clock.read(Units(1_500_000_000)).0
}

#[test]
fn a_steady_clock_keeps_its_rate(rt: HostRuntime) {
    let read = [
        reading::<SteadyClock>(1, 50_000),
        reading::<SteadyClock>(4096, 50_000),
    ];
    assert!(rt; read == [1_500_000_000, 1_499_996_160]);
    let steady = SteadyClock::fresh(Units(4096));
    assert!(rt; steady.grain() == Units(4096));
    assert!(rt; steady.reach(Units(0), Units(131_072_000_000)) == Units(131_072_000_000));
}

#[test]
fn the_laws_of_clocks_hold(_rt: HostRuntime) {
    clock_laws::<SegmentClock>();
    clock_laws::<SteadyClock>();
    segment_law();
    steady_law();
    slip_law();
}
