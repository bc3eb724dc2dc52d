use drift_clock::transparent::{arrive, leave, path_law, permanence, waiting_law};
use tte_units::Units;

const DMAX: Units = Units(3_276_800_000);

#[test]
fn a_clock_grows_up_to_dmax(rt: HostRuntime) {
    path_law();
    let left = [
        leave(0, Units(1_000_050_000), DMAX),
        leave(3_276_800_000, Units(0), DMAX),
        leave(3_276_800_000, Units(1), DMAX),
    ];
    assert!(rt; left == [Some(1_000_050_000), Some(3_276_800_000), None]);
    let arrived = [
        arrive(1_000_050_000, Units(32_768_000), DMAX),
        arrive(18_446_744_073_709_551_615, Units(1), DMAX),
    ];
    assert!(rt; arrived == [Some(1_032_818_000), None]);
}

#[test]
fn the_oldest_frame_is_permanent_at_arrival(rt: HostRuntime) {
    waiting_law();
    assert!(rt; permanence(Units(100), 3_276_800_000, DMAX) == Units(100));
}
