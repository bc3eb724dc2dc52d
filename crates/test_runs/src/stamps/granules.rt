use precision_law::falls::{clocks_do_not_fall_back, corrections_are_small};
use schedule_tables::Accepted;
use std::process::Abort;
use std::test::Fail;
use tte_observers::stamps::granules::{
    Granule, least, stamps_agree, stamps_are_of_locals, stamps_tell_order,
};
use tte_units::Units;
use worked_network::{accepted_of, silent};

// Four times the precision, worked out by hand.
const LEAST: i64 = 4_194_304_000;

// Counts of units, and whether they may be a granule.
const GRANULES: &[(i64, bool)] = &[
    (LEAST - 1, false),
    (LEAST, true),
    (LEAST + 1, true),
    (1 << 60, true),
    (1, false),
    (0, false),
    (-LEAST, false),
];

fn may_be_granule(rt: &impl Abort, accepted: &Accepted, units: i64, wanted: bool) {
    assert!(rt; Granule::new(accepted, Units(units)).is_some() == wanted);
}

#[test]
fn a_granule_is_not_below_the_least(rt: HostRuntime) -> Result<(), Fail> {
    let accepted = accepted_of(rt.alloc(), silent())?;
    assert!(rt; least(&accepted) == Units(LEAST));
    for (units, wanted) in GRANULES {
        may_be_granule(&rt, &accepted, *units, *wanted);
    }
    Ok(())
}

// Local times, and their stamps in the least granule. The quotients are another program's, rounded down.
const FINE: &[(i64, i64)] = &[
    (0, 0),
    (4_194_303_999, 0),
    (4_194_304_000, 1),
    (4_194_513_714, 1),
    (12_583_541_145, 3),
    (-1, -1),
    (-4_194_304_000, -1),
    (-4_194_304_001, -2),
    (i64::MIN, -2_199_023_256),
    (i64::MAX, 2_199_023_255),
];

// The same in the greatest.
const COARSE: &[(i64, i64)] = &[(1 << 60, 1), ((1 << 60) - 1, 0), (-1, -1), (i64::MIN, -8)];

fn stamp_is(rt: &impl Abort, granule: Granule, local: i64, wanted: i64) {
    assert!(rt; granule.stamp(Units(local)) == wanted);
}

fn laws_of_stamps() {
    clocks_do_not_fall_back();
    corrections_are_small();
    stamps_are_of_locals();
    stamps_agree();
    stamps_tell_order();
}

#[test]
fn a_stamp_is_rounded_down(rt: HostRuntime) -> Result<(), Fail> {
    laws_of_stamps();
    let accepted = accepted_of(rt.alloc(), silent())?;
    let fine = Granule::new(&accepted, Units(LEAST)).expect(&rt, "a granule");
    for (local, wanted) in FINE {
        stamp_is(&rt, fine, *local, *wanted);
    }
    let coarse = Granule::new(&accepted, Units(1 << 60)).expect(&rt, "a granule");
    for (local, wanted) in COARSE {
        stamp_is(&rt, coarse, *local, *wanted);
    }
    Ok(())
}
