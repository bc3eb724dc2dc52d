use sync_state::correction::{correction, deviation};
use tte_units::Units;

#[test]
fn a_clock_that_shows_less_than_expected_is_behind(rt: HostRuntime) {
    let found = [
        deviation(Units(1000), Units(700), Units(250)),
        deviation(Units(-3), Units(4), Units(-5)),
    ];
    assert!(rt; found == [Units(50), Units(-2)]);
}

#[test]
fn the_correction_is_the_mean_or_the_one_value(rt: HostRuntime) {
    let found = [
        correction(Some(Units(-3)), Some(Units(0))),
        correction(Some(Units(-3)), None),
        correction(None, Some(Units(7))),
        correction(None, None),
    ];
    assert!(rt; found == [Some(Units(-2)), Some(Units(-3)), Some(Units(7)), None]);
}
