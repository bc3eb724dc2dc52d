use run_law::{
    broken_are_still, deliveries_begin, earlier_run_is_front, hypothesis_is_decided, run_goes_on,
    run_is_one, sent_frames_come, spread,
};
use tte_units::Units;

#[test]
fn the_laws_hold(_rt: HostRuntime) {
    run_is_one();
    earlier_run_is_front();
    run_goes_on();
    sent_frames_come();
    broken_are_still();
    deliveries_begin();
    hypothesis_is_decided();
}

#[test]
fn the_spread_is_from_the_least_to_the_greatest(rt: HostRuntime) {
    assert!(rt; spread(&[]) == Units(0));
    assert!(rt; spread(&[Units(-7)]) == Units(0));
    assert!(rt; spread(&[Units(150), Units(-50), Units(100)]) == Units(200));
    assert!(rt; spread(&[Units(-50), Units(100), Units(150)]) == Units(200));
}
