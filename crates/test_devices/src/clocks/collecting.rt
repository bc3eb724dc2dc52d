use compression::Points;
use tte_units::Units;

#[test]
fn points_rise_and_are_at_most_eight(rt: HostRuntime) {
    let mut points = Points::new();
    assert!(rt; points.push(Units(3)));
    assert!(rt; !points.push(Units(2)));
    assert!(rt; points.push(Units(3)));
    for _ in 0..6 {
        assert!(rt; points.push(Units(4)));
    }
    assert!(rt; !points.push(Units(5)));
}
