use tte_units::{Speed, Units, mean, octets, slip};

#[test]
fn means_round_down(rt: HostRuntime) {
    let means = [
        mean(Units(-3), Units(0)),
        mean(Units(3), Units(0)),
        mean(Units(-4), Units(2)),
    ];
    assert!(rt; means == [Units(-2), Units(1), Units(-1)]);
}

#[test]
fn two_cycles_at_fifty_ppm_slip_by_gamma(rt: HostRuntime) {
    assert!(rt; slip(50_000, Units(262_144_000_000)) == Units(26_214_404));
}

#[test]
fn an_octet_takes_eighty_or_eight_nanoseconds(rt: HostRuntime) {
    let times = [octets(Speed::Mbit100, 1), octets(Speed::Gbit1, 84)];
    assert!(rt; times == [Units(80 * 65_536), Units(84 * 8 * 65_536)]);
}
