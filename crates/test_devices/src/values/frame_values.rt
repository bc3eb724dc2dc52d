use tte_units::frames::Mac;

#[test]
fn an_address_has_six_octets(rt: HostRuntime) {
    assert!(rt; Mac::new(0x0300_0000_0001) == Some(Mac::from_number(0x0300_0000_0001)));
    assert!(rt; Mac::new(0xffff_ffff_ffff).map(Mac::number) == Some(0xffff_ffff_ffff));
    assert!(rt; Mac::new(1 << 48) == None);
}
