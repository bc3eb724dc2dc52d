use crate::judges::networks::master;
use audit_devices::Shown;
use audit_devices::clocks::{
    DeviceMoment, MasterSending, Point, coming_cycle, coming_point, next_sending, reaches, sends,
};
use audit_law::events::EventHistory;
use device_rules::PointVerdict;
use net_plan::DeviceId;
use std::test::Fail;
use sync_state::membership::Heard;

#[test]
fn a_lone_master_sends_and_then_loses_the_time(rt: HostRuntime) -> Result<(), Fail> {
    let network = master(rt.alloc())?;
    let events = EventHistory::new(rt.alloc(), &network)?;
    let device = DeviceId(0);
    let shown = Shown::new(&network, device);
    let sending = MasterSending {
        cycle: 1,
        time: 131_072_000_000,
    };
    assert!(rt; next_sending(&network, &events, device, &shown, 0, 1 << 40) == Some(sending));
    let moment = DeviceMoment::of(&events, device, sending.time);
    let told = [
        reaches(&shown, moment.readings, 131_072_000_000),
        sends(&network, device, &shown, moment, 1),
        sends(&network, device, &shown, moment, 2),
    ];
    assert!(rt; told == [true, true, false]);
    let later = DeviceMoment::of(&events, device, 149_422_080_000);
    let cycles = [
        coming_cycle(&network, &shown, moment),
        coming_cycle(&network, &shown, later),
    ];
    assert!(rt; cycles == [None, Some(1)]);
    let alone = Point {
        cycle: 1,
        verdict: PointVerdict::SyncClique,
    };
    assert!(rt; coming_point(&network, device, &shown, later, &Heard::new()) == Some(alone));
    Ok(())
}
