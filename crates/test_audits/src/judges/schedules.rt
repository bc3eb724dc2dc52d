use crate::judges::networks::sender;
use audit_devices::{Shown, Takings};
use audit_law::events::EventHistory;
use audit_sweep::records::dispatches::{
    At, Dispatch, Exits, Loss, loses_dispatch, sends_some, sends_timed,
};
use net_plan::{DeviceId, LinkId, VlId};
use std::test::Fail;

#[test]
fn a_sender_dispatches_its_frame(rt: HostRuntime) -> Result<(), Fail> {
    let network = sender(rt.alloc())?;
    assert!(rt; !network.device.as_slice().is_empty());
    let events = EventHistory::new(rt.alloc(), &network)?;
    let exits = Exits::new(rt.alloc(), &network)?;
    let takings = Takings::new(rt.alloc(), &network)?;
    let device = DeviceId(0);
    let shown = Shown::new(&network, device);
    let at = At {
        device,
        time: 157_614_080_000,
    };
    let dispatch = Dispatch {
        link: LinkId(0),
        cause: 0,
        vl: VlId(0),
        cycle: 1,
    };
    let other = Dispatch {
        cycle: 2,
        ..dispatch
    };
    let loss = Loss {
        link: LinkId(0),
        cause: 0,
        kept: None,
    };
    let (link, time) = (LinkId(0), at.time);
    let told = [
        sends_timed(&network, &events, &exits, &takings, &shown, at, &dispatch),
        sends_timed(&network, &events, &exits, &takings, &shown, at, &other),
        sends_some(&network, &events, &exits, device, &shown, link, time),
        loses_dispatch(&network, &events, &exits, &takings, &shown, at, &loss),
    ];
    assert!(rt; told == [true, false, true, false]);
    Ok(())
}
