use crate::judges::networks::master;
use audit_devices::Carried;
use audit_devices::stretches::StretchHistory;
use audit_law::events::EventHistory;
use audit_sweep::records::places::Places;
use audit_sweep::unpaid::emissions::first_unemitted;
use net_plan::{DeviceId, LinkId};
use run_law::plain::Place;
use run_law::{Judgement, NoteBody};
use std::test::Fail;
use tte_units::Units;
use tte_units::frames::Members;

#[test]
fn where_no_frame_came_none_is_owed(rt: HostRuntime) -> Result<(), Fail> {
    let network = master(rt.alloc())?;
    let events = EventHistory::new(rt.alloc(), &network)?;
    let stretches = StretchHistory::new(rt.alloc(), &network)?;
    let places = Places::new(rt.alloc());
    assert!(rt; first_unemitted(&network, &events, &stretches, &places, 1 << 40).is_none());
    Ok(())
}

#[test]
fn a_frame_is_owed_for_a_cluster(rt: HostRuntime) -> Result<(), Fail> {
    let network = master(rt.alloc())?;
    let events = EventHistory::new(rt.alloc(), &network)?;
    let mut stretches = StretchHistory::new(rt.alloc(), &network)?;
    let mut places = Places::new(rt.alloc());
    let body = NoteBody::Permanent {
        device: DeviceId(1),
        link: LinkId(0),
        cause: 1,
        point: Units(5_000_000_000),
        verdict: Judgement::Opened,
    };
    let carried = Carried {
        members: Members(1),
        cycle: 0,
    };
    stretches.push(&network, 5_000_000_000, &body, carried)?;
    places.push(5_000_000_000, Place::of(5_000_000_000, 1, &body))?;
    let owed = [
        first_unemitted(&network, &events, &stretches, &places, 7_162_687_999),
        first_unemitted(&network, &events, &stretches, &places, 1 << 40),
    ];
    assert!(rt; owed == [None, Some(7_162_688_000)]);
    Ok(())
}
