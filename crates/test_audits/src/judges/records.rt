use crate::bodies::{accepted, changed};
use crate::judges::networks::master;
use audit_devices::Takings;
use net_plan::{DeviceId, LinkId, VlId};
use run_law::Why;
use run_law::plain::{Place, Rank};
use std::test::Fail;
use sync_state::State;
use tte_units::Units;

const DEVICE: DeviceId = DeviceId(2);

/// The place of the record by which the device is turned on at time 40.
fn turned_on() -> Place {
    Place::of(40, 0, &changed(DEVICE, State::Integrating, 7, Why::On))
}

#[test]
fn places_of_one_time_go_by_kind(rt: HostRuntime) {
    let place = turned_on();
    let told = [
        Place::of_time(40).is_before(&place),
        Place::of_rank(40, Rank::State).is_before(&place),
        place.is_before(&Place::of_rank(40, Rank::Left)),
        place.is_before(&Place::of_time(41)),
    ];
    assert!(rt; told == [true, true, true, true]);
}

#[test]
fn places_of_one_kind_go_by_what_the_record_tells(rt: HostRuntime) {
    let early = Place::of_permanence(40, DEVICE, Units(100), 5, LinkId(9), 3);
    let late = Place::of_permanence(40, DEVICE, Units(101), 1, LinkId(1), 2);
    let told = [
        early.is_before(&late),
        late.is_before(&early),
        late.is_before(&turned_on()),
    ];
    assert!(rt; told == [true, false, true]);
}

#[test]
fn the_last_frame_taken_is_found(rt: HostRuntime) -> Result<(), Fail> {
    let network = master(rt.alloc())?;
    assert!(rt; network.device.as_slice().len() == 2);
    let mut takings = Takings::new(rt.alloc(), &network)?;
    let (device, link) = (DeviceId(1), LinkId(2));
    takings.push(rt.alloc(), 40, 8, &accepted(device, link, 7, VlId(5), 1))?;
    takings.push(rt.alloc(), 90, 8, &accepted(device, link, 7, VlId(5), 2))?;
    let last = [
        takings.last_taken(device, 90, link, 8, VlId(5)),
        takings.last_taken(device, 90, link, 7, VlId(5)),
        takings.last_taken(device, 90, link, 8, VlId(4)),
    ];
    assert!(rt; last == [Some(2), Some(1), None]);
    Ok(())
}
