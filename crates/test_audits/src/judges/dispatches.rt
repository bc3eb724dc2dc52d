use crate::judges::networks::sender;
use audit_devices::{Standings, Takings};
use audit_law::events::{EventHistory, reading_law};
use audit_sweep::records::dispatches::Exits;
use audit_sweep::records::places::Places;
use audit_sweep::unpaid::dispatches::RowDebtor;
use std::test::Fail;

#[test]
fn where_no_record_stands_the_first_frame_is_owed(rt: HostRuntime) -> Result<(), Fail> {
    let network = sender(rt.alloc())?;
    let events = EventHistory::new(rt.alloc(), &network)?;
    let exits = Exits::new(rt.alloc(), &network)?;
    let standings = Standings::new(rt.alloc(), &network)?;
    let takings = Takings::new(rt.alloc(), &network)?;
    let places = Places::new(rt.alloc());
    reading_law();
    let debtor = RowDebtor {
        network: &network,
        events: &events,
        exits: &exits,
        standings: &standings,
        takings: &takings,
        places: &places,
        until: 157_614_080_000,
    };
    let before = RowDebtor {
        until: 157_614_079_999,
        ..debtor
    };
    let owed = [debtor.first_undispatched(), before.first_undispatched()];
    assert!(rt; owed == [Some(157_614_080_000), None]);
    Ok(())
}
