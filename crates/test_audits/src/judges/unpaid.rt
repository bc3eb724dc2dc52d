use crate::bodies::{lost, sent};
use crate::judges::networks::master;
use audit_devices::Standings;
use audit_law::events::EventHistory;
use audit_sweep::records::KeptRecords;
use audit_sweep::records::places::Places;
use audit_sweep::unpaid::{Debtor, Paid, Payments};
use net_plan::{DeviceId, LinkId};
use std::test::Fail;

#[test]
fn a_record_pays_what_its_cause_brings(rt: HostRuntime) -> Result<(), Fail> {
    let mut payments = Payments::new(rt.alloc());
    let (device, link) = (DeviceId(0), LinkId(0));
    payments.push(&sent(device, 0))?;
    payments.push(&lost(device, link, 1))?;
    payments.push(&lost(device, link, 3))?;
    let loss = Paid {
        loss: true,
        ..Paid::nothing()
    };
    assert!(rt; [payments.of(1), payments.of(3)] == [loss, Paid::nothing()]);
    Ok(())
}

#[test]
fn where_no_record_stands_the_clocks_are_owed(rt: HostRuntime) -> Result<(), Fail> {
    let network = master(rt.alloc())?;
    let history = EventHistory::new(rt.alloc(), &network)?;
    let standings = Standings::new(rt.alloc(), &network)?;
    let records = KeptRecords::new(rt.alloc());
    let places = Places::new(rt.alloc());
    let payments = Payments::new(rt.alloc());
    let debtor = Debtor {
        network: &network,
        history: &history,
        records: &records,
        standings: &standings,
        places: &places,
        payments: &payments,
        until: 7,
    };
    let clocks = [debtor.first_unpaid_clock(7), debtor.first_unpaid_clock(8)];
    assert!(rt; clocks == [Some(7), None]);
    assert!(rt; debtor.first_unpaid() == None);
    Ok(())
}
