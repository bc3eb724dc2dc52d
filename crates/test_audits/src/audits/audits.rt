use net_plan::{LinkId, Way};
use schedule_tables::Accepted;
use std::alloc::Global;
use std::process::Abort;
use std::test::Fail;
use tte_audit::{AuditRefusal, read_events};
use tte_units::Units;
use worked_network::worked;

/// A report, and how many records it has and when it ends, or how it is refused.
type Case = (&'static str, Result<(u64, Units), AuditRefusal>);

fn try_case(
    rt: &impl Abort,
    alloc: Global,
    accepted: &Accepted,
    report: &str,
    wanted: &Result<(u64, Units), AuditRefusal>,
) {
    assert!(rt; report.len() <= 4096);
    let told = match read_events(alloc, accepted, report.as_bytes()) {
        Ok(read) => Ok((read.records, read.end)),
        Err(refusal) => Err(refusal),
    };
    assert!(rt; told == *wanted, "at {report}");
}

// Events within the hypothesis up to an end.
const NOT_REFUSED: &[Case] = &[
    // These lack the records of clocks, which are not judged.
    (
        "1 0 event 1 rate m1 50000\n2 0 event 2 end\n",
        Ok((2, Units(0))),
    ),
    (
        "1 0 event 1 cut m1_a up\n2 0 lost m1 m1_a 9\n3 7 event 2 end\n",
        Ok((3, Units(7))),
    ),
];

#[test]
fn what_the_events_have_set(rt: HostRuntime) -> Result<(), Fail> {
    let report = b"1 3 event 1 cut m1_a up\n2 7 event 2 end\n";
    match read_events(rt.alloc(), &worked(rt.alloc())?, report) {
        Ok(read) => {
            let cut = [
                read.history.is_cut(LinkId(0), Way::Up, 2),
                read.history.is_cut(LinkId(0), Way::Up, 3),
            ];
            assert!(rt; cut == [false, true]);
        }
        Err(refusal) => assert!(rt; refusal == AuditRefusal::OutOfMemory),
    }
    Ok(())
}

#[test]
fn events_are_read_up_to_an_end(rt: HostRuntime) -> Result<(), Fail> {
    let accepted = worked(rt.alloc())?;
    for (report, wanted) in NOT_REFUSED {
        try_case(&rt, rt.alloc(), &accepted, report, wanted);
    }
    Ok(())
}
