use fault_hypothesis::{Outside, Watch};
use net_plan::Event;
use schedule_tables::Accepted;
use std::process::Abort;
use std::test::Fail;
use trace_text::{LineRefusal, line};
use worked_network::{WORKED, accepted_of, edited};

/// An event that is refused behind another, if there is one, and how the next one is judged. That would be judged
/// otherwise if the refused one had been kept.
struct Refused<'a> {
    before: Option<&'a str>,
    refused: &'a str,
    outside: Outside,
    next: &'a str,
    judged: Result<(), Outside>,
}

// The last time of a run is 137438953472000000.
const REFUSED: [Refused<'static>; 6] = [
    Refused {
        before: Some("5 rate m1 0"),
        refused: "6 rate m1 50001",
        outside: Outside::Rate,
        next: "5 rate m1 0",
        judged: Ok(()),
    },
    Refused {
        before: None,
        refused: "137438953472000001 cut m1_a up",
        outside: Outside::Late,
        next: "0 cut m1_b up",
        judged: Ok(()),
    },
    Refused {
        before: Some("0 cut m1_a up"),
        refused: "0 cut m1_b up",
        outside: Outside::Channel,
        next: "0 cut c1_a up",
        judged: Ok(()),
    },
    Refused {
        before: Some("0 break m4"),
        refused: "0 break m3",
        outside: Outside::SecondBreak,
        next: "0 on m4",
        judged: Err(Outside::NotOff),
    },
    Refused {
        before: None,
        refused: "0 break m1",
        outside: Outside::TooFewMasters,
        next: "0 break m4",
        judged: Ok(()),
    },
    Refused {
        before: Some("1 rate m1 0"),
        refused: "0 on m4",
        outside: Outside::Order,
        next: "1 on m4",
        judged: Ok(()),
    },
];

/// The event of a line of a trace.
fn event(accepted: &Accepted, text: &str) -> Result<Event, LineRefusal> {
    line(accepted.network(), text.as_bytes())
}

/// The watch judges the event so, and admits or refuses it so.
fn judges(rt: &impl Abort, watch: &mut Watch<'_>, event: &Event, wanted: Result<(), Outside>) {
    assert!(rt; watch.judge(event) == wanted);
    assert!(rt; watch.admit(event) == wanted);
}

/// The watch refuses the event so, and still has what it had.
fn refuses(rt: &impl Abort, watch: &mut Watch<'_>, event: &Event, outside: Outside) {
    let (broken, faulty) = (watch.broken(), watch.faulty());
    judges(rt, watch, event, Err(outside));
    assert!(rt; watch.broken() == broken && watch.faulty() == faulty);
}

fn try_refused(rt: &impl Abort, accepted: &Accepted, case: &Refused<'_>) -> Result<(), Fail> {
    let mut watch = Watch::new(accepted);
    if let Some(text) = case.before {
        judges(rt, &mut watch, &event(accepted, text)?, Ok(()));
    }
    refuses(
        rt,
        &mut watch,
        &event(accepted, case.refused)?,
        case.outside,
    );
    judges(rt, &mut watch, &event(accepted, case.next)?, case.judged);
    Ok(())
}

#[test]
fn a_refused_event_changes_nothing(rt: HostRuntime) -> Result<(), Fail> {
    let off = edited(rt.alloc(), WORKED, &[("member=3, start=0", "member=3")])?;
    let accepted = accepted_of(rt.alloc(), off.as_str())?;
    for case in &REFUSED {
        try_refused(&rt, &accepted, case)?;
    }
    Ok(())
}
