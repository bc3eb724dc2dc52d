//! Calls in which a read or a put fails. What the programs answer where nothing fails is tested in `examples/cases`.

use crate::calls::try_call;
use lens::Status;
use std::test::Fail;
use worked_network::{CALM, Call, Fails, WORKED, call_of_two};

// The words of a call over the worked network and the report of its first cycle, what fails, what is written, and the
// status.
type Fault = (&'static [&'static str], Fails, &'static str, Status);

const SLACK: &[&str] = &["slack", "net.toml"];

const LEAST: &[&str] = &["least", "net.toml"];

const LATENCY: &[&str] = &["latency", "net.toml", "net.report"];

const WHY: &[&str] = &["why", "net.toml", "net.report", "71"];

const FLOWS: &[&str] = &["flows", "net.toml", "net.report"];

const EVENTS: &[&str] = &["events", "net.toml", "42", "1"];

const WHOLE: &[&str] = &["draw", "net.toml", "net.report"];

const DRAW: &[&str] = &[
    "draw",
    "net.toml",
    "net.report",
    "0",
    "18446744073709551615",
];

// The first two lines of what each rule leaves.
const TWO_RULES: &str = "rule 8 at index 0 m1 a has 3276800000 wants 2692874272 room 583925728
rule 9 at index 0 settled has 345000000 wants 340787544 room 4212456
";

// The first two lines of the chain of record 71.
const TWO_OF_CHAIN: &str = "71 139788288000 permanent m1 m1_a 61 point 139788288000 within
ground point 139788288000 adj 0 expected 139788288000 off 0 precision 1048576000
";

// The first two events of the storm.
const TWO_EVENTS: &str = "16384000000 rate m1 0\n32768000000 heal m4_b down\n";

// The first line of the picture of the whole run.
const OPENING: &str =
    "<svg xmlns=\"http://www.w3.org/2000/svg\" xmlns:xlink=\"http://www.w3.org/1999/xlink\" width=\"960\" \
        height=\"299\" viewBox=\"0 0 960 299\">
";

const FAULTS: &[Fault] = &[
    (SLACK, Fails::First(1), "", Status::ReadFault),
    (SLACK, Fails::Put(3), TWO_RULES, Status::WriteFault),
    (LEAST, Fails::First(1), "", Status::ReadFault),
    (LEAST, Fails::Put(1), "", Status::WriteFault),
    (LATENCY, Fails::Second(1), "", Status::ReadFault),
    (WHY, Fails::Second(1), "", Status::ReadFault),
    (WHY, Fails::Put(1), "", Status::WriteFault),
    (WHY, Fails::Put(3), TWO_OF_CHAIN, Status::WriteFault),
    (FLOWS, Fails::Second(1), "", Status::ReadFault),
    (FLOWS, Fails::Put(1), "", Status::WriteFault),
    (EVENTS, Fails::First(1), "", Status::ReadFault),
    (EVENTS, Fails::First(5), "", Status::ReadFault),
    (EVENTS, Fails::Put(1), "", Status::WriteFault),
    (EVENTS, Fails::Put(3), TWO_EVENTS, Status::WriteFault),
    (WHOLE, Fails::Put(1), "", Status::WriteFault),
    (WHOLE, Fails::Put(2), OPENING, Status::WriteFault),
    (DRAW, Fails::Put(1), "", Status::WriteFault),
];

#[test]
fn a_fault_ends_a_call(rt: HostRuntime) -> Result<(), Fail> {
    for (words, fails, text, status) in FAULTS {
        let files = (WORKED.as_bytes(), CALM.as_bytes());
        let call = call_of_two(words, files, text, *status);
        let fails = *fails;
        try_call(&rt, rt.alloc(), &Call { fails, ..call })?;
    }
    Ok(())
}
