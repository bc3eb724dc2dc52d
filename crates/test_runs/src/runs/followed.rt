//! Commands that follow a run, where a read of the trace fails. A read gives 17 octets.

use crate::calls::try_call;
use std::test::Fail;
use tte_run::Status;
use worked_network::{Call, Edit, Fails, WORKED, call_of_two, edited, silent};

// The virtual link of m1, and beside it one of m2 and one of m3, and the rows of the other two.
const THREE: &[Edit<'_>] = &[(
    "]\nrow = [\n",
    " {name=\"v2\", id=2, length=60, ethertype=2048, sender=\"m2\", period=1, phase=0},
 {name=\"v3\", id=3, length=60, ethertype=2048, sender=\"m3\", period=1, phase=0},
]
row = [
 {vl=\"v2\", link=\"m2_a\", way=\"up\", offset=26542080000},
 {vl=\"v2\", link=\"m2_b\", way=\"up\", offset=26542080000},
 {vl=\"v2\", link=\"c1_a\", way=\"down\", offset=28835840000},
 {vl=\"v2\", link=\"c1_b\", way=\"down\", offset=28835840000},
 {vl=\"v3\", link=\"m3_a\", way=\"up\", offset=26542080000},
 {vl=\"v3\", link=\"m3_b\", way=\"up\", offset=26542080000},
 {vl=\"v3\", link=\"c1_a\", way=\"down\", offset=29491200000},
 {vl=\"v3\", link=\"c1_b\", way=\"down\", offset=29491200000},
",
)];

// The third read of the trace fails, which is behind its first line.
#[test]
fn a_failed_read_puts_no_vote(rt: HostRuntime) -> Result<(), Fail> {
    let alloc = rt.alloc();
    let network = edited(alloc, WORKED, THREE)?;
    let words = ["vote", "net.toml", "net.trace", "v1", "v2", "v3"];
    let trace = "300000000000 heal m1_a up\n393215999999 end\n";
    let files = (network.as_bytes(), trace.as_bytes());
    let vote = call_of_two(&words, files, "", Status::ReadFault);
    let fails = Fails::Second(3);
    try_call(&rt, alloc, &Call { fails, ..vote })
}

// The stamps of one line at time 0.
const STAMPS: &str = "stamp 1 m1 0
stamp 1 m2 0
stamp 1 m3 0
stamp 1 m4 0
stamp 1 c1 0
stamp 1 ra 0
stamp 1 ca 0
stamp 1 rb 0
stamp 1 cb 0
";

// It is told where the lines that had come are stamped.
#[test]
fn a_failed_read_stands_behind_the_stamps(rt: HostRuntime) -> Result<(), Fail> {
    let words = ["stamp", "net.toml", "net.trace", "4194304000"];
    let trace = "0 heal m1_a up\n4194304000 end\n";
    let files = (silent().as_bytes(), trace.as_bytes());
    let stamp = call_of_two(&words, files, STAMPS, Status::ReadFault);
    let fails = Fails::Second(2);
    try_call(&rt, rt.alloc(), &Call { fails, ..stamp })
}
