//! Calls in which a read or a put fails. What the program answers where nothing fails is tested in `examples/cases`.

use crate::calls::try_call;
use crate::frames::joined;
use std::alloc::Global;
use std::process::Abort;
use std::test::Fail;
use tte_run::Status;
use worked_network::{Call, FRAME, Fails, HEAD, WORKED, call_of_two};

// What fails, what is written before that, and the status.
type Fault = (Fails, &'static str, Status);

// A call over two files, with each of these faults.
fn try_faults<'a>(
    rt: &impl Abort,
    alloc: Global,
    words: &'a [&'a str],
    first: &'a [u8],
    second: &'a [u8],
    faults: &'a [Fault],
) -> Result<(), Fail> {
    for (fails, text, status) in faults {
        let call = call_of_two(words, (first, second), text, *status);
        let fails = *fails;
        try_call(rt, alloc, &Call { fails, ..call })?;
    }
    Ok(())
}

const CHECK: &[&str] = &["check", "net.toml"];

// A check writes its one line at once.
const CHECKED: &[Fault] = &[
    (Fails::Put(1), "", Status::WriteFault),
    (
        Fails::Put(2),
        "accepted beta 3276832 gamma 26214404\n",
        Status::Done,
    ),
];

const REFUSED: &[Fault] = &[
    (Fails::Put(1), "", Status::WriteFault),
    (
        Fails::Put(2),
        "refused network toml\n",
        Status::NetworkRefused,
    ),
];

#[test]
fn a_failed_put_ends_a_check(rt: HostRuntime) -> Result<(), Fail> {
    let alloc = rt.alloc();
    try_faults(&rt, alloc, CHECK, WORKED.as_bytes(), &[], CHECKED)?;
    try_faults(&rt, alloc, CHECK, b"=", &[], REFUSED)
}

#[test]
fn a_failed_read_ends_a_check(rt: HostRuntime) -> Result<(), Fail> {
    for read in 1..=20 {
        let faults = [(Fails::First(read), "", Status::ReadFault)];
        try_faults(&rt, rt.alloc(), CHECK, WORKED.as_bytes(), &[], &faults)?;
    }
    Ok(())
}

const AUDITED: &[Fault] = &[
    (Fails::Second(2), "", Status::ReadFault),
    (Fails::Put(1), "", Status::WriteFault),
];

#[test]
fn a_fault_ends_an_audit(rt: HostRuntime) -> Result<(), Fail> {
    let words = ["audit", "net.toml", "net.report"];
    let network = WORKED.as_bytes();
    try_faults(&rt, rt.alloc(), &words, network, b"x\n", AUDITED)
}

const SHOWN: &[Fault] = &[
    (Fails::First(1), "", Status::ReadFault),
    // In the middle of the file.
    (Fails::First(5), "", Status::ReadFault),
    (Fails::Put(1), "", Status::WriteFault),
    (
        Fails::Put(2),
        "frame 1 IN cycle 7 members 00000001 priority 0 domain 0 clock 0 to 030000000001 from 020000000011\n",
        Status::WriteFault,
    ),
];

#[test]
fn a_fault_ends_a_show(rt: HostRuntime) -> Result<(), Fail> {
    let frames = joined(rt.alloc(), &[&FRAME, &FRAME])?;
    try_faults(&rt, rt.alloc(), &["show", "file"], &frames, &[], SHOWN)
}

// 60 octets at 2,000 microseconds.
const STAMP: [u8; 16] = [
    0x00, 0x00, 0x00, 0x00, 0xd0, 0x07, 0x00, 0x00, 0x3c, 0x00, 0x00, 0x00, 0x3c, 0x00, 0x00, 0x00,
];

const LINE: &str =
    "packet 1 time 0 2000 IN cycle 7 members 00000001 priority 0 domain 0 clock 0 to 030000000001 from 020000000011\n";

// Faults in a capture of two packets, and in one of one.
const CAPTURED: &[Fault] = &[
    (Fails::First(1), "", Status::ReadFault),
    (Fails::First(2), "", Status::ReadFault),
    (Fails::Put(1), "", Status::WriteFault),
    (Fails::Put(2), LINE, Status::WriteFault),
];

const UNPASSED: &[Fault] = &[(Fails::Pass(1), LINE, Status::WriteFault)];

#[test]
fn a_fault_ends_a_capture(rt: HostRuntime) -> Result<(), Fail> {
    let alloc = rt.alloc();
    let words = ["capture", "file"];
    let two = joined(alloc, &[&HEAD, &STAMP, &FRAME, &STAMP, &FRAME])?;
    try_faults(&rt, alloc, &words, &two, &[], CAPTURED)?;
    let one = joined(alloc, &[&HEAD, &STAMP, &FRAME])?;
    try_faults(&rt, alloc, &words, &one, &[], UNPASSED)
}
