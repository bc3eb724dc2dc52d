//! Lines of records that no run has: the record is read from its line, and is written so again. `examples/cases` has
//! those of runs, which the audit reads as they were written.

ghost use Rattle.report_text.specs.Ranges.{IsNoteOf};
ghost use Rattle.std.specs.Prelude.{IfSome};

use crate::bodies::{changed, clock, compressed, delivered, dropped, event, permanent};
use net_plan::{DeviceId, LinkId, VlId, What};
use report_text::{write, write_in};
use run_law::Why::{AsyncClique, On};
use run_law::plain::no_record;
use run_law::{Judgement, Note, NoteBody, Reason};
use schedule_tables::Accepted;
use std::alloc::{AllocError, Global};
use std::process::Abort;
use std::test::Fail;
use sync_state::State::{Integrating, Off};
use tte_audit::{named_network, read_note};
use tte_io::{LineText, MemorySink, SinkFailed};
use worked_network::worked;

const M4: DeviceId = DeviceId(3);

const C1: DeviceId = DeviceId(4);

const RA: DeviceId = DeviceId(5);

const CA: DeviceId = DeviceId(6);

const CB: DeviceId = DeviceId(8);

const M4_A: LinkId = LinkId(3);

const RA_CA: LinkId = LinkId(5);

const C1_B: LinkId = LinkId(10);

const V1: VlId = VlId(0);

// Do the number and the time of the record stand first in the text?
fn begins(alloc: Global, text: &str, note: &Note) -> Result<bool, AllocError> {
    let front = format!(in alloc; "{} {} ", note.number, note.time.0)?;
    Ok(text.starts_with(front.as_str()))
}

// Is the text what is written for the record, in one put?
fn is_written(alloc: Global, network: &Accepted, text: &str, note: &Note) -> Result<bool, Fail>
    requires { IsNoteOf network.now note.now }
{
    let mut sink = MemorySink::new(alloc, 4096, &[2])?;
    let put = write(network.network(), note, &mut sink);
    Ok(put == Ok(()) && sink.written().strip_suffix(b"\n") == Some(text.as_bytes()))
}

// Has the record this body? Does the text begin as the record does, and is it what is written for it?
fn is_line_of(
    alloc: Global,
    network: &Accepted,
    text: &str,
    note: &Note,
    body: &NoteBody,
) -> Result<bool, Fail>
    requires { IsNoteOf network.now note.now }
{
    Ok(note.body == *body && begins(alloc, text, note)? && is_written(alloc, network, text, note)?)
}

// The record whose line the text is.
fn note_of(network: &Accepted, text: &[u8]) -> Option<Note>
    ensures { IfSome result (λ note. IsNoteOf network.now note) }
{
    let mut note = no_record();
    read_note(named_network(network), None, text, &mut note)?;
    Some(note)
}

// Is the text the line of a record of this body, whose number and time stand before it? It is read so, and what is read
// is written so, in one put.
fn is_line(alloc: Global, network: &Accepted, text: &str, body: &NoteBody) -> Result<bool, Fail> {
    match note_of(network, text.as_bytes()) {
        Some(read) => is_line_of(alloc, network, text, &read, body),
        None => Ok(false),
    }
}

fn try_line(
    rt: &impl Abort,
    alloc: Global,
    network: &Accepted,
    text: &str,
    body: &NoteBody,
) -> Result<(), Fail> {
    let told = is_line(alloc, network, text, body)?;
    assert!(rt; told, "at {text}");
    Ok(())
}

// Numbers at their ends, and states and words that no device within the hypothesis comes to.
fn rare() -> [(&'static str, NoteBody); 8] {
    [
        (
            "170 149422080000 state m4 integrating 0 async_clique",
            changed(M4, Integrating, 0, AsyncClique),
        ),
        ("170 0 state m4 off 1 on", changed(M4, Off, 1, On)),
        (
            "18446744073709551615 9223372036854775807 clock cb reading -9223372036854775808 adj 1 state off",
            clock(CB, i64::MIN, 1, Off),
        ),
        (
            "2 0 compressed cb opened -1 at 0 cycle 0 members 89abcdef outside",
            compressed(CB, -1, 0, 0, 0x89ab_cdef, Judgement::Outside),
        ),
        (
            "136 134348800000 permanent ca ra_ca 128 point -1 ignored",
            permanent(CA, RA_CA, 128, -1, Judgement::Ignored),
        ),
        (
            "2 0 delivered c1 c1_b 1 vl v1 cycle 4294967295",
            delivered(C1, C1_B, 1, V1, 4_294_967_295),
        ),
        (
            "3 158087249920 dropped ra m4_a 2 refused reserved 59",
            dropped(RA, M4_A, 2, Reason::RefusedReserved(59)),
        ),
        ("9 1152921504606846976 event 9 end", event(9, What::End)),
    ]
}

fn try_cases(
    rt: &impl Abort,
    alloc: Global,
    network: &Accepted,
    cases: &[(&str, NoteBody)],
) -> Result<(), Fail> {
    for (text, body) in cases {
        try_line(rt, alloc, network, text, body)?;
    }
    Ok(())
}

#[test]
fn rare_records_have_their_lines(rt: HostRuntime) -> Result<(), Fail> {
    try_cases(&rt, rt.alloc(), &worked(rt.alloc())?, &rare())
}

#[test]
fn a_failed_put_is_told(rt: HostRuntime) -> Result<(), Fail> {
    let alloc = rt.alloc();
    let network = worked(alloc)?;
    let line = b"1 0 lost m1 m1_b 18446744073709551615\n".as_slice();
    let lost = note_of(&network, &line[..37]).ok_or("no record")?;
    let mut sink = MemorySink::new(alloc, 4096, &[2])?;
    let mut text = LineText::new();
    let put = [
        write_in(&mut text, network.network(), &lost, &mut sink),
        write_in(&mut text, network.network(), &lost, &mut sink),
    ];
    assert!(rt; put == [Ok(()), Err(SinkFailed)]);
    assert!(rt; sink.written() == line);
    Ok(())
}
