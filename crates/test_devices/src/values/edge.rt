use std::cell::Cell;
use std::fmt::Display;
use std::process::Abort;
use std::test::Fail;
use std::{fs, io};
use tte_io::{LazyFile, PathText, Sink, SinkFailed, Source, SourceFailed, StdSink};

#[test]
fn a_missing_file_is_a_fault(rt: HostRuntime) -> Result<(), Fail> {
    let mut file = LazyFile::new(&rt, PathText::new(rt.alloc(), "no/such/file")?);
    for faults in [1, 2] {
        assert!(rt; file.read(&mut [0; 8]) == Err(SourceFailed));
        assert!(rt; file.fault_count() == faults);
    }
    Ok(())
}

#[test]
fn a_file_is_opened_at_its_first_read(rt: HostRuntime) -> Result<(), Fail> {
    let mut file = LazyFile::new(&rt, PathText::new(rt.alloc(), "file")?);
    fs::write(&rt, "file", "abc")?;
    let mut buf = [0; 8];
    assert!(rt; file.read(&mut buf) == Ok(3));
    assert!(rt; &buf[..3] == b"abc".as_slice());
    assert!(rt; file.read(&mut buf) == Ok(0));
    assert!(rt; file.fault_count() == 0);
    Ok(())
}

/// Standard output that takes at most three octets at a time, and in all as many as its room.
#[derive(Drop)]
struct SlowPrint {
    room: Cell<usize>,
}

impl Print for SlowPrint {
    fn print<D: Display + Drop>(&self, _: D) -> io::Result<()> {
        Ok(())
    }

    fn println<D: Display + Drop>(&self, _: D) -> io::Result<()> {
        Ok(())
    }

    fn write_all(&self, _: &[u8]) -> io::Result<()> {
        Ok(())
    }

    fn write_some(&self, bytes: &[u8]) -> io::Result<usize> {
        let room = self.room.get();
        let count = bytes.len().min(3).min(room);
        self.room.set(room - count);
        Ok(count)
    }
}

fn takes(rt: &impl Abort, out: &mut StdSink<'_, SlowPrint>, octets: &[u8]) {
    assert!(rt; out.put(octets) == Ok(()));
}

fn passes_on(rt: &impl Abort, out: &mut StdSink<'_, SlowPrint>) {
    assert!(rt; out.pass_on() == Ok(()));
}

fn fails_to_pass_on(rt: &impl Abort, out: &mut StdSink<'_, SlowPrint>) {
    assert!(rt; out.pass_on() == Err(SinkFailed));
}

fn has_room(rt: &impl Abort, output: &SlowPrint, room: usize) {
    assert!(rt; output.room.get() == room);
}

#[test]
fn standard_output_holds_octets_until_they_are_passed_on(rt: HostRuntime) {
    let output = SlowPrint {
        room: Cell::new(10),
    };
    let mut out = StdSink::new(&output);
    takes(&rt, &mut out, b"seven..");
    has_room(&rt, &output, 10);
    passes_on(&rt, &mut out);
    has_room(&rt, &output, 3);
    passes_on(&rt, &mut out);
    takes(&rt, &mut out, b"");
    takes(&rt, &mut out, b"four");
    assert!(rt; out.fault_count() == 0);
    fails_to_pass_on(&rt, &mut out);
    has_room(&rt, &output, 0);
    assert!(rt; out.fault_count() == 1);
}

#[test]
fn what_was_not_written_stays_held(rt: HostRuntime) {
    let output = SlowPrint { room: Cell::new(2) };
    let mut out = StdSink::new(&output);
    takes(&rt, &mut out, b"seven..");
    fails_to_pass_on(&rt, &mut out);
    output.room.set(10);
    passes_on(&rt, &mut out);
    has_room(&rt, &output, 5);
}

#[test]
fn a_full_standard_output_writes(rt: HostRuntime) {
    let output = SlowPrint {
        room: Cell::new(40_000),
    };
    let mut out = StdSink::new(&output);
    takes(&rt, &mut out, &[b'a'; 16_000]);
    takes(&rt, &mut out, &[b'b'; 384]);
    has_room(&rt, &output, 40_000);
    takes(&rt, &mut out, b"c");
    has_room(&rt, &output, 23_616);
    // What is longer than the room goes straight out, behind what is held.
    takes(&rt, &mut out, &[b'd'; 16_385]);
    has_room(&rt, &output, 7_230);
    assert!(rt; out.put(&[b'e'; 16_385]) == Err(SinkFailed));
    has_room(&rt, &output, 0);
}

#[test]
fn standard_output_takes_text(rt: HostRuntime) {
    let mut out = StdSink::new(&rt);
    assert!(rt; out.put(b"text\n") == Ok(()));
    assert!(rt; out.pass_on() == Ok(()));
}
