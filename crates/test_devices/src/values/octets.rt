use std::alloc::Global;
use std::process::Abort;
use std::test::Fail;
use tte_io::{
    LineReader, LineTaken, MemorySink, MemorySource, ReadAll, Sink, SinkFailed, Source,
    SourceFailed, SteadySource, read_all,
};

/// Reads at most four octets, and answers whether they are these.
fn read(source: &mut MemorySource, octets: &[u8]) -> Result<bool, SourceFailed> {
    let mut buf = [0; 4];
    let count = source.read(&mut buf)?;
    Ok(&buf[..count] == octets)
}

fn gives(rt: &impl Abort, source: &mut MemorySource, octets: &[u8]) {
    assert!(rt; read(source, octets) == Ok(true));
}

fn fails(rt: &impl Abort, source: &mut MemorySource) {
    assert!(rt; source.read(&mut [0; 4]) == Err(SourceFailed));
}

fn takes(rt: &impl Abort, sink: &mut MemorySink, octets: &[u8]) {
    assert!(rt; sink.put(octets) == Ok(()));
}

fn refuses(rt: &impl Abort, sink: &mut MemorySink, octets: &[u8]) {
    assert!(rt; sink.put(octets) == Err(SinkFailed));
}

fn passes(rt: &impl Abort, sink: &mut MemorySink) {
    assert!(rt; sink.pass_on() == Ok(()));
}

fn has_passed(rt: &impl Abort, sink: &MemorySink, octets: &[u8]) {
    assert!(rt; sink.passed() == octets);
}

#[test]
fn a_memory_source_gives_pieces(rt: HostRuntime) -> Result<(), Fail> {
    let mut source = MemorySource::new(rt.alloc(), b"abcdefghij", 3, &[2, 5])?;
    gives(&rt, &mut source, b"abc");
    fails(&rt, &mut source);
    gives(&rt, &mut source, b"def");
    assert!(rt; source.read(&mut [0; 2]) == Ok(2));
    fails(&rt, &mut source);
    gives(&rt, &mut source, b"ij");
    gives(&rt, &mut source, b"");
    Ok(())
}

#[test]
fn a_memory_sink_has_its_room(rt: HostRuntime) -> Result<(), Fail> {
    let mut sink = MemorySink::new(rt.alloc(), 5, &[2])?;
    takes(&rt, &mut sink, b"abc");
    refuses(&rt, &mut sink, b"d");
    refuses(&rt, &mut sink, b"def");
    takes(&rt, &mut sink, b"de");
    refuses(&rt, &mut sink, b"f");
    takes(&rt, &mut sink, b"");
    assert!(rt; sink.written() == b"abcde".as_slice());
    Ok(())
}

#[test]
fn a_memory_sink_holds_octets_until_they_are_passed_on(rt: HostRuntime) -> Result<(), Fail> {
    let mut sink = MemorySink::with_failing_passes(rt.alloc(), 8, &[], &[2])?;
    takes(&rt, &mut sink, b"abc");
    has_passed(&rt, &sink, b"");
    passes(&rt, &mut sink);
    takes(&rt, &mut sink, b"de");
    assert!(rt; sink.pass_on() == Err(SinkFailed));
    has_passed(&rt, &sink, b"abc");
    passes(&rt, &mut sink);
    has_passed(&rt, &sink, b"abcde");
    Ok(())
}

/// A source of 5000 octets is read whole up to this limit.
fn is_read_whole(rt: &impl Abort, alloc: Global, limit: u64) -> Result<(), Fail> {
    let whole = [7; 5000];
    let mut source = SteadySource::new(alloc, &whole)?;
    let octets = read_all(alloc, &mut source, limit)?;
    assert!(rt; octets.as_slice() == whole.as_slice(), "at {limit}");
    Ok(())
}

/// A source of 5000 octets is too long for this limit.
fn is_too_long(rt: &impl Abort, alloc: Global, limit: u64) -> Result<(), Fail> {
    let mut source = SteadySource::new(alloc, &[7; 5000])?;
    let refused = read_all(alloc, &mut source, limit).err();
    assert!(rt; refused == Some(ReadAll::TooLong), "at {limit}");
    Ok(())
}

#[test]
fn a_source_is_read_up_to_its_limit(rt: HostRuntime) -> Result<(), Fail> {
    for limit in [5000, 5001, u64::MAX] {
        is_read_whole(&rt, rt.alloc(), limit)?;
    }
    for limit in [0, 4096, 4999] {
        is_too_long(&rt, rt.alloc(), limit)?;
    }
    Ok(())
}

#[test]
fn a_source_that_fails_is_a_fault(rt: HostRuntime) -> Result<(), Fail> {
    let mut failing = MemorySource::new(rt.alloc(), &[7; 5000], 4096, &[2])?;
    assert!(rt; read_all(rt.alloc(), &mut failing, 5000).err() == Some(ReadAll::Fault));
    Ok(())
}

#[test]
fn a_source_of_nothing_is_read_whole(rt: HostRuntime) -> Result<(), Fail> {
    let mut nothing = SteadySource::new(rt.alloc(), b"")?;
    assert!(rt; read_all(rt.alloc(), &mut nothing, 0)?.as_slice() == b"".as_slice());
    Ok(())
}

fn expect_line<S: Source>(rt: &impl Abort, reader: &mut LineReader, source: &mut S, text: &[u8]) {
    match reader.next_line(source) {
        Ok(LineTaken::Whole) => assert!(rt; reader.text() == text),
        _ => panic!(rt; "no line"),
    }
}

/// What is told in the place of a next line.
fn expect_next<S: Source>(
    rt: &impl Abort,
    reader: &mut LineReader,
    source: &mut S,
    next: Result<LineTaken, SourceFailed>,
) {
    assert!(rt; reader.next_line(source) == next);
}

fn expect_ahead(rt: &impl Abort, reader: &mut LineReader, ahead: Option<LineTaken>) {
    assert!(rt; reader.line_ahead() == ahead);
}

#[test]
fn lines_go_on_after_a_failed_read(rt: HostRuntime) -> Result<(), Fail> {
    let mut source = MemorySource::new(rt.alloc(), b"first\n\nthird\nlast", 8, &[2])?;
    let mut reader = LineReader::new();
    expect_line(&rt, &mut reader, &mut source, b"first");
    expect_line(&rt, &mut reader, &mut source, b"");
    expect_next(&rt, &mut reader, &mut source, Err(SourceFailed));
    expect_line(&rt, &mut reader, &mut source, b"third");
    expect_line(&rt, &mut reader, &mut source, b"last");
    expect_next(&rt, &mut reader, &mut source, Ok(LineTaken::End));
    Ok(())
}

#[test]
fn a_whole_line_ahead_is_taken_without_a_read(rt: HostRuntime) -> Result<(), Fail> {
    let mut source = MemorySource::new(rt.alloc(), b"first\n\nthird\n", 8, &[2])?;
    let mut reader = LineReader::new();
    expect_ahead(&rt, &mut reader, None);
    expect_line(&rt, &mut reader, &mut source, b"first");
    expect_ahead(&rt, &mut reader, Some(LineTaken::Whole));
    expect_ahead(&rt, &mut reader, None);
    expect_next(&rt, &mut reader, &mut source, Err(SourceFailed));
    expect_ahead(&rt, &mut reader, None);
    expect_line(&rt, &mut reader, &mut source, b"third");
    Ok(())
}

/// The text has the lines `first` and `last`, and nothing is read behind them.
fn has_two_lines(rt: &impl Abort, source: &mut MemorySource) {
    let mut reader = LineReader::new();
    expect_line(rt, &mut reader, source, b"first");
    expect_line(rt, &mut reader, source, b"last");
    expect_next(rt, &mut reader, source, Ok(LineTaken::End));
    expect_next(rt, &mut reader, source, Ok(LineTaken::End));
    expect_ahead(rt, &mut reader, Some(LineTaken::End));
    assert!(rt; source.read(&mut [0; 2]) == Err(SourceFailed));
}

#[test]
fn nothing_is_read_behind_the_end(rt: HostRuntime) -> Result<(), Fail> {
    for text in [b"first\nlast".as_slice(), b"first\nlast\n"] {
        let mut source = MemorySource::new(rt.alloc(), text, 16, &[3])?;
        has_two_lines(&rt, &mut source);
    }
    Ok(())
}

#[test]
fn a_line_has_at_most_4096_octets(rt: HostRuntime) -> Result<(), Fail> {
    let line = [b'a'; 4096];
    let mut reader = LineReader::new();
    let mut fits = SteadySource::new(rt.alloc(), &line)?;
    expect_line(&rt, &mut reader, &mut fits, &line);
    expect_next(&rt, &mut reader, &mut fits, Ok(LineTaken::End));
    Ok(())
}

#[test]
fn a_line_of_4097_octets_stays_long(rt: HostRuntime) -> Result<(), Fail> {
    let mut reader = LineReader::new();
    let mut pieces = MemorySource::new(rt.alloc(), &[b'a'; 4097], 1000, &[5])?;
    expect_next(&rt, &mut reader, &mut pieces, Err(SourceFailed));
    expect_next(&rt, &mut reader, &mut pieces, Ok(LineTaken::Long));
    expect_next(&rt, &mut reader, &mut pieces, Ok(LineTaken::Long));
    Ok(())
}
