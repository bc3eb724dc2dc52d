use lens::{Status, lens};
use std::alloc::Global;
use std::process::Abort;
use std::test::Fail;
use tte_io::{MemorySink, OutOfMemory};
use worked_network::{Call, ends_of};

// How a call ended, and what it wrote.
fn answered(alloc: Global, call: &Call<'_>) -> Result<(Status, MemorySink), OutOfMemory> {
    let (words, mut first, mut second, mut out) = ends_of(alloc, call)?;
    let status = lens(alloc, &words, &mut first, &mut second, &mut out);
    Ok((status, out))
}

// A call ended and wrote as it should. Where memory is wanting a front of that was written. It is not where there is
// enough.
fn try_told(rt: &impl Abort, call: &Call<'_>, status: Status, written: &[u8]) -> Result<(), Fail> {
    if status == Status::OutOfMemory {
        assert!(rt; call.text.as_bytes().starts_with(written));
        return Err(Fail::from(OutOfMemory));
    }
    assert!(rt; status == call.status, "for {}", call.text);
    is_written(rt, written, call.text);
    Ok(())
}

fn is_written(rt: &impl Abort, written: &[u8], text: &str) {
    assert!(rt; written == text.as_bytes(), "for {text}");
}

// All that was written was passed on, but where that failed.
fn is_passed_on(rt: &impl Abort, status: Status, out: &MemorySink) {
    assert!(rt; status == Status::WriteFault || out.passed() == out.written());
}

pub(super) fn try_call(rt: &impl Abort, alloc: Global, call: &Call<'_>) -> Result<(), Fail> {
    let (status, out) = answered(alloc, call)?;
    try_told(rt, call, status, out.written())?;
    is_passed_on(rt, status, &out);
    Ok(())
}
