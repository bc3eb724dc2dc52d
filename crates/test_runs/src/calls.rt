use std::alloc::Global;
use std::process::Abort;
use std::test::Fail;
use tte_io::{MemorySink, OutOfMemory};
use tte_run::{Status, tte};
use worked_network::{Call, ends_of};

pub(super) fn try_call(rt: &impl Abort, alloc: Global, call: &Call<'_>) -> Result<(), Fail> {
    let (words, mut first, mut second, mut out) = ends_of(alloc, call)?;
    let status = tte(alloc, &words, &mut first, &mut second, &mut out);
    // Where memory is wanting a front of the text was written. It is not where there is enough.
    if status == Status::OutOfMemory {
        assert!(rt; call.text.as_bytes().starts_with(out.written()));
        return Err(Fail::from(OutOfMemory));
    }
    is_told(rt, call, status, &out);
    Ok(())
}

// The call ended as is wanted, and wrote its text.
fn is_told(rt: &impl Abort, call: &Call<'_>, status: Status, out: &MemorySink) {
    assert_eq!(rt; status, call.status, "for {}", call.text);
    assert!(rt; out.written() == call.text.as_bytes(), "for {}", call.text);
    assert!(rt; status == Status::WriteFault || out.passed() == out.written());
}
