ghost use Rattle.std.specs.Prelude.{◌≡◌};
ghost use Rattle.tte_forms.specs.{Answering.{Ends, Gives, line_answer}, Faults.{IsWanted, PutFailed}, Putting.Over};

use crate::Status;
use tte_io::Sink;

/// Writes the last line and passes it on, and answers the status if that went well, or that writing failed.
pub fn put_last<K: Sink>(line: &[u8], status: Status, out: &mut K) -> Status
    ensures gives { Over K.Sink out.old out.new (Gives (line_answer status line.now) result) }
    ensures status { IsWanted status result (PutFailed K.Sink out.old out.new) }
{
    match out.put(line) {
        Ok(()) => end_with(status, out),
        Err(_) => Status::WriteFault,
    }
}

/// Passes on what was written, and answers the status if that went well, or that writing failed.
pub fn end_with<K: Sink>(status: Status, out: &mut K) -> Status
    ensures ends { Over K.Sink out.old out.new (Ends status result) }
    ensures status { IsWanted status result (PutFailed K.Sink out.old out.new) }
{
    match out.pass_on() {
        Ok(()) => status,
        Err(_) => Status::WriteFault,
    }
}
