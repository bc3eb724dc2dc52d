//! The lines of some things, one after another.
ghost use Rattle.std.specs.Prelude.{◌≡◌, All, List, MatchResult, map, ℕ};
ghost use Rattle.tte_forms.specs.{Answering.{Gives, lines_answer}, Faults.{IsWanted, PutFailed}, Putting.{Over, Puts}};

use crate::Status;
use crate::put_line::end_with;
use tte_io::{LineText, Sink, SinkFailed};

/// What makes the line of a thing.
pub trait LineMaker<T> {
    /// What holds of it.
    ghost fit: { Self → Type 0 };

    /// Of which things it makes one.
    ghost takes: { Self → T → Type 0 };

    /// The line of a thing.
    ghost text: { Self → T → List ℕ };

    /// Makes the line of the thing.
    fn make(&self, line: &mut LineText, thing: &T)
        requires fit { fit self.now }
        requires thing { takes self.now thing.now }
        ensures { line.new ≡ text self.now thing.now };
}

/// Puts the line of each of the things.
pub fn put_each<T, M: LineMaker<T>, K: Sink>(
    maker: &M,
    things: &[T],
    out: &mut K,
) -> Result<(), SinkFailed>
    requires fit { M.fit maker.now }
    requires things { All (M.takes maker.now) things.now }
    ensures puts { Over K.Sink out.old out.new (Puts (map (M.text maker.now) things.now) result) }
    ensures faults { MatchResult result (λ _. K.faults out.new ≡ K.faults out.old)
        (λ _. PutFailed K.Sink out.old out.new) }
{
    let mut line = LineText::new();
    'things: for thing in things {
        maker.make(&mut line, thing);
        match out.put(line.as_slice()) {
            Ok(()) => (),
            Err(cause) => return Err(cause),
        }
    }
    Ok(())
}

/// Puts the line of each of the things, and passes them on.
pub fn put_lines<T, M: LineMaker<T>, K: Sink>(maker: &M, things: &[T], out: &mut K) -> Status
    requires fit { M.fit maker.now }
    requires things { All (M.takes maker.now) things.now }
    ensures gives { Over K.Sink out.old out.new
        (Gives (lines_answer Status.Done (map (M.text maker.now) things.now)) result) }
    ensures status { IsWanted Status.Done result (PutFailed K.Sink out.old out.new) }
{
    match put_each(maker, things, out) {
        Ok(()) => end_with(Status::Done, out),
        Err(_) => Status::WriteFault,
    }
}
