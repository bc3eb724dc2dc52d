ghost use Rattle.std.specs.Prelude.{◌++◌, ◌+◌, ◌<◌, ◌∷◌, ◌≡◌, ◌≢◌, ◌≤◌, ◌⊎◌, IfNone, IfSome, List, OnErr, OnOk, []};
ghost use Rattle.std.specs.Prelude.{drop, false, length, take, ℕ};
ghost use Rattle.tte_io.specs.{Faults.Rose, Line.{IsLine, IsUnbroken, ahead_limit, lf}, NextLine.NextLine};
ghost use Rattle.tte_io.specs.{Outcome.TellsOutcome, Progress.{progress_after, reader_state}, Steps.Advances};

use crate::ahead::Ahead;
use crate::{LineTaken, LineText, Source, SourceFailed};
use memchr::memchr;

/// What the octets ahead brought.
pub(crate) enum AheadStep {
    /// The line's end.
    Ended,
    /// All of them are of the line, and its end has not come.
    Unfinished,
    /// More octets than the line has room for.
    TooLong,
}

/// How many octets stand before the first LF: all, where there is none.
fn before_lf(octets: &[u8]) -> usize
    ensures within { result ≤ length octets.now }
    ensures unbroken { IsUnbroken (take result octets.now) }
    ensures found { result < length octets.now → drop result octets.now ≡ lf ∷ drop (result + 1) octets.now }
{
    memchr(b'\n', octets).unwrap_or(octets.len())
}

/// Moves the octets ahead into the line, up to the LF, which it lets go. A line that they would
/// make too long stays as it is.
pub(crate) fn advance(ahead: &mut Ahead, line: &mut LineText) -> AheadStep
    requires { IsLine line.old }
    ensures advances { Advances line.old ahead.old result line.new ahead.new }
    ensures shorter { length ahead.new ≤ length ahead.old }
{
    let octets = ahead.as_slice();
    let count = before_lf(octets);
    let has_end = count < octets.len();
    if count > line.room_left() {
        return AheadStep::TooLong;
    }
    line.append(&octets[..count]);
    if has_end {
        ahead.consume(count + 1);
        AheadStep::Ended
    } else {
        ahead.consume(count);
        AheadStep::Unfinished
    }
}

/// What a line is where the source has ended.
fn at_end(line: &LineText) -> LineTaken
    ensures { ((result ≡ LineTaken.End) × (line.now ≡ [])) ⊎ ((result ≡ LineTaken.Whole) × (line.now ≢ [])) }
{
    if line.is_empty() {
        LineTaken::End
    } else {
        LineTaken::Whole
    }
}

/// Goes on with a line, from the octets ahead and then from the source, whose end was not found yet.
pub(crate) fn take_line<S: Source>(
    ahead: &mut Ahead,
    line: &mut LineText,
    ended: &mut bool,
    source: &mut S,
) -> Result<LineTaken, SourceFailed>
    requires line { IsLine line.old }
    requires bound { length ahead.old ≤ ahead_limit }
    requires unended { ended.old ≡ false }
    ensures next { NextLine (line.old ++ ahead.old) false (S.left source.old)
        (reader_state (progress_after result) line.new ahead.new ended.new) (S.left source.new) result }
    ensures told { TellsOutcome (line.old ++ ahead.old) false (S.left source.old)
        (reader_state (progress_after result) line.new ahead.new ended.new) (S.left source.new) result }
    ensures line { IsLine line.new }
    ensures bound { length ahead.new ≤ ahead_limit }

    ensures never_falls { S.faults source.old ≤ S.faults source.new }
    ensures ok_unchanged { OnOk result (S.faults source.new ≡ S.faults source.old) }
    ensures failed_rose { OnErr result (Rose (S.faults source.old) (S.faults source.new)) }
{
    'reads: loop {
        ahead.fill(source)?;
        if ahead.is_empty() {
            *ended = true;
            return Ok(at_end(line));
        }
        match advance(ahead, line) {
            AheadStep::Ended => return Ok(LineTaken::Whole),
            AheadStep::TooLong => return Ok(LineTaken::Long),
            AheadStep::Unfinished => {}
        }
    }
}
