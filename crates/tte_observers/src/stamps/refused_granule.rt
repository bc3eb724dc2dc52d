ghost use Rattle.std.specs.Prelude.{◌≡◌};
ghost use Rattle.tte_forms.specs.{Answering.{Gives, line_answer}, Faults.{IsWanted, PutFailed}, Putting.Over};
ghost use Rattle.tte_observers.specs.stamps.Answer.{granule_line};

use tte_forms::{Status, put_last};
use tte_io::{LineText, Sink};

/// Makes the line of a granule that is less than the least.
fn make_granule_line(line: &mut LineText, least: u64)
    ensures { line.new ≡ granule_line least }
{
    line.clear();
    line.push("refused granule least ");
    line.push_decimal(least);
    line.push("\n");
}

/// Answers that the granule is less than the least of the network.
pub(crate) fn put_refused_granule<K: Sink>(least: u64, out: &mut K) -> Status
    ensures gives { Over K.Sink out.old out.new
        (Gives (line_answer Status.GranuleRefused (granule_line least)) result) }
    ensures status { IsWanted Status.GranuleRefused result (PutFailed K.Sink out.old out.new) }
{
    let mut line = LineText::new();
    make_granule_line(&mut line, least);
    put_last(line.as_slice(), Status::GranuleRefused, out)
}
