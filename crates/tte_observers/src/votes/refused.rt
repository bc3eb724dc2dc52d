ghost use Rattle.std.specs.Prelude.{◌≡◌};
ghost use Rattle.tte_forms.specs.{Answering.{Gives, line_answer}, Faults.{IsWanted, PutFailed}, Putting.Over};
ghost use Rattle.tte_observers.specs.votes.Answer.{name_line, vote_refused};

use tte_forms::{Status, put_last};
use tte_io::{LineText, Sink};

/// Makes the line of the first place whose word names no virtual link.
fn make_name_line(line: &mut LineText, place: u32)
    ensures { line.new ≡ name_line place }
{
    line.clear();
    line.push("refused name ");
    line.push_decimal(u64::from(place));
    line.push("\n");
}

/// Answers that the word at this place names no virtual link.
pub(crate) fn put_refused_name<K: Sink>(place: u32, out: &mut K) -> Status
    ensures gives { Over K.Sink out.old out.new (Gives (line_answer Status.NameRefused (name_line place)) result) }
    ensures status { IsWanted Status.NameRefused result (PutFailed K.Sink out.old out.new) }
{
    let mut line = LineText::new();
    make_name_line(&mut line, place);
    put_last(line.as_slice(), Status::NameRefused, out)
}

/// Answers that the virtual links may not vote.
pub(crate) fn put_refused_vote<K: Sink>(out: &mut K) -> Status
    ensures gives { Over K.Sink out.old out.new (Gives (line_answer Status.VoteRefused vote_refused) result) }
    ensures status { IsWanted Status.VoteRefused result (PutFailed K.Sink out.old out.new) }
{
    put_last(b"refused vote\n", Status::VoteRefused, out)
}
