ghost use Rattle.std.specs.Prelude.{◌≡◌};
ghost use Rattle.tte_forms.specs.{Answering.{AnswersOne, GivesAnswer}, Taking.TakesUpTo, frames.Answer.file_limit};
ghost use Rattle.tte_forms.specs.Faults.{HasCause, IsWanted, PutFailed, ReadFailed};
ghost use Rattle.tte_forms.specs.{Putting.Over, networks.Checking.{IsAcceptance, IsCheckAnswer, IsCheckStatus}};

use crate::Status;
use crate::accepting::network_line::make_acceptance_line;
use crate::accepting::{accept, put_no_network};
use crate::put_line::put_last;
use schedule_tables::Accepted;
use std::alloc::Global;
use tte_io::{LineText, Sink, Source};

/// Judges the network of a file: it is accepted, with its beta and its gamma, or refused, with the
/// first fault of the file, or with the first rule that it breaks and where.
pub fn check_network<A: Source, K: Sink>(alloc: Global, source: &mut A, out: &mut K) -> Status
    ensures general { Over K.Sink out.old out.new (AnswersOne IsCheckAnswer (A.left source.old) result) }
    ensures statuses { IsCheckStatus result }
    // Where the source failed, nothing was written.
    ensures faults { HasCause result (ReadFailed A.Source source.old source.new × (out.new ≡ out.old))
        (PutFailed K.Sink out.old out.new) }
    ensures taken { TakesUpTo file_limit (A.left source.old) (A.left source.new) }
{
    match accept(alloc, source) {
        Ok(accepted) => put_acceptance(&accepted, out),
        Err(cause) => put_no_network(cause, out),
    }
}

fn put_acceptance<K: Sink>(accepted: &Accepted, out: &mut K) -> Status
    ensures gives { Over K.Sink out.old out.new (GivesAnswer (IsAcceptance accepted.now) result) }
    ensures status { IsWanted Status.Done result (PutFailed K.Sink out.old out.new) }
{
    let network = accepted.network();
    let mut line = LineText::new();
    make_acceptance_line(&mut line, network.beta().amount(), network.gamma().amount());
    put_last(line.as_slice(), Status::Done, out)
}
