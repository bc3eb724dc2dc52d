//! The votes are put, and then the line of the trace's fault, if it has one.

ghost use Rattle.std.specs.Prelude.{◌++◌, ◌≡◌, List, []};
ghost use Rattle.{net_plan.specs.Ranges.IsInRange, tte_forms.specs.{Answering.Gives, Putting.Over}};
ghost use Rattle.run_law.specs.declared.note.Note.{Note as NoteValue};
ghost use Rattle.tte_observers.specs.votes.Putting.{FailsSo, PutsAll};
ghost use Rattle.{tte_forms.specs.Faults.{IsWanted, PutFailed}, tte_traces.specs.FaultLine.{fault_lines, fault_status}};
ghost use Rattle.tte_observers.specs.declared.votes.law.voters.Voters.{Voters as VotersValue};
ghost use Rattle.tte_observers.specs.votes.{VoteLines.{is_cast, lines_at, vote_lines}, ballots.Keeping.HoldsVotes};

use crate::votes::ballots::KeptVotes;
use crate::votes::tmr::Ballot;
use crate::votes::vote_line::{make_vote_line, voted};
use net_plan::{DeviceId, Network};
use tte_forms::{Status, end_with};
use tte_io::{LineText, Sink, SinkFailed};
use tte_traces::{TraceFault, put_fault};

/// Is a seat of the ballot cast?
fn is_cast(ballot: &Ballot) -> bool
    ensures { result ≡ is_cast ballot.now }
{
    ballot.payload(0).is_some() || ballot.payload(1).is_some() || ballot.payload(2).is_some()
}

/// Puts the line of a ballot, if it is of a device of the network and a seat of it is cast.
fn put_vote<K: Sink>(
    text: &mut LineText,
    network: &Network,
    cycle: u32,
    device: DeviceId,
    ballot: &Ballot,
    out: &mut K,
) -> Result<(), SinkFailed>
    requires { IsInRange network.now }
    ensures lines { PutsAll K.Sink (lines_at network.now cycle device ballot.now) result out.old out.new }
    ensures cause { FailsSo K.Sink result out.old out.new }
{
    if device.0 as usize >= network.device.as_slice().len() || !is_cast(ballot) {
        return Ok(());
    }
    make_vote_line(text, cycle, network.device_name(device), voted(ballot));
    out.put(text.as_slice())
}

/// Puts the line of each ballot that is kept, in the order of cycles and then of devices.
fn put_votes<K: Sink>(
    votes: &mut KeptVotes<'_>,
    network: &Network,
    out: &mut K,
) -> Result<(), SinkFailed>
    requires { IsInRange network.now }
    ensures lines { (voters : VotersValue) (notes : List NoteValue) → HoldsVotes network.now voters notes votes.old
        → PutsAll K.Sink (vote_lines voters network.now [] notes) result out.old out.new }
    ensures cause { FailsSo K.Sink result out.old out.new }
{
    let mut ballot = Ballot::new();
    let mut text = LineText::new();
    'ballots: loop {
        match votes.next(&mut ballot) {
            Some((cycle, device)) => match put_vote(
                &mut text, network, cycle, device, &ballot, out,
            ) {
                Ok(()) => (),
                Err(error) => return Err(error),
            },
            None => return Ok(()),
        }
    }
}

/// Puts the votes, behind which nothing comes.
pub(crate) fn end_votes<K: Sink>(
    votes: &mut KeptVotes<'_>,
    network: &Network,
    out: &mut K,
) -> Status
    requires { IsInRange network.now }
    ensures gives { (voters : VotersValue) (notes : List NoteValue) → HoldsVotes network.now voters notes votes.old
        → Over K.Sink out.old out.new (Gives (record {
          status = Status.Done;
          lines = vote_lines voters network.now [] notes;
        }) result) }
    ensures status { IsWanted Status.Done result (PutFailed K.Sink out.old out.new) }
{
    match put_votes(votes, network, out) {
        Ok(()) => end_with(Status::Done, out),
        Err(_) => Status::WriteFault,
    }
}

/// Puts the votes, and then why the trace is refused at the line of this number.
pub(crate) fn end_at_fault<K: Sink>(
    votes: &mut KeptVotes<'_>,
    network: &Network,
    fault: TraceFault,
    line: u64,
    out: &mut K,
) -> Status
    requires { IsInRange network.now }
    ensures gives { (voters : VotersValue) (notes : List NoteValue) → HoldsVotes network.now voters notes votes.old
        → Over K.Sink out.old out.new (Gives (record {
          status = fault_status fault;
          lines = vote_lines voters network.now [] notes ++ fault_lines line fault;
        }) result) }
    ensures status { IsWanted (fault_status fault) result (PutFailed K.Sink out.old out.new) }
{
    match put_votes(votes, network, out) {
        Ok(()) => put_fault(fault, line, &mut LineText::new(), out),
        Err(_) => Status::WriteFault,
    }
}
