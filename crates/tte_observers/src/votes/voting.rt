ghost use Rattle.std.specs.Prelude.{◌≡◌, ◌⊎◌, None, [], true};
ghost use Rattle.{net_plan.specs.Ranges.IsInRange, tte_forms.specs.Putting.Over, tte_traces.specs.Answer.IsRunStatus};
ghost use Rattle.{tte_forms.specs.Answering.{ForOctets, GivesAnswer}, world_drive.specs.Observing.{start_by, told_by}};
ghost use Rattle.tte_forms.specs.{Faults.{HasCause, PutFailed, ReadFailed}, networks.Accepting.IsNetworkAnswer};
ghost use Rattle.tte_observers.specs.votes.{Answer.{IsVoteAnswer, IsVoteStatus, the_names}, Voting.SeesVotes};
ghost use Rattle.{tte_observers.specs.votes.Ending.{VoteEnds, VotesEnd}, world_drive.specs.exact.Worlds.StandsExact};
ghost use Rattle.tte_observers.specs.votes.{Safely.VotesSafely, Streaming.{IsOfRun, VoteStops, VoteTakesLittle}};
ghost use Rattle.tte_forms.specs.{Taking.TakesUpTo, frames.Answer.file_limit};

use crate::votes::ballots::KeptVotes;
use crate::votes::law::Voters;
use crate::votes::naming::{may_vote, voters_named};
use crate::votes::putting::{end_at_fault, end_votes};
use crate::votes::refused::{put_refused_name, put_refused_vote};
use crate::votes::voter::Voter;
use schedule_tables::Accepted;
use std::alloc::Global;
use tte_forms::{Status, accept, end_with, put_no_network};
use tte_io::{Sink, Source};
use tte_traces::{Trace, TraceStop};
use world_drive::exact::ExactWorld;
use world_drive::{Cut, Drove, begin_world, drive};

/// Runs the network of the first file under the trace of the second, and votes the payloads of the virtual links of
/// these three names at each receiver, cycle by cycle. The votes come at the end. A word that names no virtual link,
/// and virtual links that may not vote, are refused before the trace is read.
pub fn vote_trace<A: Source, B: Source, K: Sink>(
    alloc: Global,
    first: &mut A,
    second: &mut B,
    one: &str,
    two: &str,
    three: &str,
    out: &mut K,
) -> Status
    ensures general { Over K.Sink out.old out.new (λ old new.
        ForOctets (A.left first.old) (λ octets. ForOctets (B.left second.old) (λ trace.
        GivesAnswer (IsNetworkAnswer (IsVoteAnswer (the_names one.now two.now three.now) trace) octets) result old
        new))) }
    ensures safe { Over K.Sink out.old out.new
        (VotesSafely (the_names one.now two.now three.now) (A.left first.old) (B.left second.old) result) }
    ensures statuses { IsVoteStatus result }
    // Where a source failed, nothing was written.
    ensures faults { HasCause result
        ((ReadFailed A.Source first.old first.new × (out.new ≡ out.old) × (second.new ≡ second.old))
        ⊎ (ReadFailed B.Source second.old second.new
        × Over K.Sink out.old out.new (VoteStops (A.left first.old) (B.left second.old) (B.left second.new))))
        (PutFailed K.Sink out.old out.new) }
    ensures takes { TakesUpTo file_limit (A.left first.old) (A.left first.new)
        × ((second.new ≡ second.old)
        ⊎ (IsOfRun result × Over K.Sink out.old out.new
        (VoteTakesLittle (A.left first.old) (B.left second.old) (B.left second.new)))) }
{
    match accept(alloc, first) {
        Ok(accepted) => vote_network(alloc, &accepted, second, one, two, three, out),
        Err(cause) => put_no_network(cause, out),
    }
}

/// Votes for an accepted network, if the words name virtual links that may vote.
fn vote_network<B: Source, K: Sink>(
    alloc: Global,
    accepted: &Accepted,
    second: &mut B,
    one: &str,
    two: &str,
    three: &str,
    out: &mut K,
) -> Status
    requires { IsInRange accepted.now }
    ensures ends { Over K.Sink out.old out.new (VoteEnds (the_names one.now two.now three.now) accepted.now
        (second.new ≡ second.old) (B.left second.old) (B.left second.new) result) }
    ensures statuses { IsVoteStatus result }
    ensures cause { HasCause result (ReadFailed B.Source second.old second.new) (PutFailed K.Sink out.old out.new) }
{
    let network = accepted.network();
    let voters = match voters_named(network, one, two, three) {
        Ok(voters) => voters,
        Err(place) => return put_refused_name(place, out),
    };
    if !may_vote(network, voters) {
        return put_refused_vote(out);
    }
    vote_run(alloc, accepted, second, voters, out)
}

/// Runs the network under the trace to its end or its fault, and puts the votes.
fn vote_run<B: Source, K: Sink>(
    alloc: Global,
    accepted: &Accepted,
    second: &mut B,
    voters: Voters,
    out: &mut K,
) -> Status
    ensures ends { Over K.Sink out.old out.new
        (VotesEnd voters accepted.now (B.left second.old) (B.left second.new) result) }
    ensures statuses { IsRunStatus result }
    ensures cause { HasCause result (ReadFailed B.Source second.old second.new) (PutFailed K.Sink out.old out.new) }
{
    match KeptVotes::new(alloc, accepted, voters) {
        Ok(votes) => vote_world(alloc, accepted, second, &mut Voter { votes }, out),
        Err(_) => Status::OutOfMemory,
    }
}

/// The same with an observer that has seen no record.
fn vote_world<B: Source, K: Sink>(
    alloc: Global,
    accepted: &Accepted,
    second: &mut B,
    voter: &mut Voter<'_>,
    out: &mut K,
) -> Status
    requires { SeesVotes accepted.now [] (start_by K.Sink out.old voter.old) (told_by K.Sink out.old) voter.old }
    ensures ends { Over K.Sink out.old out.new
        (VotesEnd voter.old.votes.voters accepted.now (B.left second.old) (B.left second.new) result) }
    ensures statuses { IsRunStatus result }
    ensures cause { HasCause result (ReadFailed B.Source second.old second.new) (PutFailed K.Sink out.old out.new) }
{
    match begin_world(alloc, accepted) {
        Ok(mut world) => follow_votes(accepted, &mut world, second, voter, out),
        Err(_) => Status::OutOfMemory,
    }
}

/// Runs a world that nothing has befallen to the end of the trace, or to where that is cut short.
fn follow_votes<B: Source, K: Sink>(
    accepted: &Accepted,
    world: &mut ExactWorld<'_>,
    second: &mut B,
    voter: &mut Voter<'_>,
    out: &mut K,
) -> Status
    requires world { StandsExact accepted.now world.old [] [] }
    requires fresh { (world.old.now ≡ 0) × (world.old.early ≡ true) }
    requires seen { SeesVotes accepted.now [] (start_by K.Sink out.old voter.old) (told_by K.Sink out.old) voter.old }
    ensures ends { Over K.Sink out.old out.new
        (VotesEnd voter.old.votes.voters accepted.now (B.left second.old) (B.left second.new) result) }
    ensures statuses { IsRunStatus result }
    ensures cause { HasCause result (ReadFailed B.Source second.old second.new) (PutFailed K.Sink out.old out.new) }
{
    let network = accepted.network();
    let mut trace = Trace::new(accepted);
    match drive(&mut trace, second, world, network, voter, out) {
        Drove::All => end_votes(&mut voter.votes, network, out),
        Drove::Stopped(TraceStop::Fault(fault)) => {
            let line = u64::from(trace.lines()) + 1;
            end_at_fault(&mut voter.votes, network, fault, line, out)
        }
        Drove::Stopped(TraceStop::ReadFault) => Status::ReadFault,
        Drove::Stopped(TraceStop::WriteFault) => Status::WriteFault,
        Drove::Cut(Cut::WriteFault) => Status::WriteFault,
        Drove::Cut(Cut::OutOfMemory) => end_with(Status::OutOfMemory, out),
    }
}
