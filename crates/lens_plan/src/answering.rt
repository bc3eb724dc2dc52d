ghost use Rattle.std.specs.Prelude.{◌≡◌, ◌≢◌, ◌≤◌, ◌⊎◌, All, Err, IfErr, IfOk, length};
ghost use Rattle.net_plan.specs.{Paths.IsTree, Ranges.IsInRange};
ghost use Rattle.lens_plan.specs.Answer.{ArePlanLines, IsJoinedAnswer, IsPlanAnswer, IsPlanFor, IsPlanOf, IsPlanStatus};
ghost use Rattle.lens_plan.specs.Answer.{IsNoJoinTold, IsToldBy, TellsOf};
ghost use Rattle.lens_plan.specs.{joining.Joined.joined, places.{Fitting.IsAsked, Placing.IsOrdered, Planning.{IsNoPlan, IsPlaceOf}}};
ghost use Rattle.lens_plan.specs.text.{Lines.plan_line, Refusals.{HasExcess, excess_line, short_line}};
ghost use Rattle.tte_forms.specs.Answering.{ForOctets, Gives, GivesAnswer, line_answer};
ghost use Rattle.tte_forms.specs.Faults.{HasCause, IsWanted, PutFailed, ReadFailed};
ghost use Rattle.tte_forms.specs.{Putting.Over, Taking.TakesUpTo, frames.Answer.file_limit};
ghost use Rattle.{lens_plan.specs.Reading.MeansItsText, tte_forms.specs.networks.Accepting.{ForAccepted, too_long_answer}};

use crate::joining::{NoJoin, joined_octets, means_planned};
use crate::places::{Attempt, Excess, NoPlan, plan_rows};
use crate::reading::{NetworkText, accept_text_of, messages_of, put_no_messages};
use crate::text::{
    ids_of, make_excess_line, make_plan_line, make_short_line, plan_lines, short_row,
};
use crate::{Message, PlanLine};
use net_plan::Network;
use std::alloc::Global;
use tte_forms::{LineMaker, Status, end_with, put_last, put_lines, put_no_network};
use tte_io::{LineText, OutOfMemory, Sink, Source};

/// Plans virtual links and rows for the messages of the second file, behind the rows of the network of the first.
///
/// Written are the blocks of a network file. The octets of the first file with these behind them mean an accepted
/// network, which is that of the first but for one more virtual link for each message, that serves it. `plan_law` says
/// so, and that in each run each of its frames that is owed comes in time. The second file is read only where the
/// network is accepted, and no block is written before the whole is judged.
pub fn plan_of_network<A: Source, B: Source, K: Sink>(
    alloc: Global,
    first: &mut A,
    second: &mut B,
    out: &mut K,
) -> Status
    ensures general { Over K.Sink out.old out.new (λ old new.
        ForOctets (A.left first.old) (λ octets. ForOctets (B.left second.old) (λ text.
        GivesAnswer (IsPlanAnswer text octets) result old new))) }
    ensures statuses { IsPlanStatus result }
    // Where a source failed, nothing was written.
    ensures faults { HasCause result
        ((ReadFailed A.Source first.old first.new × (out.new ≡ out.old) × (second.new ≡ second.old))
        ⊎ (ReadFailed B.Source second.old second.new × (out.new ≡ out.old)))
        (PutFailed K.Sink out.old out.new) }
    // The messages are read only for an accepted network.
    ensures takes { TakesUpTo file_limit (A.left first.old) (A.left first.new)
        × ((second.new ≡ second.old) ⊎ ForAccepted (A.left first.old) (λ network.
        TakesUpTo file_limit (B.left second.old) (B.left second.new))) }
{
    match accept_text_of(alloc, first) {
        Ok(file) => plan_of_accepted(alloc, &file, second, out),
        Err(cause) => put_no_network(cause, out),
    }
}

/// The same, over an accepted network.
fn plan_of_accepted<B: Source, K: Sink>(
    alloc: Global,
    file: &NetworkText,
    second: &mut B,
    out: &mut K,
) -> Status
    requires { MeansItsText file.now }
    ensures gives { Over K.Sink out.old out.new (λ old new. ForOctets (B.left second.old) (λ text.
        GivesAnswer (IsPlanFor text file.now.octets file.now.accepted) result old new)) }
    ensures statuses { IsPlanStatus result }
    ensures cause { HasCause result (ReadFailed B.Source second.old second.new × (out.new ≡ out.old))
        (PutFailed K.Sink out.old out.new) }
    ensures taken { TakesUpTo file_limit (B.left second.old) (B.left second.new) }
{
    match messages_of(alloc, file.accepted.network(), second) {
        Ok(messages) => plan_of_messages(alloc, file, messages.as_slice(), out),
        Err(cause) => put_no_messages(cause, out),
    }
}

/// The same, for messages that were read.
fn plan_of_messages<K: Sink>(
    alloc: Global,
    file: &NetworkText,
    messages: &[Message],
    out: &mut K,
) -> Status
    requires { All (IsAsked file.now.accepted) messages.now }
    ensures gives { Over K.Sink out.old out.new
        (GivesAnswer (IsPlanOf file.now.octets file.now.accepted messages.now) result) }
    ensures statuses { IsPlanStatus result }
    ensures cause { HasCause result ⊥ (PutFailed K.Sink out.old out.new) }
{
    let network = file.accepted.network();
    match lines_of(alloc, network, messages) {
        Ok(lines) => put_joined(alloc, file, messages, lines.as_slice(), out),
        Err(cause) => put_no_plan(alloc, network, messages, &cause, out),
    }
}

/// The lines of a plan for the messages.
fn lines_of(alloc: Global, network: &Network, messages: &[Message]) -> Result<Vec<PlanLine>, NoPlan>
    requires range { IsInRange network.now }
    requires tree { IsTree network.now }
    requires asked { All (IsAsked network.now) messages.now }
    ensures lines { IfOk result (λ lines. ArePlanLines network.now messages.now lines.items) }
    ensures none { IfErr result (IsNoPlan network.now messages.now) }
    ensures place { IfErr result (IsPlaceOf messages.now) }
{
    let attempts = match plan_rows(alloc, network, messages) {
        Ok(attempts) => attempts,
        Err(cause) => return Err(cause),
    };
    let ids = match ids_of(alloc, network, messages) {
        Ok(ids) => ids,
        Err(OutOfMemory) => return Err(NoPlan::OutOfMemory),
    };
    match plan_lines(
        alloc,
        network,
        messages,
        ids.as_slice(),
        attempts.as_slice(),
    ) {
        Ok(lines) => Ok(lines),
        Err(OutOfMemory) => Err(NoPlan::OutOfMemory),
    }
}

/// Puts the lines, if the octets of the network file with them behind mean what was planned.
fn put_joined<K: Sink>(
    alloc: Global,
    file: &NetworkText,
    messages: &[Message],
    lines: &[PlanLine],
    out: &mut K,
) -> Status
    ensures gives { Over K.Sink out.old out.new
        (GivesAnswer (IsJoinedAnswer file.now.octets file.now.accepted messages.now lines.now) result) }
    ensures statuses { IsPlanStatus result }
    ensures cause { HasCause result ⊥ (PutFailed K.Sink out.old out.new) }
{
    match joined_octets(alloc, file.octets.as_slice(), lines) {
        Ok(joined) => put_judged(alloc, joined.as_slice(), file, messages, lines, out),
        Err(cause) => put_no_join(cause, out),
    }
}

/// Answers that the network file and the lines were not joined.
fn put_no_join<K: Sink>(cause: NoJoin, out: &mut K) -> Status
    ensures gives { Over K.Sink out.old out.new (GivesAnswer (IsNoJoinTold cause) result) }
    ensures statuses { IsPlanStatus result }
    ensures cause { HasCause result ⊥ (PutFailed K.Sink out.old out.new) }
{
    match cause {
        NoJoin::TooLong => put_too_long(out),
        NoJoin::OutOfMemory => Status::OutOfMemory,
    }
}

/// Answers that the network file with the lines behind it would be too long.
fn put_too_long<K: Sink>(out: &mut K) -> Status
    ensures gives { Over K.Sink out.old out.new (Gives too_long_answer result) }
    ensures status { IsWanted Status.TooLong result (PutFailed K.Sink out.old out.new) }
{
    end_with(Status::TooLong, out)
}

/// Puts the lines, if these octets, which are those of the network file with the lines behind them, mean what was planned.
fn put_judged<K: Sink>(
    alloc: Global,
    octets: &[u8],
    file: &NetworkText,
    messages: &[Message],
    lines: &[PlanLine],
    out: &mut K,
) -> Status
    requires joined { octets.now ≡ joined file.now.octets lines.now }
    requires fits { length octets.now ≤ file_limit }
    ensures gives { Over K.Sink out.old out.new
        (GivesAnswer (IsJoinedAnswer file.now.octets file.now.accepted messages.now lines.now) result) }
    ensures statuses { IsPlanStatus result }
    ensures cause { HasCause result ⊥ (PutFailed K.Sink out.old out.new) }
{
    match means_planned(alloc, octets, file.accepted.network(), messages) {
        Ok(true) => put_lines(&PlanLines, lines, out),
        Ok(false) => put_last(b"refused network closed\n", Status::NetworkRefused, out),
        Err(OutOfMemory) => Status::OutOfMemory,
    }
}

/// The lines of a plan.
#[derive(Drop)]
struct PlanLines;

impl LineMaker<PlanLine> for PlanLines {
    ghost fit = { λ lines. Unit {0} };

    ghost takes = { λ lines of. Unit {0} };

    ghost text = { λ lines of. plan_line of };

    fn make(&self, line: &mut LineText, thing: &PlanLine) {
        make_plan_line(line, *thing);
    }
}

/// Answers that there is no plan: the line that says why, where there is one, and the status.
fn put_no_plan<K: Sink>(
    alloc: Global,
    network: &Network,
    messages: &[Message],
    cause: &NoPlan,
    out: &mut K,
) -> Status
    requires range { IsInRange network.now }
    requires place { IsPlaceOf messages.now cause.now }
    requires device { TellsOf network.now cause.now }
    ensures gives { Over K.Sink out.old out.new (GivesAnswer (IsToldBy network.now messages.now cause.now) result) }
    ensures statuses { IsPlanStatus result }
    ensures cause { HasCause result ⊥ (PutFailed K.Sink out.old out.new) }
{
    match cause {
        NoPlan::OutOfMemory => Status::OutOfMemory,
        NoPlan::Excess(excess) => put_excess(network, *excess, out),
        NoPlan::Impossible(place, attempt) => {
            put_short(
                alloc,
                network,
                "impossible",
                &messages[*place],
                attempt,
                out,
            )
        }
        NoPlan::Unplaced(place, attempt) => {
            put_short(alloc, network, "unplaced", &messages[*place], attempt, out)
        }
    }
}

/// Answers what there would be too many of.
fn put_excess<K: Sink>(network: &Network, excess: Excess, out: &mut K) -> Status
    requires range { IsInRange network.now }
    requires device { HasExcess network.now excess }
    ensures gives { Over K.Sink out.old out.new
        (Gives (line_answer Status.PlanRefused (excess_line network.now excess)) result) }
    ensures status { IsWanted Status.PlanRefused result (PutFailed K.Sink out.old out.new) }
{
    let mut line = LineText::new();
    make_excess_line(&mut line, network, excess);
    put_last(line.as_slice(), Status::PlanRefused, out)
}

/// Answers which message has no place, and what it is short of.
fn put_short<K: Sink>(
    alloc: Global,
    network: &Network,
    word: &str,
    message: &Message,
    attempt: &Attempt,
    out: &mut K,
) -> Status
    requires range { IsInRange network.now }
    requires word { length word.now ≤ 10 }
    requires ordered { All IsOrdered attempt.now.placed.items }
    ensures gives { Over K.Sink out.old out.new (GivesAnswer
        (λ a. a ≡ line_answer Status.PlanRefused (short_line word.now network.now message.now attempt.now)) result) }
    ensures statuses { IsPlanStatus result }
    ensures cause { HasCause result ⊥ (PutFailed K.Sink out.old out.new) }
{
    let row = match short_row(alloc, network, message, attempt) {
        Ok(row) => row,
        Err(OutOfMemory) => return Status::OutOfMemory,
    };
    let mut line = LineText::new();
    make_short_line(&mut line, network, word, message, attempt, row);
    put_last(line.as_slice(), Status::PlanRefused, out)
}
