ghost use Rattle.std.specs.Prelude.{◌*◌, ◌+◌, ◌^◌, ◌≡◌, ◌≢◌, ◌≤◌};
ghost use Rattle.net_plan.specs.Ranges.{IsInRange};
ghost use Rattle.tte_forms.specs.{Answering.{AnswersOne, Gives, GivesAnswer, line_answer, with_line}, Putting.Over};
ghost use Rattle.tte_forms.specs.{Faults.{HasCause, IsWanted, PutFailed, ReadFailed}, networks.Checking.IsCheckStatus};
ghost use Rattle.tte_forms.specs.{Taking.TakesUpTo, frames.Answer.file_limit};
ghost use Rattle.lens_slack.specs.least.Answer.{IsLeastAnswer, IsLeastOf, room_of, times_answer, with_late};

use crate::least::Times;
use crate::least::computing::least_times;
use crate::least::lines::{make_keys, make_least_line};
use crate::{Beside, BoundedNumber, Finding, make_finding_line, put_broken};
use net_plan::Network;
use schedule_checker::judge_shape;
use std::alloc::Global;
use tte_forms::{Status, put_last, put_no_network, read_unjudged};
use tte_io::{LineText, Sink, Source};
use tte_units::Units;

/// The greatest number that `settled` may have.
const LATEST: Units = Units(1_099_511_627_776);

/// Tells the least dmax, settled, precision, correction and tt_start that rules 8 to 12 admit for the links, the delays
/// and the rates of the network of a file, and then their five lines, to be pasted into the file; or what the cycle lacks
/// where it has no room for them.
///
/// `least_law` says that with these the rules are kept, and that no others are less.
pub fn least_of_network<A: Source, K: Sink>(alloc: Global, source: &mut A, out: &mut K) -> Status
    ensures general { Over K.Sink out.old out.new (AnswersOne IsLeastAnswer (A.left source.old) result) }
    ensures statuses { IsCheckStatus result }
    // Where the source failed, nothing was written.
    ensures faults { HasCause result (ReadFailed A.Source source.old source.new × (out.new ≡ out.old))
        (PutFailed K.Sink out.old out.new) }
    ensures taken { TakesUpTo file_limit (A.left source.old) (A.left source.new) }
{
    match read_unjudged(alloc, source) {
        Ok(network) => put_least_of(&with_late(network), out),
        Err(cause) => put_no_network(cause, out),
    }
}

/// Tells the least times of a network, or the first rule of its shape that it breaks.
fn put_least_of<K: Sink>(network: &Network, out: &mut K) -> Status
    requires { IsInRange network.now }
    ensures gives { Over K.Sink out.old out.new (GivesAnswer (IsLeastOf network.now) result) }
    ensures statuses { IsCheckStatus result }
    ensures write { result ≡ Status.WriteFault → PutFailed K.Sink out.old out.new }
    ensures read { result ≢ Status.ReadFault }
{
    match judge_shape(network) {
        Ok(()) => put_times(network, &least_times(network), out),
        Err(broken) => put_broken(network, broken.rule, broken.place, out),
    }
}

/// The network with the greatest `settled`.
fn with_late(mut network: Network) -> Network
    requires { IsInRange network }
    ensures late { result ≡ with_late network }
    ensures range { IsInRange result }
{
    network.settled = LATEST;
    network
}

/// Puts the line of the times, and then the lines of their keys, or the line of what is short where the cycle has no room
/// for them.
fn put_times<K: Sink>(network: &Network, times: &Times, out: &mut K) -> Status
    requires range { IsInRange network.now }
    requires few { times.now.tt_start + 4 * times.now.precision ≤ 2 ^ 60 }
    ensures gives { Over K.Sink out.old out.new (Gives (times_answer network.now times.now) result) }
    ensures status { IsWanted (times_answer network.now times.now).status result (PutFailed K.Sink out.old out.new) }
    ensures statuses { IsCheckStatus result }
    ensures read { result ≢ Status.ReadFault }
{
    let mut first = LineText::new();
    let mut behind = LineText::new();
    make_least_line(&mut first, times);
    let room = room_of(network, times);
    if room.wants <= room.has {
        make_keys(&mut behind, times);
        put_both(first.as_slice(), behind.as_slice(), Status::Done, out)
    } else {
        make_finding_line(&mut behind, network, &room);
        put_both(
            first.as_slice(),
            behind.as_slice(),
            Status::NetworkRefused,
            out,
        )
    }
}

/// Puts two texts and passes them on.
fn put_both<K: Sink>(first: &[u8], behind: &[u8], status: Status, out: &mut K) -> Status
    ensures gives { Over K.Sink out.old out.new (Gives (with_line first.now (line_answer status behind.now)) result) }
    ensures status { IsWanted status result (PutFailed K.Sink out.old out.new) }
{
    match out.put(first) {
        Ok(()) => put_last(behind, status, out),
        Err(_) => Status::WriteFault,
    }
}

/// The cycle, and where the schedule begins with these times, with room for the precision.
fn room_of(network: &Network, times: &Times) -> Finding
    requires range { IsInRange network.now }
    requires few { times.now.tt_start + 4 * times.now.precision ≤ 2 ^ 60 }
    ensures { result ≡ room_of network.now times.now }
{
    Finding {
        spot: BoundedNumber::End,
        has: network.cycle.amount(),
        wants: times.tt_start + 4 * times.precision,
        beside: Beside::Nothing,
    }
}
