ghost use Rattle.std.specs.Prelude.{◌^◌, ◌≡◌, ◌≢◌, ◌≤◌, ◌⊎◌, [], true};
ghost use Rattle.{net_plan.specs.{Belonging.HasLink, Ranges.IsInRange}, tte_traces.specs.FaultLine.fault_status};
ghost use Rattle.tte_forms.specs.{Answering.{ForOctets, Gives, GivesAnswer, GivesOne}, Putting.{Over, PutsNone}};
ghost use Rattle.{tte_forms.specs.Faults.{HasCause, IsWanted, PutFailed, ReadFailed}, tte_traces.specs.Ending.RunEnds};
ghost use Rattle.tte_observers.specs.captures.wires.Answer.{IsCapture, IsHeaded, IsWireAnswer, IsWireNetworkAnswer};
ghost use Rattle.tte_observers.specs.captures.wires.{Answer.{IsWireStatus, quiet_answer}, Streaming.settled_lines};
ghost use Rattle.tte_observers.specs.captures.wires.{Safely.WiresSafely, Seeing.{SeesWay, sent_packets}};
ghost use Rattle.tte_observers.specs.captures.wires.Streaming.{StopsAtLink, StopsHeaded, TakesLittleAtLink};
ghost use Rattle.tte_observers.specs.captures.wires.Streaming.{TakesLittleHeaded, WireStops, WireTakesLittle};
ghost use Rattle.{tte_forms.specs.{Taking.TakesUpTo, frames.Answer.file_limit}, world_drive.specs.exact.Worlds.StandsExact};
ghost use Rattle.world_drive.specs.Observing.{start_by, told_by};

use crate::captures::pcap::put_head;
use crate::captures::wires::capture::Capture;
use net_plan::{LinkId, Way};
use schedule_tables::Accepted;
use std::alloc::Global;
use tte_forms::{NoNetwork, Status, accept, end_with};
use tte_io::{Sink, Source};
use tte_traces::{Trace, TraceFault, TraceStop};
use world_drive::exact::ExactWorld;
use world_drive::{Cut, Drove, begin_world, drive};

/// Writes the capture of one way of the link of this name, as the network of the first file runs under the trace of the
/// second. It takes the trace line by line, and writes a frame as soon as it is known to be on the way.
///
/// It writes no line of refusal. Where the network is refused, or has no link of the name, it writes nothing.
pub fn wire_trace<A: Source, B: Source, K: Sink>(
    alloc: Global,
    first: &mut A,
    second: &mut B,
    link: &str,
    way: Way,
    out: &mut K,
) -> Status
    ensures general { Over K.Sink out.old out.new (λ old new.
        ForOctets (A.left first.old) (λ octets. ForOctets (B.left second.old) (λ trace.
        GivesAnswer (IsWireNetworkAnswer (IsWireAnswer link.now way trace) octets) result old new))) }
    ensures safe { Over K.Sink out.old out.new
        (WiresSafely link.now way (A.left first.old) (B.left second.old) result) }
    ensures statuses { IsWireStatus result }
    // Where the first source failed, nothing was written.
    ensures faults { HasCause result
        ((ReadFailed A.Source first.old first.new × (out.new ≡ out.old) × (second.new ≡ second.old))
        ⊎ (ReadFailed B.Source second.old second.new × Over K.Sink out.old out.new
        (WireStops link.now way (A.left first.old) (B.left second.old) (B.left second.new))))
        (PutFailed K.Sink out.old out.new) }
    ensures takes { TakesUpTo file_limit (A.left first.old) (A.left first.new)
        × ((second.new ≡ second.old) ⊎ Over K.Sink out.old out.new
        (WireTakesLittle link.now way (A.left first.old) (B.left second.old) (B.left second.new))) }
{
    match accept(alloc, first) {
        Ok(accepted) => wire_network(alloc, &accepted, second, link, way, out),
        Err(cause) => end_quietly(cause, out),
    }
}

/// Answers that there is no accepted network, by the status alone.
fn end_quietly<K: Sink>(cause: NoNetwork, out: &mut K) -> Status
    ensures gives { Over K.Sink out.old out.new (Gives (quiet_answer cause) result) }
    ensures read { result ≡ Status.ReadFault → cause ≡ NoNetwork.ReadFault }
    ensures unread { result ≡ Status.ReadFault → out.new ≡ out.old }
    ensures unput { (cause ≡ NoNetwork.ReadFault) ⊎ (cause ≡ NoNetwork.OutOfMemory)
        → (result ≢ Status.WriteFault) × Over K.Sink out.old out.new PutsNone }
    ensures write { result ≡ Status.WriteFault → PutFailed K.Sink out.old out.new }
    ensures statuses { IsWireStatus result }
{
    match cause {
        NoNetwork::ReadFault => Status::ReadFault,
        NoNetwork::TooLong => end_with(Status::TooLong, out),
        NoNetwork::OutOfMemory => Status::OutOfMemory,
        NoNetwork::File(_) | NoNetwork::Rule(_) => end_with(Status::NetworkRefused, out),
    }
}

/// Writes the capture for an accepted network, if it has a link of this name.
fn wire_network<B: Source, K: Sink>(
    alloc: Global,
    accepted: &Accepted,
    second: &mut B,
    link: &str,
    way: Way,
    out: &mut K,
) -> Status
    requires { IsInRange accepted.now }
    ensures general { Over K.Sink out.old out.new (λ old new. ForOctets (B.left second.old) (λ trace.
        GivesAnswer (IsWireAnswer link.now way trace accepted.now) result old new)) }
    ensures read { result ≡ Status.ReadFault → Over K.Sink out.old out.new
        (StopsAtLink accepted.now link.now way (B.left second.old) (B.left second.new)) }
    ensures little { (second.new ≡ second.old) ⊎ Over K.Sink out.old out.new
        (TakesLittleAtLink accepted.now link.now way (B.left second.old) (B.left second.new)) }
    ensures statuses { IsWireStatus result }
    ensures cause { HasCause result (ReadFailed B.Source second.old second.new) (PutFailed K.Sink out.old out.new) }
{
    match accepted.network().link_named(link) {
        Some(link) => wire_link(alloc, accepted, second, link, way, out),
        None => end_with(Status::NameRefused, out),
    }
}

/// Writes the header, and then the packets of a way of the link.
fn wire_link<B: Source, K: Sink>(
    alloc: Global,
    accepted: &Accepted,
    second: &mut B,
    link: LinkId,
    way: Way,
    out: &mut K,
) -> Status
    requires { HasLink accepted.now link }
    ensures general { Over K.Sink out.old out.new (λ old new. ForOctets (B.left second.old) (λ trace.
        GivesOne (IsHeaded (IsCapture link way trace accepted.now)) result old new)) }
    ensures read { result ≡ Status.ReadFault → Over K.Sink out.old out.new
        (StopsHeaded accepted.now link way (B.left second.old) (B.left second.new)) }
    ensures little { (second.new ≡ second.old) ⊎ Over K.Sink out.old out.new
        (TakesLittleHeaded accepted.now link way (B.left second.old) (B.left second.new)) }
    ensures statuses { IsWireStatus result }
    ensures cause { HasCause result (ReadFailed B.Source second.old second.new) (PutFailed K.Sink out.old out.new) }
{
    match put_head(out) {
        Ok(()) => wire_way(alloc, accepted, second, link, way, out),
        Err(_) => Status::WriteFault,
    }
}

/// Runs the network under the trace, and puts the packets of a way of the link.
fn wire_way<B: Source, K: Sink>(
    alloc: Global,
    accepted: &Accepted,
    second: &mut B,
    link: LinkId,
    way: Way,
    out: &mut K,
) -> Status
    requires { HasLink accepted.now link }
    ensures ends { Over K.Sink out.old out.new (RunEnds (λ trace. IsCapture link way trace accepted.now)
        (settled_lines link way) accepted.now (B.left second.old) (B.left second.new) result) }
    ensures statuses { IsWireStatus result }
    ensures cause { HasCause result (ReadFailed B.Source second.old second.new) (PutFailed K.Sink out.old out.new) }
{
    match begin_world(alloc, accepted) {
        Ok(mut world) => {
            let mut capture = Capture::new(alloc, link, way);
            follow_way(accepted, &mut world, second, &mut capture, out)
        }
        Err(_) => Status::OutOfMemory,
    }
}

/// Runs a world that nothing has befallen to the end of the trace, or to where that is cut short.
fn follow_way<B: Source, K: Sink>(
    accepted: &Accepted,
    world: &mut ExactWorld<'_>,
    second: &mut B,
    capture: &mut Capture,
    out: &mut K,
) -> Status
    requires world { StandsExact accepted.now world.old [] [] }
    requires fresh { (world.old.now ≡ 0) × (world.old.early ≡ true) }
    requires seen { SeesWay accepted.now [] [] (start_by K.Sink out.old capture.old) (told_by K.Sink out.old)
        capture.old }
    ensures ends { Over K.Sink out.old out.new
        (RunEnds (λ trace. IsCapture capture.old.link capture.old.way trace accepted.now)
        (settled_lines capture.old.link capture.old.way) accepted.now (B.left second.old) (B.left second.new) result) }
    ensures statuses { IsWireStatus result }
    ensures cause { HasCause result (ReadFailed B.Source second.old second.new) (PutFailed K.Sink out.old out.new) }
{
    let network = accepted.network();
    let mut trace = Trace::new(accepted);
    match drive(&mut trace, second, world, network, capture, out) {
        Drove::All => end_capture(capture, Status::Done, out),
        Drove::Stopped(TraceStop::Fault(fault)) => end_capture(capture, status_of(fault), out),
        Drove::Stopped(TraceStop::ReadFault) => Status::ReadFault,
        Drove::Stopped(TraceStop::WriteFault) => Status::WriteFault,
        Drove::Cut(Cut::WriteFault) => Status::WriteFault,
        Drove::Cut(Cut::OutOfMemory) => end_with(Status::OutOfMemory, out),
    }
}

/// The status of a trace that is refused.
fn status_of(fault: TraceFault) -> Status
    ensures { result ≡ fault_status fault }
{
    match fault {
        TraceFault::Missing | TraceFault::After | TraceFault::Long | TraceFault::Line(_) => {
            Status::TraceRefused
        }
        TraceFault::TooMany => Status::TooLong,
        TraceFault::Event(_) => Status::OutsideHypothesis,
    }
}

/// Puts the packets of what was sent at the last instant, whose events are all known, and passes all on.
fn end_capture<K: Sink>(capture: &mut Capture, status: Status, out: &mut K) -> Status
    requires { capture.old.time ≤ 2 ^ 60 }
    ensures gives { Over K.Sink out.old out.new (Gives (record {
      status = status;
      lines = sent_packets capture.old.cut capture.old.time capture.old.sends.items;
    }) result) }
    ensures status { IsWanted status result (PutFailed K.Sink out.old out.new) }
{
    match capture.put_sends(out) {
        Ok(()) => end_with(status, out),
        Err(_) => Status::WriteFault,
    }
}
