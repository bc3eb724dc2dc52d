ghost use Rattle.std.specs.Prelude.{◌++◌, ◌-◌, ◌<◌, ◌^◌, ◌↔◌, ◌∷◌, ◌≡◌, ◌≢◌, ◌≤◌, Err, IfErr, IfOk, IfSome, IsNone};
ghost use Rattle.std.specs.Prelude.{IsSome, IsTrue, List, MatchOption, MatchResult, Ok, OnOk, Some, [], length, ℕ};
ghost use Rattle.{net_plan.specs.{Belonging.IsOfNetwork, Ranges.IsInRange}, trace_text.specs.Ranges.IsEventInRange};
ghost use Rattle.net_plan.specs.declared.{event.Event.{Event as EventValue}, network.Network.{Network as NetworkValue}};
ghost use Rattle.tte_forms.specs.{Faults.{PutFailed, ReadFailed}, Putting.{IsPassedOn, Over, PutsNone, shown_by}};
ghost use Rattle.tte_traces.specs.Following.{Follows, GoesOn, IsFound, IsRefused, JudgesSo, Reads, TakesNext};
ghost use Rattle.tte_traces.specs.Lines.{HasEvent, IsAdmitted, IsFault, IsOpen};
ghost use Rattle.{tte_traces.specs.Taking.{EndedBehind, GaveEvents, StoppedBehind}, world_drive.specs.Sources.given_in};

use crate::fault::{TraceFault, TraceStop};
use crate::reading::next_line;
use fault_hypothesis::Watch;
use net_plan::{Event, Network, What};
use schedule_tables::Accepted;
use trace_text::line_in;
use tte_io::{LineReader, LineTaken, Sink, Source};
use world_drive::Events;

/// A trace that is taken line by line: each line's event is admitted by the fault hypothesis, given
/// those before it, or the trace is refused.
#[derive(Drop)]
pub struct Trace<'a> {
    accepted: &'a Accepted,
    watch: Watch<'a>,
    reader: LineReader,
    /// How many lines gave an event.
    lines: u32,
    /// Was the last of these the end?
    ended: bool,
}

impl<'a> Trace<'a> {
    /// A trace of which no line was taken.
    pub fn new(accepted: &'a Accepted) -> Trace<'a>
        ensures follows { Follows accepted.now [] result }
        ensures reads { (octets : List ℕ) → Reads accepted.now octets [] result octets }
    {
        Trace {
            accepted,
            watch: Watch::new(accepted),
            reader: LineReader::new(),
            lines: 0,
            ended: false,
        }
    }

    /// The network.
    pub fn network(&self) -> &'a Network
        ensures value { result.now ≡ self.now.accepted.now }
        ensures in_range { IsInRange result.now }
    {
        self.accepted.network()
    }

    /// How many lines gave an event.
    pub fn lines(&self) -> u32
        ensures { result ≡ self.now.lines }
    {
        self.lines
    }

    /// Puts the event of the next line in the place of another, and answers whether there is one: where the trace has
    /// ended there is none. Before a read it passes on all that was written.
    ///
    /// After a failed read, and where passing on failed, the next call goes on where this one
    /// stopped. After a fault of the trace no call is to follow.
    pub fn next_event<B: Source, K: Sink>(
        &mut self,
        source: &mut B,
        event: &mut Event,
        out: &mut K,
    ) -> Result<bool, TraceStop>
        ensures follows { (network : NetworkValue) (events : List EventValue) → Follows network events self.old
            → GoesOn network events (given_in result event.new) self.new }

        ensures takes { TakesNext self.old (B.left source.old) (given_in result event.new) self.new
            (B.left source.new) }

        ensures never_falls { B.faults source.old ≤ B.faults source.new }
        ensures unchanged { result ≢ Err TraceStop.ReadFault → B.faults source.new ≡ B.faults source.old }
        ensures failed_rose { result ≡ Err TraceStop.ReadFault → ReadFailed B.Source source.old source.new }

        ensures nothing_put { Over K.Sink out.old out.new PutsNone }
        ensures passed { result ≡ Err TraceStop.ReadFault → IsPassedOn (shown_by K.Sink out.new) }
        ensures quiet { result ≢ Err TraceStop.WriteFault → K.faults out.new ≡ K.faults out.old }
        ensures unpassed { result ≡ Err TraceStop.WriteFault → PutFailed K.Sink out.old out.new }
    {
        match next_line(&mut self.reader, source, out) {
            Ok(found) => self.judge(found, event),
            Err(stop) => Err(stop),
        }
    }

    /// Puts the event of what was found in the place of another, and answers whether there is one: at the end of a
    /// trace that has ended there is none.
    fn judge(&mut self, found: LineTaken, event: &mut Event) -> Result<bool, TraceStop>
        requires { found ≡ LineTaken.Whole → IsSome self.old.reader.text }
        ensures judged { (network : NetworkValue) (events : List EventValue) (rest : List ℕ)
            → Follows network events self.old → IsFound rest found self.old.reader
            → JudgesSo network events rest (given_in result event.new) self.new }
        ensures refused { IfErr result IsRefused }
        ensures of_network { IfOk (given_in result event.new)
            (λ event. IfSome event (λ e. IsOfNetwork self.old.accepted.now e.what)) }
        ensures range { IfOk (given_in result event.new) (λ event. IfSome event IsEventInRange) }
        ensures reader { self.new.reader ≡ self.old.reader }
    {
        match found {
            LineTaken::Whole => self.take_line(event),
            LineTaken::Long => match self.fault_of_line() {
                Some(fault) => Err(TraceStop::Fault(fault)),
                None => Err(TraceStop::Fault(TraceFault::Long)),
            },
            LineTaken::End if self.ended => Ok(false),
            LineTaken::End => Err(TraceStop::Fault(TraceFault::Missing)),
        }
    }

    /// Why no further line may come, if that is so.
    fn fault_of_line(&self) -> Option<TraceFault>
        ensures fault { (network : NetworkValue) (events : List EventValue) (rest : List ℕ)
            → Follows network events self.now → rest ≢ []
            → MatchOption result (IsOpen events rest) (IsFault network events rest) }
        ensures room { IsNone result → self.now.lines < u32.MAX }
    {
        if self.lines == u32::MAX {
            Some(TraceFault::TooMany)
        } else if self.ended {
            Some(TraceFault::After)
        } else {
            None
        }
    }

    /// Puts the event of the line that was read in the place of another. It is admitted.
    fn take_line(&mut self, event: &mut Event) -> Result<bool, TraceStop>
        requires { IsSome self.old.reader.text }
        ensures judged { (network : NetworkValue) (events : List EventValue) (rest : List ℕ)
            → Follows network events self.old → IsFound rest LineTaken.Whole self.old.reader
            → JudgesSo network events rest (given_in result event.new) self.new }
        ensures refused { IfErr result IsRefused }
        ensures of_network { IfOk (given_in result event.new)
            (λ event. IfSome event (λ e. IsOfNetwork self.old.accepted.now e.what)) }
        ensures range { IfOk (given_in result event.new) (λ event. IfSome event IsEventInRange) }
        ensures reader { self.new.reader ≡ self.old.reader }
    {
        match self.fault_of_line() {
            Some(fault) => return Err(TraceStop::Fault(fault)),
            None => (),
        }
        let network = self.accepted.network();
        match line_in(network, self.reader.text(), event) {
            Ok(()) => (),
            Err(refusal) => return Err(TraceStop::Fault(TraceFault::Line(refusal))),
        };
        match self.watch.admit(event) {
            Ok(()) => (),
            Err(outside) => return Err(TraceStop::Fault(TraceFault::Event(outside))),
        }
        self.lines += 1;
        self.ended = matches!(event.what, What::End);
        Ok(true)
    }
}

impl<'a, B: Source, K: Sink> Events<B, K, TraceStop> for Trace<'a> {
    ghost gave = { λ network first origin events now it. GaveEvents B.Source network first events now it };

    ghost ended = { λ network first origin events now it. EndedBehind B.Source network first events now };

    ghost stopped = { λ network first origin events stop now it before after.
        StoppedBehind B.Source K.Sink network first events stop now it before after };

    ghost left = { λ it. 2 ^ 32 - it.lines };

    fn next_event(
        &mut self,
        from: &mut B,
        event: &mut Event,
        out: &mut K,
    ) -> Result<bool, TraceStop> {
        self.next_event(from, event, out)
    }
}
