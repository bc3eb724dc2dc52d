ghost use Rattle.std.specs.Prelude.{◌++◌, ◌^◌, ◌∷◌, ◌≡◌, ◌≤◌, IfErr, List, OnOk, [], false, length, true, ℕ};
ghost use Rattle.net_plan.specs.{Belonging.HasLink, Ranges.IsInRange, declared.event.Event.{Event as EventValue}};
ghost use Rattle.run_law.specs.declared.note.Note.{Note as NoteValue};
ghost use Rattle.tte_observers.specs.captures.wires.Packets.{is_sent_on, packets_of, scenario_under};
ghost use Rattle.tte_observers.specs.captures.wires.Seeing.{IsTimely, PassesTo, PutsAll, SeesWay, StopsWay, TakesWhat};
ghost use Rattle.tte_observers.specs.captures.wires.Seeing.{last_happening, sent_packets};
ghost use Rattle.{tte_units.specs.Amount.{amount, units_of}, world_drive.specs.Observing.PutsFurther};
ghost use Rattle.world_drive.specs.{declared.observing.Cut.{Cut as CutValue}, exact.Worlds.StandsExact};

use crate::captures::wires::frames::{is_sent_on, put_frames, put_signal};
use device_rules::frames::MadeFrame;
use drift_world::EventNote;
use net_plan::{Event, LinkId, Network, Way, What};
use run_law::is_way_of;
use run_law::plain::PlainNote;
use std::alloc::Global;
use tte_io::Sink;
use tte_units::Units;
use world_drive::exact::ExactWorld;
use world_drive::{Cut, Observer};
use world_state::packets::Packet;

/// Puts a packet for each frame that a way of a link carries. What a broken master sends is kept until all events of
/// its time are known, since a later one may cut the way.
#[derive(Drop)]
pub(crate) struct Capture {
    /// The link, and which of its ways.
    pub(crate) link: LinkId,
    pub(crate) way: Way,
    /// Is the way up of the link cut by the events so far?
    cut: bool,
    /// The time of the last event, in units of 2^-16 ns.
    time: u64,
    /// What was sent on the way at this time, and is not put yet.
    sends: Vec<Packet>,
    /// Where the frames of the schedule are made.
    made: MadeFrame,
}

impl Capture {
    /// Nothing befell the network, and nothing is put.
    pub(crate) fn new(alloc: Global, link: LinkId, way: Way) -> Capture
        ensures link { result.link ≡ link }
        ensures way { result.way ≡ way }
        ensures open { result.cut ≡ false }
        ensures first { result.time ≡ 0 }
        ensures none { result.sends.items ≡ [] }
    {
        Capture {
            link,
            way,
            cut: false,
            time: 0,
            sends: Vec::new(alloc),
            made: MadeFrame::new(),
        }
    }

    /// Puts the packets of what was sent, unless the way is cut. All events of its time are known.
    pub(crate) fn put_sends<K: Sink>(&mut self, out: &mut K) -> Result<(), Cut>
        requires { self.old.time ≤ 2 ^ 60 }
        ensures puts { PutsAll K.Sink (sent_packets self.old.cut self.old.time self.old.sends.items) result
            out.old out.new }
        ensures same { self.new ≡ record self.old { sends = self.new.sends } }
        ensures none { OnOk result (self.new.sends.items ≡ []) }
    {
        if self.sends.is_empty() {
            return Ok(());
        }
        if !self.cut {
            match put_frames(self.time, self.sends.as_slice(), out) {
                Ok(()) => (),
                Err(cut) => return Err(cut),
            }
        }
        self.sends.clear();
        Ok(())
    }

    /// Comes to the time of an event. At a later time all events of the last one are known.
    fn pass_to<K: Sink>(&mut self, time: u64, out: &mut K) -> Result<(), Cut>
        requires { self.old.time ≤ 2 ^ 60 }
        ensures { PassesTo K.Sink time self.old result self.new out.old out.new }
    {
        if time == self.time {
            return Ok(());
        }
        match self.put_sends(out) {
            Ok(()) => (),
            Err(cut) => return Err(cut),
        }
        self.time = time;
        Ok(())
    }

    /// Keeps octets that are sent up the link.
    fn keep(&mut self, octets: &[u8]) -> Result<(), Cut>
        requires least { 60 ≤ length octets.now }
        requires most { length octets.now ≤ 1514 }
        ensures kept { OnOk result (self.new.sends.items ≡ self.old.sends.items ++ octets.now ∷ []) }
        ensures same { self.new ≡ record self.old { sends = self.new.sends } }
        ensures err { IfErr result (λ cut. cut ≡ Cut.OutOfMemory) }
    {
        let alloc = *self.sends.allocator();
        let Ok(packet) = Packet::new(alloc, octets) else {
            return Err(Cut::OutOfMemory);
        };
        match self.sends.push(packet) {
            Ok(()) => Ok(()),
            Err(_) => Err(Cut::OutOfMemory),
        }
    }

    /// Takes what befell at the present time: what is sent up the link, and whether the way up is cut from now on.
    fn take(&mut self, what: &What) -> Result<(), Cut>
        ensures takes { OnOk result (TakesWhat what.now self.old self.new) }
        ensures err { IfErr result (λ cut. cut ≡ Cut.OutOfMemory) }
    {
        match what {
            What::Send(link, octets) => {
                if is_way_of(self.link, self.way, *link, Way::Up) {
                    return self.keep(octets.as_slice());
                }
            }
            What::Cut(link, way) => {
                if is_way_of(self.link, Way::Up, *link, *way) {
                    self.cut = true;
                }
            }
            What::Heal(link, way) => {
                if is_way_of(self.link, Way::Up, *link, *way) {
                    self.cut = false;
                }
            }
            What::Rate(_, _)
            | What::Wire(_, _, _)
            | What::Hold(_, _, _)
            | What::On(_)
            | What::Break(_)
            | What::End => (),
        }
        Ok(())
    }

    /// Puts the packet of the frame that the record put on the way.
    fn put_sent<K: Sink>(
        &mut self,
        world: &ExactWorld<'_>,
        network: &Network,
        note: &PlainNote,
        out: &mut K,
    ) -> Result<(), Cut>
        requires in_range { IsInRange network.now }
        requires timely { IsTimely note.now.time }
        ensures puts { (lines : List (List ℕ)) × PutsAll K.Sink lines result out.old out.new
            × ((events : List EventValue) (notes : List NoteValue)
            → StandsExact network.now world.now events (notes ++ note.now ∷ [])
            → note.now.time ≡ units_of world.now.now → HasLink network.now self.old.link
            → is_sent_on network.now self.old.link self.old.way note.now.body ≡ true
            → lines ≡ packets_of (scenario_under network.now events) self.old.link self.old.way
            (last_happening network.now notes note.now ∷ [])) }
        ensures same { self.new ≡ record self.old { made = self.new.made } }
    {
        match world.on_wire(note.number) {
            Some(signal) => put_signal(network, note.time.amount(), signal, &mut self.made, out),
            None => Ok(()),
        }
    }
}

impl<K: Sink> Observer<K> for Capture {
    ghost sees = { λ network events notes instant start put it. SeesWay network events notes start put it };

    ghost stops = { λ network events notes cut start put. StopsWay network events notes cut start put };

    ghost use Rattle.tte_observers.specs.captures.wires.Stopping.{no_more_seen};

    ghost cut = { λ network events notes instant start put it seen.
        no_more_seen network events notes start put it seen };

    fn record(
        &mut self,
        world: &ExactWorld<'_>,
        network: &Network,
        note: &PlainNote,
        out: &mut K,
    ) -> Result<bool, Cut> {
        let sent = is_sent_on(network, note.body(), self.link, self.way);
        match self.put_sends(out) {
            Ok(()) => (),
            Err(cut) => return Err(cut),
        }
        if !sent {
            return Ok(false);
        }
        match self.put_sent(world, network, note, out) {
            Ok(()) => Ok(false),
            Err(cut) => Err(cut),
        }
    }

    fn event(
        &mut self,
        _world: &ExactWorld<'_>,
        _network: &Network,
        event: &Event,
        _note: &EventNote<'_>,
        out: &mut K,
    ) -> Result<(), Cut> {
        match self.pass_to(event.time.amount(), out) {
            Ok(()) => (),
            Err(cut) => return Err(cut),
        }
        self.take(&event.what)
    }

    /// The end of an instant was not asked for.
    fn instant(
        &mut self,
        _world: &ExactWorld<'_>,
        _network: &Network,
        _time: Units,
        _out: &mut K,
    ) -> Result<(), Cut> {
        Ok(())
    }
}
