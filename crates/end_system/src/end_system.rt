ghost use Rattle.std.specs.Prelude.{◌+ℤ◌, ◌+◌, ◌<◌, ◌^◌, ◌≡◌, ◌≤ℤ◌, ◌≤◌, IfOk, IfSome, List, [], pos, ℕ};
ghost use Rattle.{device_rules.specs.Headings.heading_of, pcf_codec.specs.Decoding.decoded};
ghost use Rattle.net_plan.specs.{Places.IsEndSystem, declared.ids.DeviceId.{DeviceId as DeviceIdValue}};
ghost use Rattle.net_plan.specs.{Ranges.{IsInRange, IsWithin}, declared.network.Network.{Network as NetworkValue}};
ghost use Rattle.run_law.specs.machines.Nodes.{begun_node};
ghost use Rattle.end_system.specs.{Acting.{CanPlan, Does, MayDo}, Standing.StandsAsEnd, declared.agenda.Due.Due};
ghost use Rattle.end_system.specs.{Agendas.{IsAgenda, IsAgendaAfter}, Arriving.{HearsControl, HearsTimed, MayHearNow}};
ghost use Rattle.end_system.specs.{Owns.IsOwnOf, Ripening.{Joins, Keeps, MayJoin}, RowSlots.{AreRowsOf, IsAtSlot}};

use crate::OutOfMemory;
use crate::agenda::{Agenda, Appointment, Due, agenda_from, in_next_cycle};
use crate::control::{arrival, heard_as, local_at};
use crate::own::Own;
use crate::rows::{Dispatch, OwnRows};
use device_rules::{Heading, Intake, TaskKind, TellsKind, is_off, start_of};
use net_plan::{DeviceId, LinkId, Network};
use pcf_codec::{PcfRefusal, decode, is_pcf};
use run_law::{Act, Arrival, Machine, Moment, Reason, Ripe};
use schedule_tables::Accepted;
use std::alloc::Global;
use sync_state::membership::{Heard, HeardFrame};
use sync_state::{State, Sync, Verdict};
use tte_units::Units;
use tte_units::frames::Pcf;

/// A master or a client. After it is made it takes no memory.
#[derive(Drop)]
pub struct EndSystem {
    own: Own,
    sync: Sync,
    heard: Heard,
    agenda: Agenda,
    rows: OwnRows,
    entering: Intake,
    /// When it was called last.
    last: Moment,
}

impl EndSystem {
    /// An end system of the network, as it begins: synchronised where the network gives it a start, and else off.
    ///
    /// The error is that memory ran out. No later call takes memory.
    pub fn new(
        alloc: Global,
        accepted: &Accepted,
        device: DeviceId,
    ) -> Result<EndSystem, OutOfMemory>
        requires { IsEndSystem accepted.now device }
        ensures { IfOk result (λ e. StandsAsEnd e accepted.now device (begun_node accepted.now device)) }
    {
        let network = accepted.network();
        let own = Own::new(network, device);
        let sync = Sync::new(own.plan, start_of(network, device));
        let rows = OwnRows::new(alloc, network, device)?;
        let entering = match Intake::new(alloc, network, device) {
            Ok(entering) => entering,
            Err(_) => return Err(OutOfMemory),
        };
        Ok(EndSystem {
            own,
            sync,
            heard: Heard::new(),
            agenda: agenda_from(&own, &rows, &sync, sync.adjustment()),
            rows,
            entering,
            last: Moment {
                time: Units(0),
                reading: Units(0),
            },
        })
    }

    /// Sends the frame that is due.
    fn send(&mut self, moment: Moment, sending: Appointment) -> Act
        requires { MayDo self.old moment (Due.Sending sending) }
        ensures { Does self.old moment (Due.Sending sending) result self.new }
    {
        self.last = moment;
        self.agenda.sending = Some(in_next_cycle(&self.own, sending));
        Act::Send(self.own.frame_of(sending.cycle))
    }

    /// Comes to the correction point that is due.
    fn correct(&mut self, moment: Moment, correction: Appointment) -> Act
        requires { MayDo self.old moment (Due.Correction correction) }
        ensures { Does self.old moment (Due.Correction correction) result self.new }
    {
        self.last = moment;
        let verdict = self.sync.at_correction(&self.heard);
        self.heard.clear();
        self.agenda = self.agenda_after(verdict, correction);
        Act::Correct(correction.cycle, verdict)
    }

    /// What comes next after a correction point.
    fn agenda_after(&self, verdict: Verdict, correction: Appointment) -> Agenda
        requires can { CanPlan self.now }
        requires cycle { correction.cycle < 2 ^ 31 }
        requires at { correction.at.0 ≤ℤ pos (2 ^ 62) }
        ensures slot { IfSome result.dispatch (IsAtSlot self.now.rows) }
        ensures agenda { IsAgendaAfter self.now.own self.now.rows self.now.sync
            (self.now.last.reading.0 +ℤ self.now.sync.adjustment.0) correction verdict result }
    {
        match verdict {
            Verdict::Corrected(_) => self.agenda_anew(),
            Verdict::SyncClique | Verdict::AsyncClique => Agenda::empty(),
            Verdict::Cleared => Agenda {
                sending: None,
                correction: Some(in_next_cycle(&self.own, correction)),
                dispatch: None,
            },
        }
    }

    /// Dispatches the row that is due.
    fn dispatch(&mut self, moment: Moment, dispatch: Dispatch) -> Act
        requires { MayDo self.old moment (Due.Dispatch dispatch) }
        ensures { Does self.old moment (Due.Dispatch dispatch) result self.new }
    {
        self.last = moment;
        self.agenda.dispatch = self
            .rows
            .next_behind(&self.own, self.sync.adjustment(), dispatch);
        Act::Dispatch(dispatch.slot.place.row, dispatch.cycle)
    }

    /// What comes next, now that the clock has been set.
    fn agenda_anew(&self) -> Agenda
        requires { CanPlan self.now }
        ensures slot { IfSome result.dispatch (IsAtSlot self.now.rows) }
        ensures agenda { (network : NetworkValue) (device : DeviceIdValue) → IsOwnOf network device self.now.own
            → AreRowsOf network device self.now.rows
            → IsAgenda network device self.now.sync (self.now.last.reading.0 +ℤ self.now.sync.adjustment.0) [] result }
    {
        let local = local_at(self.last.reading, self.sync.adjustment());
        agenda_from(&self.own, &self.rows, &self.sync, local)
    }

    /// What becomes of what octets decode to that count as a control frame.
    fn hear_control(
        &mut self,
        moment: Moment,
        link: LinkId,
        frame: Result<Pcf, PcfRefusal>,
    ) -> Arrival
        requires { (octets : List ℕ) × MayHearNow self.old moment link octets }
        ensures hears { (octets : List ℕ) → frame ≡ decoded octets
            → HearsControl self.old moment link octets result self.new }
        ensures same { self.new ≡ record self.old { last = moment } }
    {
        self.last = moment;
        arrival(&self.own, moment.reading, link, frame)
    }

    /// What becomes of octets of this heading that are no control frame.
    fn hear_timed(&mut self, moment: Moment, link: LinkId, heading: &Heading) -> Arrival
        requires { (octets : List ℕ) × MayHearNow self.old moment link octets }
        ensures { (octets : List ℕ) → heading.now ≡ heading_of octets
            → HearsTimed self.old moment link octets result self.new }
    {
        self.last = moment;
        if let Some(reason) = heading.fault(true, self.sync.state(), self.own.marker) {
            return Arrival::Dropped(reason);
        }
        let local = local_at(moment.reading, self.sync.adjustment());
        let length = self.own.plan.cycle_length;
        match self.entering.take(length, link, heading, local) {
            Ok((vl, cycle)) => Arrival::Delivered(vl, cycle),
            Err(reason) => Arrival::Dropped(reason),
        }
    }

    /// Keeps a frame that is heard within its time or outside it.
    fn keep(&mut self, moment: Moment, link: LinkId, frame: &Pcf, point: Units, within: bool)
        ensures { Keeps self.old moment link frame.now point within self.new }
    {
        let heard = HeardFrame {
            cycle: frame.cycle,
            members: frame.members,
            point,
        };
        self.last = moment;
        self.heard.hear(self.own.channel(link), heard, within);
    }

    /// Takes the time from a frame.
    fn join(&mut self, moment: Moment, frame: &Pcf, point: Units)
        requires { MayJoin self.old moment frame.now point }
        ensures { Joins self.old moment frame.now point self.new }
    {
        self.last = moment;
        let _joined = self.sync.integrate(frame, point);
        self.heard.clear();
        self.agenda = self.agenda_anew();
    }
}

impl Machine for EndSystem {
    ghost use Rattle.end_system.specs.Standing.{StandsAsEnd};

    ghost stands = { StandsAsEnd };

    fn due(&self) -> Option<Units> {
        self.agenda.next_reading()
    }

    fn act(&mut self, moment: Moment) -> Act {
        match self.agenda.due(moment.reading) {
            Some(Due::Sending(sending)) => self.send(moment, sending),
            Some(Due::Correction(correction)) => self.correct(moment, correction),
            Some(Due::Dispatch(dispatch)) => self.dispatch(moment, dispatch),
            None => Act::Correct(0, Verdict::Cleared),
        }
    }

    fn hear(&mut self, moment: Moment, link: LinkId, octets: &[u8]) -> Arrival {
        if is_off(self.sync.state()) {
            self.last = moment;
            return Arrival::Dropped(Reason::Off);
        }
        if is_pcf(octets) {
            self.hear_control(moment, link, decode(octets))
        } else {
            self.hear_timed(moment, link, &Heading::of(octets))
        }
    }

    fn ripen(&mut self, moment: Moment, link: LinkId, frame: &Pcf, point: Units) -> Ripe {
        if is_off(self.sync.state()) {
            return Ripe::Ignored;
        }
        match heard_as(&self.own, &self.sync, frame, point) {
            Ripe::Within => {
                self.keep(moment, link, frame, point, true);
                Ripe::Within
            }
            Ripe::Outside => {
                self.keep(moment, link, frame, point, false);
                Ripe::Outside
            }
            Ripe::Integrates => {
                self.join(moment, frame, point);
                Ripe::Integrates
            }
            _ => {
                self.last = moment;
                Ripe::Ignored
            }
        }
    }

    fn turn_on(&mut self) {
        if is_off(self.sync.state()) {
            self.sync.on();
        }
    }

    fn state(&self) -> State {
        self.sync.state()
    }

    fn adjustment(&self) -> Units {
        self.sync.adjustment()
    }
}

impl TellsKind for EndSystem {
    fn hear_pcf(&mut self, moment: Moment, link: LinkId, frame: &Pcf) -> Arrival {
        if is_off(self.sync.state()) {
            self.last = moment;
            return Arrival::Dropped(Reason::Off);
        }
        self.hear_control(moment, link, Ok(*frame))
    }

    fn hear_heading(&mut self, moment: Moment, link: LinkId, heading: &Heading) -> Arrival {
        if is_off(self.sync.state()) {
            self.last = moment;
            return Arrival::Dropped(Reason::Off);
        }
        self.hear_timed(moment, link, heading)
    }

    fn first_kind(&self, reading: Units) -> TaskKind {
        match self.agenda.due(reading) {
            Some(Due::Sending(_)) => TaskKind::Sending,
            Some(Due::Correction(_)) => TaskKind::Correction,
            Some(Due::Dispatch(_)) => TaskKind::Dispatch,
            None => TaskKind::Dispatch,
        }
    }
}
