ghost use Rattle.std.specs.Prelude.{◌<ℤ◌, ◌≡◌, ◌≤ℤ◌, IfSome, IsFalse, IsSomeAnd, IsTrue};
ghost use Rattle.switch_ports.specs.Due.{least_of};

use crate::{Site, Switch};
use device_rules::{Heading, TaskKind, TellsKind, is_off};
use net_plan::LinkId;
use pcf_codec::is_pcf;
use run_law::{Act, Arrival, Machine, Moment, Ripe};
use sync_state::{State, Verdict};
use tte_units::Units;
use tte_units::frames::{Members, Pcf};

impl Machine for Switch {
    ghost use Rattle.switch_ports.specs.Standing.{StandsAs};

    ghost stands = { StandsAs };

    fn due(&self) -> Option<Units> {
        let clocked = least(self.corrects_at, self.departures.due());
        least(self.collector.due(), clocked)
    }

    fn act(&mut self, moment: Moment) -> Act {
        if is_reached(self.collector.due(), moment.reading) {
            let sent = self.collector.emit();
            let frame = self.site.frame_of(sent.cycle, sent.members);
            let channel = Some(self.site.channel);
            let heard = self.hear_frame(moment, channel, &frame, sent.at);
            return Act::Emit(sent, heard);
        }
        if !is_reached(self.corrects_at, moment.reading) {
            return self.dispatch();
        }
        match self.sync.next_correction() {
            Some(cycle) => Act::Correct(cycle, self.correct(moment)),
            None => Act::Correct(0, Verdict::Cleared),
        }
    }

    fn hear(&mut self, moment: Moment, link: LinkId, octets: &[u8]) -> Arrival {
        let at = self.standpoint(moment);
        if is_pcf(octets) {
            self.site.control_arrival(&at, link, octets)
        } else {
            self.hear_timed(&at, link, &Heading::of(octets))
        }
    }

    fn ripen(&mut self, moment: Moment, link: LinkId, frame: &Pcf, point: Units) -> Ripe {
        if self.site.is_relay {
            let channel = self.site.port(link).channel;
            self.hear_frame(moment, channel, frame, point)
        } else {
            let at = self.standpoint(moment);
            if is_off(at.state) {
                return Ripe::Ignored;
            }
            match self.site.point_fault(&at, frame.cycle, point) {
                Some(reason) => Ripe::Dropped(reason),
                None => self.collect(frame, point),
            }
        }
    }

    fn turn_on(&mut self) {
        if self.sync.state() == State::Off {
            self.sync.on();
        }
    }

    fn state(&self) -> State {
        self.sync.state()
    }

    fn adjustment(&self) -> Units {
        self.sync.adjustment()
    }
}

impl TellsKind for Switch {
    fn hear_pcf(&mut self, moment: Moment, link: LinkId, frame: &Pcf) -> Arrival {
        let at = self.standpoint(moment);
        self.site.frame_arrival(&at, link, frame)
    }

    fn hear_heading(&mut self, moment: Moment, link: LinkId, heading: &Heading) -> Arrival {
        let at = self.standpoint(moment);
        self.hear_timed(&at, link, heading)
    }

    fn first_kind(&self, reading: Units) -> TaskKind {
        if is_reached(self.collector.due(), reading) {
            return TaskKind::Emission;
        }
        if is_reached(self.corrects_at, reading) {
            return TaskKind::Correction;
        }
        TaskKind::Dispatch
    }
}

impl Site {
    /// The frame that a compression master sends for a collection.
    fn frame_of(&self, cycle: u32, members: Members) -> Pcf
        ensures { result ≡ record self.now.frame { cycle = cycle; members = members } }
    {
        Pcf {
            cycle,
            members,
            ..self.frame
        }
    }
}

/// The less of two readings that may be there.
fn least(a: Option<Units>, b: Option<Units>) -> Option<Units>
    ensures { result ≡ least_of a b }
{
    match (a, b) {
        (Some(a), Some(b)) if a.0 <= b.0 => Some(a),
        (Some(a), None) => Some(a),
        (_, b) => b,
    }
}

/// Is the reading that is due, if there is one, reached?
fn is_reached(due: Option<Units>, reading: Units) -> bool
    ensures reached { IsTrue result → IsSomeAnd due (λ at. at.0 ≤ℤ reading.0) }
    ensures later { IsFalse result → IfSome due (λ at. reading.0 <ℤ at.0) }
{
    match due {
        Some(at) => at.0 <= reading.0,
        None => false,
    }
}
