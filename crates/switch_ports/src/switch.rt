ghost use Rattle.std.specs.Int.{trailing_zeros, w32};
ghost use Rattle.std.specs.Prelude.{◌+ℤ◌, ◌+◌, ◌-ℤ◌, ◌<ℤ◌, ◌<◌, ◌^◌, ◌≡◌, ◌≢◌, ◌≤ℤ◌, ◌≤◌, ◌⊎◌, All, IfOk, IfSome};
ghost use Rattle.std.specs.Prelude.{IsSomeAnd, IsTrue, [], false, length, option_and_then, pos, true};
ghost use Rattle.sync_state.specs.correction.Deviation.{IsSmall};
ghost use Rattle.compression.specs.{Collecting.emissions, Role.{has_point_of, open_at}};
ghost use Rattle.net_plan.specs.Ranges.{IsInRange, IsWithin};
ghost use Rattle.run_law.specs.control.{Collections.master_of, Hearing.{heard_as, last_cycle}, Permanence.ripe_as};
ghost use Rattle.run_law.specs.machines.Nodes.{begun_node};
ghost use Rattle.schedule_tables.specs.Schedule.{IsSwitch};
ghost use Rattle.sync_state.specs.{Integration.Integrates, Standing.next_point, Verdicts.IsNear};
ghost use Rattle.switch_ports.specs.{Corrections.correction_at, Standing.StandsAs, Steps.{IsClearedSo, Joins}};
ghost use Rattle.switch_ports.specs.{Departing.{IsAwaitedSo, IsReady}, Standpoints.{IsPoint, IsSiteInRange}};
ghost use Rattle.switch_ports.specs.Steps.{CollectsSo, Corrects, DispatchesSo, Hears, HearsSo, IsChangedSo};

use crate::departures::Departures;
use crate::standpoint::local;
use crate::{Site, Standpoint};
use compression::{Collector, Taken};
use device_rules::{Intake, is_synchronised, start_of};
use net_plan::{DeviceId, Network};
use run_law::{Act, Moment, Reason, Ripe};
use schedule_tables::{Accepted, OutOfMemory};
use std::alloc::Global;
use sync_state::membership::{Heard, HeardFrame};
use sync_state::{Sync, Verdict};
use tte_units::Units;
use tte_units::frames::{Channel, Pcf};

/// A switch: a relay, or a channel's compression master. Readings, local values and adjustments are in
/// units of 2^-16 ns.
#[derive(Drop)]
pub struct Switch {
    pub(crate) site: Site,
    pub(crate) intake: Intake,
    pub(crate) sync: Sync,
    pub(crate) heard: Heard,
    /// What a compression master collects. A relay's stays empty.
    pub(crate) collector: Collector,
    /// What the local clock showed right after the last change of its adjustment.
    pub(crate) changed: Units,
    /// The reading at which the next correction point comes, if it does.
    pub(crate) corrects_at: Option<Units>,
    /// The rows that it dispatches.
    pub(crate) departures: Departures,
}

impl Switch {
    /// The switch of an accepted network, at the beginning.
    ///
    /// Fails when memory runs out. No later call takes memory.
    pub fn new(alloc: Global, accepted: &Accepted, device: DeviceId) -> Result<Switch, OutOfMemory>
        requires { IsSwitch accepted.now device }
        ensures { IfOk result (λ switch. StandsAs switch accepted.now device (begun_node accepted.now device)) }
    {
        let network = accepted.network();
        let site = Site::new(alloc, network, device)?;
        let intake = Intake::new(alloc, network, device)?;
        let departures = Departures::new(alloc, network, device)?;
        let sync = Sync::new(site.plan, start_of(network, device));
        let collector = Collector::new(site.precision, site.calc);
        let changed = sync.adjustment();
        let corrects_at = site.next_correction_at(&sync, changed);
        Ok(Switch {
            site,
            intake,
            sync,
            heard: Heard::new(),
            collector,
            changed,
            corrects_at,
            departures,
        })
    }

    /// Where it stands at the moment.
    pub(crate) fn standpoint(&self, moment: Moment) -> Standpoint
        ensures state { result.state ≡ self.now.sync.state }
        ensures reading { result.reading ≡ moment.reading }
        ensures adjustment { result.adjustment ≡ self.now.sync.adjustment }
    {
        Standpoint {
            state: self.sync.state(),
            reading: moment.reading,
            adjustment: self.sync.adjustment(),
        }
    }

    /// Hears a frame that came by the channel.
    pub(crate) fn hear_frame(
        &mut self,
        moment: Moment,
        channel: Option<Channel>,
        frame: &Pcf,
        point: Units,
    ) -> Ripe
        requires site { IsSiteInRange self.old.site }
        requires plan { self.old.sync.plan ≡ self.old.site.plan }
        requires small { IsSmall self.old.sync.adjustment.0 }
        requires point { IsPoint point }
        requires reading { IsWithin 0 (2 ^ 60 + 2 ^ 51) moment.reading }
        ensures is { result ≡ ripe_as (heard_as self.old.site.plan self.old.site.precision.0 self.old.sync.state
            self.old.sync.adjustment.0 point.0 frame.now.cycle frame.now.members) }
        ensures hears { HearsSo self.old moment channel frame.now point self.new result }
    {
        let ripe = self.site.hearing(
            self.sync.state(),
            self.sync.adjustment(),
            point,
            frame.cycle,
            frame.members,
        );
        match ripe {
            Ripe::Within => self.note(channel, frame, point, true),
            Ripe::Outside => self.note(channel, frame, point, false),
            Ripe::Integrates => self.join(moment, frame, point),
            Ripe::Ignored | Ripe::Opened | Ripe::Joined | Ripe::Repeat | Ripe::Dropped(_) => {}
        }
        ripe
    }

    /// Keeps a frame that came by the channel, within its time or outside it.
    fn note(&mut self, channel: Option<Channel>, frame: &Pcf, point: Units, within: bool)
        ensures { Hears self.old channel frame.now point within self.new }
    {
        if let Some(channel) = channel {
            let heard = HeardFrame {
                cycle: frame.cycle,
                members: frame.members,
                point,
            };
            self.heard.hear(channel, heard, within);
        }
    }

    /// Takes the time from a frame that tells it, and begins anew.
    fn join(&mut self, moment: Moment, frame: &Pcf, point: Units)
        requires site { IsSiteInRange self.old.site }
        requires plan { self.old.sync.plan ≡ self.old.site.plan }
        requires point { IsPoint point }
        requires reading { IsWithin 0 (2 ^ 60 + 2 ^ 51) moment.reading }
        ensures { Integrates self.old.sync frame.now → Joins self.old moment frame.now point self.new }
    {
        let Some(joined) = self.sync.integrate(frame, point) else {
            return;
        };
        self.heard.clear();
        self.collector.clear();
        self.departures.stop();
        self.changed = local(moment.reading, joined.adjustment);
        self.corrects_at = self
            .site
            .correction_at(joined.cycle, joined.adjustment, self.changed);
    }

    /// Collects the frame of one master at its point.
    pub(crate) fn collect(&mut self, frame: &Pcf, point: Units) -> Ripe
        requires order { self.old.collector.earliest ≤ℤ point.0 }
        requires point { IsPoint point }
        requires master { trailing_zeros w32 frame.now.members.0 < 32 }
        requires due { All (λ at. (point.0 -ℤ self.old.collector.ow) <ℤ at) (emissions self.old.collector) }
        requires room { IfSome (open_at self.old.collector.waiting point.0)
            (λ c. IsTrue (has_point_of c (master_of frame.now.members.0)) ⊎ (length c.points < 8)) }
        ensures { CollectsSo self.old frame.now point self.new result }
    {
        let master = frame.members.0.trailing_zeros();
        match self.collector.point(point, master, frame.cycle) {
            Taken::Opened => Ripe::Opened,
            Taken::Joined => Ripe::Joined,
            Taken::Repeat => Ripe::Repeat,
            Taken::OtherCycle => Ripe::Dropped(Reason::Cycle),
        }
    }

    /// Comes to the next correction point, where it has one.
    pub(crate) fn correct(&mut self, moment: Moment) -> Verdict
        requires site { IsSiteInRange self.old.site }
        requires number { IsSomeAnd (next_point self.old.sync) (λ n. n ≤ last_cycle + 2) }
        requires near_a { IfSome self.old.heard.best_a (IsNear self.old.sync) }
        requires near_b { IfSome self.old.heard.best_b (IsNear self.old.sync) }
        requires small { IsSmall self.old.sync.adjustment.0 }
        requires reading { IsWithin 0 (2 ^ 60 + 2 ^ 51) moment.reading }
        requires ready { IsReady self.old.departures }
        ensures { Corrects self.old moment result self.new }
    {
        let was_synchronised = is_synchronised(self.standpoint(moment).state);
        let verdict = self.sync.at_correction(&self.heard);
        self.heard.clear();
        self.follow(moment, verdict, was_synchronised);
        self.await_correction();
        self.await_dispatch(verdict);
        verdict
    }

    /// Keeps what the clock shows once it is corrected. A joiner's first correction, and a clique,
    /// end the collection.
    fn follow(&mut self, moment: Moment, verdict: Verdict, was_synchronised: bool)
        requires small { IsSmall self.old.sync.adjustment.0 }
        requires reading { IsWithin 0 (2 ^ 60 + 2 ^ 51) moment.reading }
        ensures rest { self.new ≡ record self.old { changed = self.new.changed; collector = self.new.collector } }
        ensures changed { IsChangedSo self.old.changed (moment.reading.0 +ℤ self.old.sync.adjustment.0) verdict
            self.new.changed }
        ensures collector { IsClearedSo was_synchronised self.old.collector verdict self.new.collector }
    {
        match verdict {
            Verdict::Corrected(_) => {
                self.changed = local(moment.reading, self.sync.adjustment());
                if !was_synchronised {
                    self.collector.clear();
                }
            }
            Verdict::SyncClique => self.collector.clear(),
            Verdict::AsyncClique => self.collector.clear(),
            Verdict::Cleared => {}
        }
    }

    /// Tells when the next correction point comes.
    fn await_correction(&mut self)
        requires site { IsSiteInRange self.old.site }
        requires number { IfSome (next_point self.old.sync) (λ n. n ≤ last_cycle + 3) }
        requires small { IsSmall self.old.sync.adjustment.0 }
        ensures { self.new ≡ record self.old {
          corrects_at = option_and_then
              (λ cycle. correction_at self.old.site cycle self.old.sync.adjustment.0 self.old.changed.0)
              (next_point self.old.sync);
        } }
    {
        self.corrects_at = self.site.next_correction_at(&self.sync, self.changed);
    }

    /// Tells which dispatch comes next, after a correction point.
    fn await_dispatch(&mut self, verdict: Verdict)
        requires ready { IsReady self.old.departures }
        requires small { IsSmall self.old.sync.adjustment.0 }
        ensures rest { self.new ≡ record self.old { departures = self.new.departures } }
        ensures is { IsAwaitedSo self.old.departures self.old.changed.0 self.old.sync.adjustment.0 verdict
            self.new.departures }
    {
        match verdict {
            Verdict::Corrected(_) => self.departures.reopen(self.changed, self.sync.adjustment()),
            Verdict::SyncClique => self.departures.stop(),
            Verdict::AsyncClique => self.departures.stop(),
            Verdict::Cleared => {}
        }
    }

    /// Does the dispatch that comes next, where one does.
    pub(crate) fn dispatch(&mut self) -> Act
        requires place { IfSome self.old.departures.next
            (λ next. next.place < length self.old.departures.rows.items) }
        requires ready { IsReady self.old.departures }
        requires small { IsSmall self.old.sync.adjustment.0 }
        ensures { DispatchesSo self.old self.old.departures.next result self.new }
    {
        let Some(next) = self.departures.next else {
            return Act::Correct(0, Verdict::Cleared);
        };
        self.departures.close(next.place, self.sync.adjustment());
        Act::Dispatch(next.row, next.cycle)
    }
}
