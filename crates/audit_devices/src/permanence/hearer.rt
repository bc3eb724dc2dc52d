ghost use Rattle.std.specs.Prelude.{◌↔◌, ◌≡◌, List, Some, true};
ghost use Rattle.audit_devices.specs.{permanence.Hearers.{Collects, IsHearer, IsMoment}, stretches.Points.HasPoints};
ghost use Rattle.{compression.specs.Clusters.{Point, point_at}, run_law.specs.scenario.Devices.{is_cm, plan_of}};
ghost use Rattle.{device_rules.specs.Widths.IsWide, net_plan.specs.Ranges.IsInRange};
ghost use Rattle.run_law.specs.control.Collections.{master_of, observation_window, point_fault, points_of};
ghost use Rattle.run_law.specs.{control.{Emissions.Emits, Hearing.heard_as}, scenario.Scenarios.Scenario};
ghost use Rattle.run_law.specs.{control.Permanence.{IsCollectedOrDropped, IsJudgedBy}, records.Happenings.Happening};

use crate::Readings;
use crate::permanence::reach::reaches;
use crate::permanence::ripes::{ripe_as, ripe_by_role};
use crate::stretches::Stretch;
use compression::Compressed;
use device_rules::{heard_as, is_cm, point_fault};
use net_plan::{DeviceId, Network};
use run_law::{Judgement, Ripe};
use sync_state::State;
use tte_units::Units;
use tte_units::frames::{Members, Pcf};

/// Where a device stands as it hears a frame.
///
/// The adjustment lies from -2^80 to 2^80.
#[derive(Clone, Copy)]
pub struct Hearer<'a> {
    pub network: &'a Network,
    pub device: DeviceId,
    pub state: State,
    pub adjustment: i128,
}

impl Hearer<'_> {
    /// What becomes of a frame that is permanent at its point.
    pub fn ripening(&self, stretch: &Stretch<'_>, frame: &Pcf, point: Units) -> Ripe
        requires range { IsInRange self.now.network.now }
        requires adjustment { IsWide self.now.adjustment }
        ensures { (s : Scenario) (judged : List Happening) (t : _) → IsHearer s judged t self.now
            → Collects self.now (points_of judged self.now.device) stretch.now
            → (is : Ripe) → (is ≡ result) ↔ IsJudgedBy s judged self.now.device t frame.now point is }
    {
        if is_cm(self.network, self.device) {
            self.collected(stretch, frame, point)
        } else {
            ripe_as(self.heard(point, frame.cycle, frame.members))
        }
    }

    // What becomes of a frame at a compression master, behind the points of its stretch.
    fn collected(&self, stretch: &Stretch<'_>, frame: &Pcf, point: Units) -> Ripe
        requires range { IsInRange self.now.network.now }
        requires adjustment { IsWide self.now.adjustment }
        ensures { (points : List Point)
            → HasPoints self.now.network.now points stretch.now.collections.now stretch.now.gathering
            → (is : Ripe) → (is ≡ result) ↔ IsCollectedOrDropped self.now.network.now points
            (point_at point.0 (master_of frame.now.members.0) frame.now.cycle)
            (point_fault self.now.network.now self.now.state self.now.adjustment point.0 frame.now.cycle) is }
    {
        let at = i128::from(point.0);
        match point_fault(self.network, self.state, self.adjustment, at, frame.cycle) {
            Some(reason) => Ripe::Dropped(reason),
            None => ripe_by_role(stretch.role(point, frame.members, frame.cycle)),
        }
    }

    // How it hears a frame of this cycle and these members at the point.
    fn heard(&self, point: Units, cycle: u32, members: Members) -> Judgement
        requires range { IsInRange self.now.network.now }
        requires adjustment { IsWide self.now.adjustment }
        ensures { result ≡ heard_as (plan_of self.now.network.now self.now.device)
            (observation_window self.now.network.now) self.now.state self.now.adjustment point.0 cycle members }
    {
        heard_as(
            self.network,
            self.device,
            self.state,
            self.adjustment,
            i128::from(point.0),
            cycle,
            members,
        )
    }

    /// How a compression master hears what it sends for a cluster of its stretch at the time, if it sends this then.
    pub fn emission(
        &self,
        stretch: &Stretch<'_>,
        sent: &Compressed,
        time: u64,
        readings: Readings,
        broken: bool,
    ) -> Option<Judgement>
        requires range { IsInRange self.now.network.now }
        requires adjustment { IsWide self.now.adjustment }
        requires gathered { is_cm self.now.network.now self.now.device ≡ true → (points : List Point)
            × HasPoints self.now.network.now points stretch.now.collections.now stretch.now.gathering }
        ensures { (s : Scenario) (hs : List Happening) → IsHearer s hs time self.now
            → Collects self.now (points_of hs self.now.device) stretch.now → IsMoment s time self.now readings broken
            → (verdict : Judgement) → (result ≡ Some verdict) ↔ Emits s hs self.now.device time sent.now verdict }
    {
        if broken || !is_cm(self.network, self.device) {
            return None;
        }
        if !stretch.sends(sent) || !reaches(time, readings, sent.at) {
            return None;
        }
        Some(self.heard(sent.at, sent.cycle, sent.members))
    }
}
