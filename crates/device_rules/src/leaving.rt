//! How protocol control frames leave.

ghost use Rattle.std.specs.Prelude.{◌-◌, ◌≡◌, ℕ};
ghost use Rattle.net_plan.specs.{Ranges.IsInRange, declared.ids.{DeviceId.DeviceId, LinkId.LinkId}};
ghost use Rattle.tte_units.specs.declared.frames.pcf.Pcf.{Pcf};
ghost use Rattle.run_law.specs.{control.Leaving.departure, scenario.{Scenarios.Scenario, Ways.{is_cut, way_from}}};
ghost use Rattle.device_rules.specs.Answers.{departure_as};

use net_plan::Network;

/// What becomes of a protocol control frame at its leaving.
#[derive(Clone, Copy, PartialEq, Eq)]
pub enum Departed {
    /// It leaves with this transparent clock.
    Leaves(u64),
    /// It has been on its way for too long.
    TooOld,
    /// Its way is cut.
    OnCutWay,
}

/// What becomes of a frame that leaves: it was given to the link with this transparent clock, the reading has grown by
/// so much since, and its way is cut or not.
pub fn departure(network: &Network, clock: u64, grown: u64, cut: bool) -> Departed
    requires { IsInRange network.now }
    ensures { (s : Scenario) (device : DeviceId) (link : LinkId) (frame : Pcf) (given t : ℕ) → s.network ≡ network.now
        → frame.clock ≡ clock → (s.reading device t - s.reading device given) ≡ grown
        → is_cut s link (way_from s.network device link) t ≡ cut
        → departure_as result ≡ departure s device link frame given t }
{
    let shown = u128::from(clock) + u128::from(grown);
    if u128::from(network.dmax.amount()) < shown {
        Departed::TooOld
    } else if cut {
        Departed::OnCutWay
    } else {
        Departed::Leaves(shown as u64)
    }
}
