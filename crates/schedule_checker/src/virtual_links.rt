ghost use Rattle.std.specs.{List.Contains, Prelude.{◌<◌, ◌↔◌, ◌∷◌, ◌≡◌, IsTrue, Some, [], length, slice_get}};
ghost use Rattle.schedule_tables.specs.Schedule.{HasEndSystemAsSender, HasPeriod, VlIdIsNew, VlNameIsNew};

use crate::roles::is_end_system;
use net_plan::{Network, VirtualLink};

/// The periods that a virtual link may have, in cycles.
const PERIODS: [u32; 7] = [1, 2, 4, 8, 16, 32, 64];

/// Has no virtual link before the one at the place its name?
pub(crate) fn vl_name_is_new(network: &Network, place: u32) -> bool
    requires { place < length network.now.vl }
    ensures { IsTrue result ↔ VlNameIsNew network.now place }
{
    let vl = vl_at(network, place);
    network
        .vl
        .as_slice()
        .iter()
        .take(place as usize)
        .all(|earlier| !share_name(earlier, vl))
}

/// Have the two virtual links one name?
fn share_name(vl: &VirtualLink, other: &VirtualLink) -> bool
    ensures { IsTrue result ↔ (vl.now.name ≡ other.now.name) }
{
    vl.name == other.name
}

/// Has no virtual link before the one at the place its id?
pub(crate) fn vl_id_is_new(network: &Network, place: u32) -> bool
    requires { place < length network.now.vl }
    ensures { IsTrue result ↔ VlIdIsNew network.now place }
{
    let vl = vl_at(network, place);
    network
        .vl
        .as_slice()
        .iter()
        .take(place as usize)
        .all(|earlier| earlier.id != vl.id)
}

/// Is the virtual link's period one of `PERIODS`, and its phase one of the period's cycles?
pub(crate) fn has_period(network: &Network, place: u32) -> bool
    requires { place < length network.now.vl }
    ensures { IsTrue result ↔ HasPeriod network.now place }
{
    let vl = vl_at(network, place);
    is_period(vl.period) && vl.phase < vl.period
}

/// Is this one of `PERIODS`?
fn is_period(period: u32) -> bool
    ensures { IsTrue result ↔ Contains (1 ∷ 2 ∷ 4 ∷ 8 ∷ 16 ∷ 32 ∷ 64 ∷ []) period }
{
    PERIODS.contains(&period)
}

/// Is the virtual link's sender an end system?
pub(crate) fn has_end_system_as_sender(network: &Network, place: u32) -> bool
    requires { place < length network.now.vl }
    ensures { IsTrue result ↔ HasEndSystemAsSender network.now place }
{
    is_end_system(network, vl_at(network, place).sender)
}

/// The virtual link at the place.
fn vl_at(network: &Network, place: u32) -> &VirtualLink
    requires { place < length network.now.vl }
    ensures { slice_get network.now.vl place ≡ Some result.now }
{
    &network.vl.as_slice()[place as usize]
}
