ghost use Rattle.std.specs.{List.All, Prelude.{◌*◌, ◌+◌, ◌<◌, ◌^◌, ◌↔◌, ◌≡◌, ◌≤ℤ◌, ◌≤◌, IsTrue, length, pos}};
ghost use Rattle.{net_plan.specs.{Bounds.IsBeta, Paths.IsTree, Ranges.IsInRange}, tte_units.specs.Amount.amount};
ghost use Rattle.{schedule_checker.specs.Timing.{DelaysFitOn, errors_of}, schedule_tables.specs.Entries.AreEntries};
ghost use Rattle.schedule_tables.specs.Delays.{CorrectionFits, DelaysFit, ErrorsSettle, PrecisionFits, ScheduleFits};
ghost use Rattle.schedule_tables.specs.{Delays.{delay_of, delay_on, pcf_port_time}, Schedule.EndsInCycle};

use net_plan::{DeviceId, Link, LinkId, Network, Path, beta_is_unique, paths_are_unique};
use schedule_tables::{Entry, entries_law, window_of};
use tte_units::frames::Channel;
use tte_units::{Units, octets};

/// The octets for which a protocol control frame occupies a port: its own 60, and 24 of preamble,
/// delimiter, check sequence and gap (IEEE 802.3).
const PCF_OCTETS: u32 = 84;

/// Has dmax room for beta and for the delays of the device's path, on each of its channels?
pub(crate) fn delays_fit(network: &Network, beta: Units, place: u32) -> bool
    requires range { IsInRange network.now }
    requires tree { IsTree network.now }
    requires beta { IsBeta network.now beta.0 }
    requires place { place < length network.now.device }
    ensures { IsTrue result ↔ DelaysFit network.now place }
{
    beta_is_unique();
    let beta = beta.amount();
    let device = DeviceId(place);
    delays_fit_on(network, beta, device, Channel::A)
        && delays_fit_on(network, beta, device, Channel::B)
}

/// Has dmax room for beta and for the delays of the device's path on the channel? A device that is not
/// of the channel has no path on it.
fn delays_fit_on(network: &Network, beta: u64, device: DeviceId, channel: Channel) -> bool
    requires range { IsInRange network.now }
    requires tree { IsTree network.now }
    requires beta { beta < 2 ^ 63 }
    ensures { IsTrue result ↔ DelaysFitOn network.now beta channel device }
{
    paths_are_unique();
    !network.is_device_of(device, channel)
        || beta + delay_on(network, &network.path(device, channel)) <= network.dmax.amount()
}

/// How long the links of the path delay a frame together at most.
pub fn delay_on(network: &Network, path: &Path) -> u64
    requires { IsInRange network.now }
    ensures value { result ≡ delay_on network.now path.now }
    ensures bound { result ≤ 24 * 2 ^ 40 }
{
    let mut delay = 0;
    for link in path.as_slice() {
        delay += delay_of(network, *link);
    }
    delay
}

/// How long the link delays a frame at most: its wire, its jitter and its hold.
fn delay_of(network: &Network, link: LinkId) -> u64
    requires { IsInRange network.now }
    ensures value { result ≡ delay_of network.now link }
    ensures bound { result ≤ 3 * 2 ^ 40 }
{
    match network.link.as_slice().get(link.0 as usize) {
        Some(found) => found.wire.amount() + found.jitter.amount() + found.hold.amount(),
        None => 0,
    }
}

/// How far the errors of a resynchronisation may spread the clocks: `8*beta + 12*gamma + 40*grain`,
/// in units of 2^-16 ns.
fn errors_of(network: &Network, beta: Units) -> u128
    requires range { IsInRange network.now }
    requires whole { pos 0 ≤ℤ beta.0 }
    ensures value { result ≡ errors_of network.now (amount beta) }
    ensures bound { result < 2 ^ 70 }
{
    let roundings = 12 * network.gamma().amount() + 40 * network.grain.amount();
    8 * u128::from(beta.amount()) + u128::from(roundings)
}

/// Has the spread of the starts room for the errors of a resynchronisation?
pub(crate) fn errors_settle(network: &Network, beta: Units) -> bool
    requires range { IsInRange network.now }
    requires beta { IsBeta network.now beta.0 }
    ensures { IsTrue result ↔ ErrorsSettle network.now }
{
    beta_is_unique();
    errors_of(network, beta) <= u128::from(network.settled.amount())
}

/// Has the precision room for the spread of the starts with twice the errors of a
/// resynchronisation, and for a compression?
pub(crate) fn precision_fits(network: &Network, beta: Units) -> bool
    requires range { IsInRange network.now }
    requires beta { IsBeta network.now beta.0 }
    ensures { IsTrue result ↔ PrecisionFits network.now }
{
    beta_is_unique();
    let errors = 2 * errors_of(network, beta);
    u128::from(network.settled.amount()) + errors <= u128::from(network.precision.amount())
        && network.calc.amount() <= network.precision.amount()
}

/// Has each frame of a cycle been heard when the clocks are corrected?
pub(crate) fn correction_fits(network: &Network) -> bool
    requires { IsInRange network.now }
    ensures { IsTrue result ↔ CorrectionFits network.now }
{
    2 * network.dmax.amount() + network.calc.amount() + 10 * network.precision.amount()
        <= network.correction.amount()
}

/// Does the schedule begin behind the correction and the last protocol control frame on any link, and
/// before the cycle's end?
pub(crate) fn schedule_fits(network: &Network) -> bool
    requires { IsInRange network.now }
    ensures { IsTrue result ↔ ScheduleFits network.now }
{
    let start = network.tt_start.amount();
    let spread = 4 * network.precision.amount();
    let heard = network.correction.amount() + network.dmax.amount() + spread;
    begins_behind(network, heard, start) && start + spread <= network.cycle.amount()
}

/// Does the schedule begin behind what was heard and the last protocol control frame on any link?
fn begins_behind(network: &Network, heard: u64, start: u64) -> bool
    requires bound { heard ≤ 2 ^ 43 }
    requires heard { heard ≡ amount network.now.correction + amount network.now.dmax
        + 4 * amount network.now.precision }
    requires start { start ≡ amount network.now.tt_start }
    ensures { IsTrue result ↔ All (λ link. amount network.now.correction + amount network.now.dmax
        + 4 * amount network.now.precision + pcf_port_time link ≤ amount network.now.tt_start) network.now.link }
{
    network
        .link
        .as_slice()
        .iter()
        .all(|link| heard + pcf_port_time(link) <= start)
}

/// How long a protocol control frame occupies the port of the link.
pub fn pcf_port_time(link: &Link) -> u64
    ensures value { result ≡ pcf_port_time link.now }
    ensures bound { result ≤ 2 ^ 30 }
{
    octets(link.speed, PCF_OCTETS).amount()
}

/// Does the row's window end before the cycle does, with room for the precision?
pub(crate) fn ends_in_cycle(network: &Network, entries: &[Entry], place: u32) -> bool
    requires range { IsInRange network.now }
    requires entries { AreEntries network.now entries.now }
    requires place { place < length network.now.row }
    ensures { IsTrue result ↔ EndsInCycle network.now place }
{
    entries_law();
    let window = window_of(network, &entries[place as usize]);
    window.to.amount() + 4 * network.precision.amount() <= network.cycle.amount()
}
