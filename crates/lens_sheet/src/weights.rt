//! What the rules of a network's times weigh.
ghost use Rattle.std.specs.Prelude.{◌*◌, ◌+◌, ◌/◌, ◌^◌, ◌≡◌, ◌≤◌, length, max};
ghost use Rattle.lens_sheet.specs.Weights.{AreSmall, AreWeights, beta_of};
ghost use Rattle.net_plan.specs.Bounds.{IsGreatest, IsOfPath, IsOfPathFrom, IsOfPathOn, jitter_on};
ghost use Rattle.{net_plan.specs.{Paths.IsTree, Ranges.IsInRange}, tte_units.specs.Amount.amount};

use lens_slack::least::{greatest_start, longest_delay, slowest_port};
use net_plan::{DeviceId, Network};
use tte_units::frames::Channel;

/// What the rules of a network's times weigh, in units of 2^-16 ns, and the links of its longest path.
#[derive(Clone, Copy)]
pub struct Weights {
    /// The greatest sum of jitters of a path.
    pub jitter: u64,
    /// The greatest count of links of a path.
    pub links: u64,
    /// The longest delay of a path.
    pub delay: u64,
    /// The greatest start of a device.
    pub start: u64,
    /// How long a protocol control frame occupies the slowest port.
    pub control: u64,
}

/// What the rules of the network's times weigh.
pub(crate) fn weights_of(network: &Network) -> Weights
    requires range { IsInRange network.now }
    requires tree { IsTree network.now }
    ensures weigh { AreWeights network.now result }
    ensures small { AreSmall result }
{
    let links = most_links(network);
    Weights {
        jitter: greatest_jitter(network, links),
        links,
        delay: longest_delay(network),
        start: greatest_start(network),
        control: slowest_port(network),
    }
}

/// How far two clocks drift apart over dmax.
pub(crate) fn drift_of(network: &Network) -> u64
    requires { IsInRange network.now }
    ensures value { result ≡ 4 * network.now.rho * amount network.now.dmax / 10 ^ 9 }
    ensures bound { result ≤ 2 ^ 40 }
{
    4 * u64::from(network.rho) * network.dmax.amount() / 1_000_000_000
}

/// The roundings of readings over a path of so many links and two more places.
pub(crate) fn roundings_over(network: &Network, links: u64) -> u64
    requires range { IsInRange network.now }
    requires few { links ≤ 8 }
    ensures value { result ≡ 8 * amount network.now.grain * (links + 2) }
    ensures bound { result ≤ 2 ^ 40 }
{
    8 * network.grain.amount() * (links + 2)
}

/// Beta, by its parts.
pub(crate) fn beta_of(network: &Network, weights: &Weights) -> u64
    requires range { IsInRange network.now }
    requires small { AreSmall weights.now }
    ensures value { result ≡ beta_of network.now weights.now }
    ensures bound { result ≤ 2 ^ 45 }
{
    weights.jitter + drift_of(network) + roundings_over(network, weights.links)
}

/// The greatest sum of jitters of a path: what beta has beside the drift and the roundings.
fn greatest_jitter(network: &Network, links: u64) -> u64
    requires range { IsInRange network.now }
    requires tree { IsTree network.now }
    requires few { links ≤ 8 }
    requires links { IsGreatest (IsOfPath network.now length) links }
    ensures greatest { IsGreatest (IsOfPath network.now (jitter_on network.now)) result }
    ensures bound { result ≤ 2 ^ 44 }
{
    network.beta().amount() - (drift_of(network) + roundings_over(network, links))
}

/// The greatest count of links of a path.
fn most_links(network: &Network) -> u64
    requires range { IsInRange network.now }
    requires tree { IsTree network.now }
    ensures greatest { IsGreatest (IsOfPath network.now length) result }
    ensures bound { result ≤ 8 }
{
    greater(
        most_links_on(network, Channel::A),
        most_links_on(network, Channel::B),
    )
}

/// The greater of two numbers.
pub(crate) fn greater(one: u64, other: u64) -> u64
    ensures { result ≡ max one other }
{
    one.max(other)
}

/// The greatest count of links of a path on the channel.
fn most_links_on(network: &Network, channel: Channel) -> u64
    requires range { IsInRange network.now }
    requires tree { IsTree network.now }
    ensures greatest { IsGreatest (IsOfPathOn network.now channel length) result }
    ensures bound { result ≤ 8 }
{
    let mut most = 0;
    'devices: for place in 0..network.device.as_slice().len() {
        most = greater(most, links_from(network, DeviceId(place as u32), channel));
    }
    most
}

/// How many links the device's path has, or none where it is not of the channel.
fn links_from(network: &Network, device: DeviceId, channel: Channel) -> u64
    requires range { IsInRange network.now }
    requires tree { IsTree network.now }
    ensures greatest { IsGreatest (IsOfPathFrom network.now channel device length) result }
    ensures bound { result ≤ 8 }
{
    if network.is_device_of(device, channel) {
        network.path(device, channel).as_slice().len() as u64
    } else {
        0
    }
}
