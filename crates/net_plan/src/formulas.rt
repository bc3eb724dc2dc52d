ghost use Rattle.std.specs.Prelude.{◌*◌, ◌+◌, ◌<◌, ◌^◌, ◌≡◌, ◌≤ℤ◌, ◌≤◌, length, max, pos};
ghost use Rattle.net_plan.specs.Bounds.{IsBeta, IsGreatest, IsOfPathFrom, IsOfPathOn, gamma_of, jitter_of, jitter_on};
ghost use Rattle.{net_plan.specs.{Paths.IsTree, Ranges.IsInRange}, tte_units.specs.Amount.amount};

use crate::{DeviceId, LinkId, Network, Path};
use tte_units::frames::Channel;
use tte_units::{Units, slip};

/// Eight readings are rounded at each link, and at two more places.
const ROUNDINGS: u64 = 8;

/// The greatest jitter and the greatest length of some paths.
#[derive(Clone, Copy, PartialEq, Eq)]
struct Extent {
    jitter: u64,
    links: u64,
}

impl Extent {
    fn max(self, other: Extent) -> Extent
        ensures jitter { result.jitter ≡ max self.jitter other.jitter }
        ensures links { result.links ≡ max self.links other.links }
    {
        Extent {
            jitter: self.jitter.max(other.jitter),
            links: self.links.max(other.links),
        }
    }
}

#[tactic(auto, using(crate::proofs::Amounts::amount_within))]
impl Network {
    /// How far the clocks of two devices drift apart over two cycles, with the roundings of four
    /// readings: `floor(2*rho*2*cycle / 10^9) + 4*grain`, in units of 2^-16 ns.
    ///
    /// The numbers lie in their ranges.
    pub fn gamma(&self) -> Units
        requires { IsInRange self.now }
        ensures { result.0 ≡ pos (gamma_of self.now) }
    {
        let drift = slip(self.rho, Units::from_amount(2 * self.cycle.amount()));
        Units::from_amount(drift.amount() + 4 * (self.grain.amount() - 1))
    }

    /// How far the time from the dispatch of a protocol control frame to its permanence may be
    /// off: `jitter + floor(4*rho*dmax / 10^9) + 8*grain*(links + 2)` in units of 2^-16 ns, where
    /// `jitter` is the greatest sum of jitters, and `links` the greatest count of links, over the
    /// paths of all devices on their channels.
    ///
    /// The numbers lie in their ranges, and the links form a tree on each channel.
    pub fn beta(&self) -> Units
        requires range { IsInRange self.now }
        requires tree { IsTree self.now }
        ensures { IsBeta self.now result.0 }
    {
        let extent = self.extent_on(Channel::A).max(self.extent_on(Channel::B));
        let drift = 4 * u64::from(self.rho) * self.dmax.amount() / 1_000_000_000;
        let roundings = ROUNDINGS * self.grain.amount() * (extent.links + 2);
        Units::from_amount(extent.jitter + drift + roundings)
    }

    /// The greatest extent of the paths on a channel.
    fn extent_on(&self, channel: Channel) -> Extent
        requires range { IsInRange self.now }
        requires tree { IsTree self.now }
        ensures jitter { IsGreatest (IsOfPathOn self.now channel (jitter_on self.now)) result.jitter }
        ensures links { IsGreatest (IsOfPathOn self.now channel length) result.links }
        ensures jitter_bound { result.jitter ≤ 8 * 2 ^ 40 }
        ensures links_bound { result.links ≤ 8 }
    {
        let mut extent = Extent {
            jitter: 0,
            links: 0,
        };
        for place in 0..self.device.as_slice().len() {
            extent = extent.max(self.extent_from(DeviceId(place as u32), channel));
        }
        extent
    }

    /// The extent of the device's path, or of none where it is not of the channel.
    fn extent_from(&self, device: DeviceId, channel: Channel) -> Extent
        requires range { IsInRange self.now }
        requires tree { IsTree self.now }
        ensures jitter { IsGreatest (IsOfPathFrom self.now channel device (jitter_on self.now)) result.jitter }
        ensures links { IsGreatest (IsOfPathFrom self.now channel device length) result.links }
        ensures jitter_bound { result.jitter ≤ 8 * 2 ^ 40 }
        ensures links_bound { result.links ≤ 8 }
    {
        if self.is_device_of(device, channel) {
            self.extent(&self.path(device, channel))
        } else {
            Extent {
                jitter: 0,
                links: 0,
            }
        }
    }

    /// The sum of jitters on a path and the count of its links.
    fn extent(&self, path: &Path) -> Extent
        requires range { IsInRange self.now }
        ensures jitter { result.jitter ≡ jitter_on self.now path.now }
        ensures links { result.links ≡ length path.now }
        ensures jitter_bound { result.jitter ≤ 8 * 2 ^ 40 }
        ensures links_bound { result.links ≤ 8 }
    {
        let mut jitter = 0;
        for link in path.as_slice() {
            jitter += self.jitter_of(*link);
        }
        Extent {
            jitter,
            links: path.as_slice().len() as u64,
        }
    }

    fn jitter_of(&self, link: LinkId) -> u64
        requires { IsInRange self.now }
        ensures value { result ≡ jitter_of self.now link }
        ensures bound { result ≤ 2 ^ 40 }
    {
        match self.link.as_slice().get(link.0 as usize) {
            Some(found) => found.jitter.0 as u64,
            None => 0,
        }
    }
}
