//! Whether a network is another with virtual links and rows added.
ghost use Rattle.std.specs.Prelude.{◌↔◌, ◌≡◌, IsTrue};
ghost use Rattle.lens_plan.specs.joining.Extends.{Begins, Extends, HaveSameClocks, HaveSameFrames, HaveSameTimes};

use net_plan::{Device, Link, Network, Row, VirtualLink};

/// What may be the same as another.
pub(crate) trait Same {
    /// Is it the same as the other?
    fn is_same(&self, other: &Self) -> bool
        ensures { IsTrue result ↔ (self.now ≡ other.now) };
}

impl Same for Device {
    fn is_same(&self, other: &Device) -> bool {
        self.name.as_slice() == other.name.as_slice()
            && self.role == other.role
            && self.mac == other.mac
            && self.member == other.member
            && self.channel == other.channel
            && self.start == other.start
    }
}

impl Same for Link {
    fn is_same(&self, other: &Link) -> bool {
        self.name.as_slice() == other.name.as_slice()
            && self.child == other.child
            && self.parent == other.parent
            && self.wire == other.wire
            && self.jitter == other.jitter
            && self.hold == other.hold
            && self.speed == other.speed
    }
}

impl Same for VirtualLink {
    fn is_same(&self, other: &VirtualLink) -> bool {
        self.name.as_slice() == other.name.as_slice()
            && self.id == other.id
            && self.length == other.length
            && self.ethertype == other.ethertype
            && self.sender == other.sender
            && self.period == other.period
            && self.phase == other.phase
    }
}

impl Same for Row {
    fn is_same(&self, other: &Row) -> bool {
        self.vl == other.vl
            && self.link == other.link
            && self.way == other.way
            && self.offset == other.offset
    }
}

/// Does the list begin with the other?
fn begins<T: Same>(first: &[T], whole: &[T]) -> bool
    ensures { IsTrue result ↔ Begins first.now whole.now }
{
    if whole.len() < first.len() {
        return false;
    }
    'places: for place in 0..first.len() {
        if !first[place].is_same(&whole[place]) {
            return false;
        }
    }
    true
}

/// Have the two networks the same clocks, and the same cycle?
fn have_same_clocks(one: &Network, other: &Network) -> bool
    ensures { IsTrue result ↔ HaveSameClocks one.now other.now }
{
    one.cycle == other.cycle
        && one.rho == other.rho
        && one.grain == other.grain
        && one.settled == other.settled
        && one.precision == other.precision
}

/// Have they the same times for their frames?
fn have_same_times(one: &Network, other: &Network) -> bool
    ensures { IsTrue result ↔ HaveSameTimes one.now other.now }
{
    one.dmax == other.dmax
        && one.calc == other.calc
        && one.correction == other.correction
        && one.tt_start == other.tt_start
}

/// Have they the same numbers in their frames?
fn have_same_frames(one: &Network, other: &Network) -> bool
    ensures { IsTrue result ↔ HaveSameFrames one.now other.now }
{
    one.version == other.version
        && one.sync_threshold == other.sync_threshold
        && one.priority == other.priority
        && one.domain == other.domain
        && one.pcf_destination == other.pcf_destination
        && one.marker == other.marker
}

/// Is the list the other?
fn is_whole<T: Same>(one: &[T], other: &[T]) -> bool
    ensures { IsTrue result ↔ (one.now ≡ other.now) }
{
    one.len() == other.len() && begins(one, other)
}

/// Is the planned network the other but for its virtual links and rows, of which the other's are the first?
pub(crate) fn extends(network: &Network, planned: &Network) -> bool
    ensures { IsTrue result ↔ Extends network.now planned.now }
{
    have_same_clocks(network, planned)
        && have_same_times(network, planned)
        && have_same_frames(network, planned)
        && is_whole(network.device.as_slice(), planned.device.as_slice())
        && is_whole(network.link.as_slice(), planned.link.as_slice())
        && begins(network.vl.as_slice(), planned.vl.as_slice())
        && begins(network.row.as_slice(), planned.row.as_slice())
}
