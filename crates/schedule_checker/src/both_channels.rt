//! The rule that a virtual link goes by both channels.
ghost use Rattle.std.specs.Prelude.{◌<◌, ◌↔◌, IfSome, IsSomeAnd, IsTrue, length, slice_get};
ghost use Rattle.{net_plan.specs.Ranges.IsInRange, schedule_checker.specs.Groups.{AreGroups, AreKin}};
ghost use Rattle.schedule_checker.specs.Routes.{EntersAlike, EntersAllAlike, EntersEndSystem, IsEntering};
ghost use Rattle.schedule_checker.specs.Routes.{IsEnteringEnd, IsLeaving, LeavesOnBoth, TargetIsAlike};
ghost use Rattle.schedule_tables.specs.{Entries.AreEntries, Schedule.{EntersOn, GoesByBothChannels, LeavesOn}};

use crate::groups::Groups;
use crate::roles::is_end_system;
use crate::routes::is_on_channel;
use net_plan::{DeviceId, Network, VlId};
use schedule_tables::{Entry, entries_law};
use tte_units::frames::Channel;

/// Does the virtual link leave its sender on both channels, enter an end system, and enter the
/// same end systems on both?
pub(crate) fn goes_by_both_channels(
    network: &Network,
    entries: &[Entry],
    groups: &Groups,
    place: u32,
) -> bool
    requires range { IsInRange network.now }
    requires place { place < length network.now.vl }
    requires entries { AreEntries network.now entries.now }
    requires groups { AreGroups entries.now groups.now }
    ensures { IsTrue result ↔ GoesByBothChannels network.now place }
{
    let vl = VlId(place);
    let kin = Kin {
        network,
        entries,
        vl,
        places: groups.of_vl(vl),
    };
    let sender = network.vl.as_slice()[place as usize].sender;
    kin.leaves_on_both(sender) && kin.enters_end_system() && kin.enters_all_alike()
}

/// The rows of a virtual link, which are among those at these places.
#[derive(Drop)]
pub struct Kin<'a> {
    network: &'a Network,
    entries: &'a [Entry],
    vl: VlId,
    places: &'a [usize],
}

impl Kin<'_> {
    /// Do rows of the virtual link leave the device on both channels?
    fn leaves_on_both(&self, device: DeviceId) -> bool
        requires { AreKin self.now }
        ensures { IsTrue result ↔ LeavesOnBoth self.now.network.now self.now.vl device }
    {
        self.leaves(Channel::A, device) && self.leaves(Channel::B, device)
    }

    /// Does a row of the virtual link leave the device on the channel?
    fn leaves(&self, channel: Channel, device: DeviceId) -> bool
        requires { AreKin self.now }
        ensures { IsTrue result ↔ LeavesOn self.now.network.now self.now.vl channel device }
    {
        entries_law();
        self.places
            .iter()
            .any(|at| self.is_leaving(*at, channel, device))
    }

    /// Does the entry at the place leave the device for the virtual link on the channel?
    fn is_leaving(&self, at: usize, channel: Channel, device: DeviceId) -> bool
        ensures { IsTrue result ↔ IsSomeAnd (slice_get self.now.entries.now at)
            (IsLeaving self.now.network.now self.now.vl channel device) }
    {
        match self.entries.get(at) {
            Some(entry) => {
                entry.row.vl == self.vl
                    && entry.source() == device
                    && is_on_channel(self.network, channel, entry)
            }
            None => false,
        }
    }

    /// Does a row of the virtual link enter the device on the channel?
    fn enters(&self, channel: Channel, device: DeviceId) -> bool
        requires { AreKin self.now }
        ensures { IsTrue result ↔ EntersOn self.now.network.now self.now.vl channel device }
    {
        entries_law();
        self.places
            .iter()
            .any(|at| self.is_entering(*at, channel, device))
    }

    /// Does the entry at the place enter the device for the virtual link on the channel?
    fn is_entering(&self, at: usize, channel: Channel, device: DeviceId) -> bool
        ensures { IsTrue result ↔ IsSomeAnd (slice_get self.now.entries.now at)
            (IsEntering self.now.network.now self.now.vl channel device) }
    {
        match self.entries.get(at) {
            Some(entry) => {
                entry.row.vl == self.vl
                    && entry.target() == device
                    && is_on_channel(self.network, channel, entry)
            }
            None => false,
        }
    }

    /// Does a row of the virtual link enter an end system on a channel?
    fn enters_end_system(&self) -> bool
        requires { AreKin self.now }
        ensures { IsTrue result ↔ EntersEndSystem self.now.network.now self.now.vl }
    {
        entries_law();
        self.places.iter().any(|at| self.is_entering_end(*at))
    }

    /// Does the entry at the place enter an end system for the virtual link on a channel?
    fn is_entering_end(&self, at: usize) -> bool
        ensures { IsTrue result ↔ IsSomeAnd (slice_get self.now.entries.now at)
            (IsEnteringEnd self.now.network.now self.now.vl) }
    {
        match self.entries.get(at) {
            Some(entry) => {
                entry.row.vl == self.vl
                    && is_end_system(self.network, entry.target())
                    && (is_on_channel(self.network, Channel::A, entry)
                        || is_on_channel(self.network, Channel::B, entry))
            }
            None => false,
        }
    }

    /// Does the virtual link enter the same end systems on both channels?
    fn enters_all_alike(&self) -> bool
        requires { AreKin self.now }
        ensures { IsTrue result ↔ EntersAllAlike self.now.network.now self.now.vl }
    {
        entries_law();
        self.places.iter().all(|at| self.is_target_alike(*at))
    }

    /// Is what the entry at the place enters for the virtual link entered alike?
    fn is_target_alike(&self, at: usize) -> bool
        requires { AreKin self.now }
        ensures { IsTrue result ↔ IfSome (slice_get self.now.entries.now at)
            (TargetIsAlike self.now.network.now self.now.vl) }
    {
        match self.entries.get(at) {
            Some(entry) => entry.row.vl != self.vl || self.enters_alike(entry.target()),
            None => true,
        }
    }

    /// Does the virtual link enter the device on both channels or on neither, if it is an end system?
    fn enters_alike(&self, device: DeviceId) -> bool
        requires { AreKin self.now }
        ensures { IsTrue result ↔ EntersAlike self.now.network.now self.now.vl device }
    {
        !is_end_system(self.network, device)
            || self.enters(Channel::A, device) == self.enters(Channel::B, device)
    }
}
