//! The rules of the ways by which a virtual link's frames go.
ghost use Rattle.std.specs.Prelude.{◌<◌, ◌↔◌, All, IfSome, IsSomeAnd, IsTrue, length, slice_get, take};
ghost use Rattle.{net_plan.specs.Ranges.IsInRange, schedule_tables.specs.Entries.{AreEntries, IsOnChannel}};
ghost use Rattle.schedule_checker.specs.{Groups.{AreGroups, HasRowsOf}, Routes.ShareChannel};
ghost use Rattle.schedule_checker.specs.Routes.{EntersAgain, EntersSource, GoesElsewhere, IsEnteredElsewhere};
ghost use Rattle.schedule_tables.specs.Schedule.{EntersAnew, GoesOnceByLink, HasSource};

use crate::groups::Groups;
use crate::roles::{is_end_system, is_switch};
use net_plan::Network;
use schedule_tables::{Entry, entries_law};
use tte_units::frames::Channel;

/// Is this the first row by which its virtual link goes over its link?
pub(crate) fn goes_once_by_link(
    network: &Network,
    entries: &[Entry],
    groups: &Groups,
    place: u32,
) -> bool
    requires range { IsInRange network.now }
    requires place { place < length network.now.row }
    requires entries { AreEntries network.now entries.now }
    requires groups { AreGroups entries.now groups.now }
    ensures { IsTrue result ↔ GoesOnceByLink network.now place }
{
    entries_law();
    let entry = &entries[place as usize];
    is_new_by_link(entries, groups.of_vl(entry.row.vl), place as usize, entry)
}

/// Does no earlier row of the row's virtual link go by its link?
fn is_new_by_link(entries: &[Entry], kin: &[usize], place: usize, entry: &Entry) -> bool
    requires kin { HasRowsOf entries.now entry.now.row.vl kin.now }
    ensures { IsTrue result ↔ All (GoesElsewhere entry.now) (take place entries.now) }
{
    kin.iter()
        .all(|at| place <= *at || goes_elsewhere(entries, *at, entry))
}

/// Does the entry at the place not go by the link and for the virtual link of this one?
fn goes_elsewhere(entries: &[Entry], at: usize, entry: &Entry) -> bool
    ensures { IsTrue result ↔ IfSome (slice_get entries.now at) (GoesElsewhere entry.now) }
{
    match entries.get(at) {
        Some(other) => entry.row.vl != other.row.vl || entry.row.link != other.row.link,
        None => true,
    }
}

/// Does the row leave its virtual link's sender, or a switch that another row of the virtual link
/// enters?
pub(crate) fn has_source(network: &Network, entries: &[Entry], groups: &Groups, place: u32) -> bool
    requires range { IsInRange network.now }
    requires place { place < length network.now.row }
    requires entries { AreEntries network.now entries.now }
    requires groups { AreGroups entries.now groups.now }
    ensures { IsTrue result ↔ HasSource network.now place }
{
    entries_law();
    let entry = &entries[place as usize];
    entry.source() == entry.vl.sender
        || is_switch(network, entry.source())
            && is_entered_elsewhere(entries, groups.of_vl(entry.row.vl), place as usize, entry)
}

/// Does an entry at another place, of the same virtual link, enter the source of this one?
fn is_entered_elsewhere(entries: &[Entry], kin: &[usize], place: usize, entry: &Entry) -> bool
    requires kin { HasRowsOf entries.now entry.now.row.vl kin.now }
    ensures { IsTrue result ↔ IsEnteredElsewhere entries.now place entry.now }
{
    kin.iter()
        .any(|at| *at != place && enters_source(entries, *at, entry))
}

/// Does the entry at the place, of the same virtual link, enter the source of this one?
fn enters_source(entries: &[Entry], at: usize, entry: &Entry) -> bool
    ensures { IsTrue result ↔ IsSomeAnd (slice_get entries.now at) (EntersSource entry.now) }
{
    match entries.get(at) {
        Some(other) => other.row.vl == entry.row.vl && other.target() == entry.source(),
        None => false,
    }
}

/// Does the row enter neither its sender, nor a switch that an earlier row of its virtual link
/// enters, nor an end system that an earlier row of its virtual link enters on the same channel?
pub(crate) fn enters_anew(network: &Network, entries: &[Entry], groups: &Groups, place: u32) -> bool
    requires range { IsInRange network.now }
    requires place { place < length network.now.row }
    requires entries { AreEntries network.now entries.now }
    requires groups { AreGroups entries.now groups.now }
    ensures { IsTrue result ↔ EntersAnew network.now place }
{
    entries_law();
    let entry = &entries[place as usize];
    let kin = groups.of_vl(entry.row.vl);
    entry.target() != entry.vl.sender
        && enters_none_again(network, entries, kin, place as usize, entry)
}

/// Does the entry, which is at the place, enter no device again that one of the earlier enters?
fn enters_none_again(
    network: &Network,
    entries: &[Entry],
    kin: &[usize],
    place: usize,
    entry: &Entry,
) -> bool
    requires kin { HasRowsOf entries.now entry.now.row.vl kin.now }
    ensures { IsTrue result ↔ All (λ other. ¬ EntersAgain network.now other entry.now) (take place entries.now) }
{
    kin.iter().all(|at| place <= *at || enters_other(network, entries, *at, entry))
}

/// Does the entry not enter again what the entry at the place enters?
fn enters_other(network: &Network, entries: &[Entry], at: usize, entry: &Entry) -> bool
    ensures { IsTrue result ↔ IfSome (slice_get entries.now at)
        (λ other. ¬ EntersAgain network.now other entry.now) }
{
    match entries.get(at) {
        Some(other) => !enters_again(network, other, entry),
        None => true,
    }
}

/// Does the entry enter a switch again that an earlier one of its virtual link enters, or an end
/// system on the same channel?
fn enters_again(network: &Network, earlier: &Entry, entry: &Entry) -> bool
    ensures { IsTrue result ↔ EntersAgain network.now earlier.now entry.now }
{
    let target = entry.target();
    entry.row.vl == earlier.row.vl
        && target == earlier.target()
        && (is_switch(network, target)
            || is_end_system(network, target) && share_channel(network, earlier, entry))
}

/// Are the links of both on one channel?
fn share_channel(network: &Network, earlier: &Entry, entry: &Entry) -> bool
    ensures { IsTrue result ↔ ShareChannel network.now earlier.now entry.now }
{
    let share = |channel| is_on_channel(network, channel, earlier)
        && is_on_channel(network, channel, entry);
    share(Channel::A) || share(Channel::B)
}

/// Is the entry's link one of the channel?
pub(crate) fn is_on_channel(network: &Network, channel: Channel, entry: &Entry) -> bool
    ensures { IsTrue result ↔ IsOnChannel network.now channel entry.now }
{
    network.is_switch_of(entry.link.parent, channel)
}
