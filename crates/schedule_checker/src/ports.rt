//! The rules of when a device sends its rows.
ghost use Rattle.std.specs.Prelude.{◌+◌, ◌<◌, ◌^◌, ◌↔◌, ◌≡◌, ◌≤◌, All, IfSome, IsTrue, length, slice_get, take};
ghost use Rattle.{net_plan.specs.Bounds.gamma_of, schedule_tables.specs.Entries.{AreEntries, IsEntryInRange}};
ghost use Rattle.net_plan.specs.{Ranges.{IsInRange, IsWithin}, declared.network.Network.{Network as NetworkValue}};
ghost use Rattle.schedule_checker.specs.{Groups.{AreGroups, HasRowsBy, HasRowsOf}, Ports.{AreApart, ComesBehind}};
ghost use Rattle.schedule_tables.specs.{Schedule.{Coincide, ComesInTime, HasFewRows, StandsApart}, Windows.port_time};
ghost use Rattle.tte_units.specs.Amount.{amount};

use crate::groups::Groups;
use net_plan::{DeviceId, Network, VirtualLink};
use schedule_tables::{Entry, entries_law, window_of};

/// How many rows may leave a device.
const MOST_ROWS: usize = 256;

/// Do the row and each earlier one of its link and way that occurs in one cycle with it stand
/// apart by a port time and gamma?
pub(crate) fn stands_apart(
    network: &Network,
    entries: &[Entry],
    groups: &Groups,
    place: u32,
) -> bool
    requires range { IsInRange network.now }
    requires place { place < length network.now.row }
    requires entries { AreEntries network.now entries.now }
    requires groups { AreGroups entries.now groups.now }
    ensures { IsTrue result ↔ StandsApart network.now place }
{
    entries_law();
    let entry = &entries[place as usize];
    let kin = groups.by_link(entry.row.link);
    stands_apart_from(network, entries, kin, place as usize, entry)
}

/// Are the entry, which is at the place, and each earlier one apart?
fn stands_apart_from(
    network: &Network,
    entries: &[Entry],
    kin: &[usize],
    place: usize,
    entry: &Entry,
) -> bool
    requires range { IsInRange network.now }
    requires entries { All (IsEntryInRange network.now) entries.now }
    requires kin { HasRowsBy entries.now entry.now.row.link kin.now }
    requires entry { IsEntryInRange network.now entry.now }
    ensures { IsTrue result ↔ All (λ other. AreApart network.now other entry.now) (take place entries.now) }
{
    kin.iter().all(|at| place <= *at || is_apart(network, entries, *at, entry))
}

/// Is the entry at the place apart from this one?
fn is_apart(network: &Network, entries: &[Entry], at: usize, entry: &Entry) -> bool
    requires range { IsInRange network.now }
    requires entries { All (IsEntryInRange network.now) entries.now }
    requires entry { IsEntryInRange network.now entry.now }
    ensures { IsTrue result ↔ IfSome (slice_get entries.now at) (λ other. AreApart network.now other entry.now) }
{
    match entries.get(at) {
        Some(other) => are_apart(network.gamma().amount(), other, entry),
        None => true,
    }
}

/// Are two entries of one link and way, whose virtual links occur in one cycle, clear of one another?
fn are_apart(gamma: u64, earlier: &Entry, entry: &Entry) -> bool
    requires gamma { gamma ≤ 2 ^ 41 }
    requires offset { IsWithin 0 (2 ^ 40) earlier.now.row.offset }
    requires octets { earlier.now.vl.length ≤ 1514 }
    requires other { IsWithin 0 (2 ^ 40) entry.now.row.offset }
    requires other_octets { entry.now.vl.length ≤ 1514 }
    requires period { 1 ≤ earlier.now.vl.period }
    requires other_period { 1 ≤ entry.now.vl.period }
    ensures { (network : NetworkValue) → gamma ≡ gamma_of network
        → IsTrue result ↔ AreApart network earlier.now entry.now }
{
    earlier.row.link != entry.row.link
        || earlier.row.way != entry.row.way
        || !coincide(&entry.vl, &earlier.vl)
        || is_clear_before(gamma, earlier, entry)
        || is_clear_before(gamma, entry, earlier)
}

/// Do the virtual links occur in one cycle?
fn coincide(vl: &VirtualLink, other: &VirtualLink) -> bool
    requires period { 1 ≤ vl.now.period }
    requires other { 1 ≤ other.now.period }
    ensures { IsTrue result ↔ Coincide vl.now other.now }
{
    let period = vl.period.min(other.period);
    vl.phase % period == other.phase % period
}

/// Has the entry's frame left the port, and the clocks drifted by gamma, when the other is
/// dispatched?
fn is_clear_before(gamma: u64, entry: &Entry, other: &Entry) -> bool
    requires gamma { gamma ≤ 2 ^ 41 }
    requires offset { IsWithin 0 (2 ^ 40) entry.now.row.offset }
    requires octets { entry.now.vl.length ≤ 1514 }
    requires other { IsWithin 0 (2 ^ 40) other.now.row.offset }
    ensures { IsTrue result ↔ (amount entry.now.row.offset + port_time entry.now + gamma
        ≤ amount other.now.row.offset) }
{
    entry.row.offset.amount() + entry.port_time().amount() + gamma <= other.row.offset.amount()
}

/// Does the row come when the schedule has begun, if it leaves its sender, and otherwise behind
/// the window of its virtual link's row that enters its source?
pub(crate) fn comes_in_time(
    network: &Network,
    entries: &[Entry],
    groups: &Groups,
    place: u32,
) -> bool
    requires range { IsInRange network.now }
    requires place { place < length network.now.row }
    requires entries { AreEntries network.now entries.now }
    requires groups { AreGroups entries.now groups.now }
    ensures { IsTrue result ↔ ComesInTime network.now place }
{
    entries_law();
    let entry = &entries[place as usize];
    if entry.source() == entry.vl.sender {
        network.tt_start <= entry.row.offset
    } else {
        comes_behind_all(network, entries, groups.of_vl(entry.row.vl), entry)
    }
}

/// Does the entry come behind the window of each of its virtual link that enters its source?
fn comes_behind_all(network: &Network, entries: &[Entry], kin: &[usize], entry: &Entry) -> bool
    requires range { IsInRange network.now }
    requires entries { All (IsEntryInRange network.now) entries.now }
    requires kin { HasRowsOf entries.now entry.now.row.vl kin.now }
    requires entry { IsEntryInRange network.now entry.now }
    ensures { IsTrue result ↔ All (λ entering. ComesBehind network.now entering entry.now) entries.now }
{
    kin.iter().all(|at| is_behind(network, entries, *at, entry))
}

/// Does the entry come behind the window of the one at the place, if that is of its virtual link and
/// enters its source?
fn is_behind(network: &Network, entries: &[Entry], at: usize, entry: &Entry) -> bool
    requires range { IsInRange network.now }
    requires entries { All (IsEntryInRange network.now) entries.now }
    requires entry { IsEntryInRange network.now entry.now }
    ensures { IsTrue result ↔ IfSome (slice_get entries.now at)
        (λ entering. ComesBehind network.now entering entry.now) }
{
    match entries.get(at) {
        Some(entering) => comes_behind(network, entering, entry),
        None => true,
    }
}

/// Does the entry come behind the window of the other, if that is of its virtual link and enters
/// its source?
fn comes_behind(network: &Network, entering: &Entry, entry: &Entry) -> bool
    requires range { IsInRange network.now }
    requires entering { IsEntryInRange network.now entering.now }
    requires entry { IsEntryInRange network.now entry.now }
    ensures { IsTrue result ↔ ComesBehind network.now entering.now entry.now }
{
    entering.row.vl != entry.row.vl
        || entering.target() != entry.source()
        || window_of(network, entering).to < entry.row.offset
}

/// Do at most 256 rows leave the device?
pub(crate) fn has_few_rows(network: &Network, entries: &[Entry], place: u32) -> bool
    requires range { IsInRange network.now }
    requires place { place < length network.now.device }
    requires entries { AreEntries network.now entries.now }
    ensures { IsTrue result ↔ HasFewRows network.now place }
{
    let device = DeviceId(place);
    entries
        .iter()
        .filter(|entry| entry.source() == device)
        .count()
        <= MOST_ROWS
}
