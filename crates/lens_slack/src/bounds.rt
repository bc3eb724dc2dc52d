//! The tightest bound at each spot.
ghost use Rattle.std.specs.Prelude.{◌<◌, ◌^◌, ◌↔◌, ◌≡◌, ◌≢◌, ◌≤◌, IfSome, IsTrue, MatchOption, Some, length, pos, ℕ};
ghost use Rattle.net_plan.specs.{Bounds.IsBeta, Paths.IsTree, Ranges.IsInRange};
ghost use Rattle.schedule_checker.specs.{Judging.IsPlan, Timing.errors_of};
ghost use Rattle.schedule_tables.specs.{Entries.{IsEntry, IsEntryInRange, source_of}, Schedule.Coincide};
ghost use Rattle.lens_slack.specs.Bounds.{AreOfPort, EntersSource, IsErrorsBound, begin_bound, calc_bound, clear_time};
ghost use Rattle.lens_slack.specs.Bounds.{correction_bound, end_bound, entering_bound, found, gap_bound};
ghost use Rattle.lens_slack.specs.{Keeping.IsSmall, Spots.IsSpotOf, Tightest.IsTightestAt};
ghost use Rattle.lens_slack.specs.declared.spot.BoundedNumber.TheVariants as spots;

use crate::tightest::tighter_of;
use crate::{Beside, BoundedNumber, Finding};
use net_plan::{DeviceId, Link, Network, RowId, VirtualLink};
use schedule_checker::{Plan, delay_on, pcf_port_time};
use schedule_tables::{Entry, entry_of, window_of};
use tte_units::Units;
use tte_units::frames::Channel;

/// The tightest bound at the spot, and the first where several are as tight.
pub(crate) fn tightest_at(plan: &Plan<'_>, spot: BoundedNumber) -> Option<Finding>
    requires plan { IsPlan plan.now }
    requires spot { IsSpotOf plan.now.network.now spot }
    ensures tightest { IsTightestAt plan.now.network.now spot result }
    ensures small { IfSome result IsSmall }
{
    match spot {
        BoundedNumber::Path(device, channel) => path_bound(plan, device, channel),
        BoundedNumber::Settled => Some(settled_bound(plan)),
        BoundedNumber::Precision => tighter_of(
            Some(errors_bound(plan)),
            Some(calc_bound(plan.network)),
        ),
        BoundedNumber::Correction => Some(correction_bound(plan.network)),
        BoundedNumber::Begin => begin_bound(plan.network),
        BoundedNumber::End => Some(end_bound(plan.network)),
        BoundedNumber::Window(row) => Some(window_bound(plan.network, row)),
        BoundedNumber::Gap(row) => gap_bound(plan.network, row),
        BoundedNumber::Coming(row) => coming_bound(plan.network, row),
    }
}

/// At the spot the network has so much, and so much is wanted.
fn found(spot: BoundedNumber, has: u64, wants: u64) -> Finding
    ensures { result ≡ found spot has wants }
{
    Finding {
        spot,
        has,
        wants,
        beside: Beside::Nothing,
    }
}

/// Beta, which is far below the greatest number of 64 bits, since a path has eight links at most.
fn beta_amount(network: &Network, beta: Units) -> u64
    requires range { IsInRange network.now }
    requires tree { IsTree network.now }
    requires beta { IsBeta network.now beta.0 }
    ensures value { pos result ≡ beta.0 }
    ensures bound { result ≤ 2 ^ 44 }
{
    beta.amount()
}

/// Dmax, and beta with the delays of the device's path on the channel, if the device is of it.
fn path_bound(plan: &Plan<'_>, device: DeviceId, channel: Channel) -> Option<Finding>
    requires { IsPlan plan.now }
    ensures tightest { IsTightestAt plan.now.network.now (spots.Path device channel) result }
    ensures small { IfSome result IsSmall }
{
    let network = plan.network;
    if !network.is_device_of(device, channel) {
        return None;
    }
    let delay = delay_on(network, &network.path(device, channel));
    let wants = beta_amount(network, plan.beta) + delay;
    Some(found(
        BoundedNumber::Path(device, channel),
        network.dmax.amount(),
        wants,
    ))
}

/// The errors of a resynchronisation: `8*beta + 12*gamma + 40*grain`.
fn errors_of(plan: &Plan<'_>) -> u64
    requires { IsPlan plan.now }
    ensures value { (beta : ℕ) → IsBeta plan.now.network.now (pos beta) → result ≡ errors_of plan.now.network.now beta }
    ensures bound { result ≤ 2 ^ 48 }
{
    let network = plan.network;
    let roundings = 12 * network.gamma().amount() + 40 * network.grain.amount();
    8 * beta_amount(network, plan.beta) + roundings
}

/// The spread of the starts, and the errors of a resynchronisation.
fn settled_bound(plan: &Plan<'_>) -> Finding
    requires { IsPlan plan.now }
    ensures tightest { IsTightestAt plan.now.network.now spots.Settled (Some result) }
    ensures small { IsSmall result }
{
    found(
        BoundedNumber::Settled,
        plan.network.settled.amount(),
        errors_of(plan),
    )
}

/// The precision, and the spread of the starts with twice these errors.
fn errors_bound(plan: &Plan<'_>) -> Finding
    requires { IsPlan plan.now }
    ensures is { IsErrorsBound plan.now.network.now result }
    ensures small { IsSmall result }
{
    let network = plan.network;
    let wants = network.settled.amount() + 2 * errors_of(plan);
    found(BoundedNumber::Precision, network.precision.amount(), wants)
}

/// The precision, and the time of a compression.
fn calc_bound(network: &Network) -> Finding
    requires { IsInRange network.now }
    ensures value { result ≡ calc_bound network.now }
    ensures small { IsSmall result }
{
    Finding {
        spot: BoundedNumber::Precision,
        has: network.precision.amount(),
        wants: network.calc.amount(),
        beside: Beside::Calc,
    }
}

/// The place of the correction, and the time by which each frame of the cycle has been heard.
fn correction_bound(network: &Network) -> Finding
    requires { IsInRange network.now }
    ensures value { result ≡ correction_bound network.now }
    ensures small { IsSmall result }
{
    let heard = 2 * network.dmax.amount() + network.calc.amount() + 10 * network.precision.amount();
    found(
        BoundedNumber::Correction,
        network.correction.amount(),
        heard,
    )
}

/// Where the schedule begins, and when the last protocol control frame has left the link for which that takes longest.
fn begin_bound(network: &Network) -> Option<Finding>
    requires { IsInRange network.now }
    ensures tightest { IsTightestAt network.now spots.Begin result }
    ensures small { IfSome result IsSmall }
{
    let mut best = None;
    'links: for link in network.link.as_slice() {
        best = tighter_of(best, Some(begin_with(network, link)));
    }
    best
}

/// Where the schedule begins, and when the last protocol control frame has left the link.
fn begin_with(network: &Network, link: &Link) -> Finding
    requires { IsInRange network.now }
    ensures value { result ≡ begin_bound network.now link.now }
    ensures small { IsSmall result }
{
    let heard = network.correction.amount()
        + network.dmax.amount()
        + 4 * network.precision.amount();
    found(
        BoundedNumber::Begin,
        network.tt_start.amount(),
        heard + pcf_port_time(link),
    )
}

/// The cycle, and where the schedule begins with room for the precision.
fn end_bound(network: &Network) -> Finding
    requires { IsInRange network.now }
    ensures value { result ≡ end_bound network.now }
    ensures small { IsSmall result }
{
    let wants = network.tt_start.amount() + 4 * network.precision.amount();
    found(BoundedNumber::End, network.cycle.amount(), wants)
}

/// The cycle, and the end of the row's window with room for the precision.
fn window_bound(network: &Network, row: RowId) -> Finding
    requires range { IsInRange network.now }
    requires row { row.0 < length network.now.row }
    ensures tightest { IsTightestAt network.now (spots.Window row) (Some result) }
    ensures small { IsSmall result }
{
    let window = window_of(network, &entry_of(network, row));
    let wants = window.to.amount() + 4 * network.precision.amount();
    found(BoundedNumber::Window(row), network.cycle.amount(), wants)
}

/// The tightest gap between the row and an earlier one of its port that occurs in one cycle with it.
fn gap_bound(network: &Network, row: RowId) -> Option<Finding>
    requires range { IsInRange network.now }
    requires row { row.0 < length network.now.row }
    ensures tightest { IsTightestAt network.now (spots.Gap row) result }
    ensures small { IfSome result IsSmall }
{
    let entry = entry_of(network, row);
    let mut best = None;
    'earlier: for number in 0..row.0 {
        best = tighter_of(
            best,
            gap_with(network, row, &entry_of(network, RowId(number)), &entry),
        );
    }
    best
}

/// The gap between two rows, if they are of one port and occur in one cycle.
fn gap_with(network: &Network, row: RowId, earlier: &Entry, entry: &Entry) -> Option<Finding>
    requires range { IsInRange network.now }
    requires earlier { IsEntryInRange network.now earlier.now }
    requires entry { IsEntryInRange network.now entry.now }
    ensures is { MatchOption result (AreOfPort earlier.now entry.now → ⊥)
        (λ f. AreOfPort earlier.now entry.now × (f ≡ gap_bound network.now row earlier.now entry.now)) }
    ensures small { IfSome result IsSmall }
{
    if !are_of_port(earlier, entry) {
        return None;
    }
    Some(gap_between(network, row, earlier, entry))
}

/// Do the rows go by one link and way, and occur in one cycle?
fn are_of_port(earlier: &Entry, entry: &Entry) -> bool
    requires period { 1 ≤ earlier.now.vl.period }
    requires other { 1 ≤ entry.now.vl.period }
    ensures { IsTrue result ↔ AreOfPort earlier.now entry.now }
{
    entry.row.link == earlier.row.link
        && entry.row.way == earlier.row.way
        && coincide(&entry.vl, &earlier.vl)
}

/// Do the virtual links occur in one cycle?
fn coincide(vl: &VirtualLink, other: &VirtualLink) -> bool
    requires period { 1 ≤ vl.now.period }
    requires other { 1 ≤ other.now.period }
    ensures { IsTrue result ↔ Coincide vl.now other.now }
{
    let period = vl.period.min(other.period);
    vl.phase % period == other.phase % period
}

/// Of two entries of one port, the offset of the later, and when the other is clear of it.
fn gap_between(network: &Network, row: RowId, earlier: &Entry, entry: &Entry) -> Finding
    requires range { IsInRange network.now }
    requires earlier { IsEntryInRange network.now earlier.now }
    requires entry { IsEntryInRange network.now entry.now }
    ensures value { result ≡ gap_bound network.now row earlier.now entry.now }
    ensures small { IsSmall result }
{
    let next = earlier.row.vl;
    let (first, later, beside) = if entry.row.offset < earlier.row.offset {
        (entry, earlier, Beside::Before(next))
    } else {
        (earlier, entry, Beside::Behind(next))
    };
    Finding {
        spot: BoundedNumber::Gap(row),
        has: later.row.offset.amount(),
        wants: clear_time(network, first),
        beside,
    }
}

/// When the entry's frame has left the port, and the clocks may have drifted.
fn clear_time(network: &Network, entry: &Entry) -> u64
    requires range { IsInRange network.now }
    requires entry { IsEntryInRange network.now entry.now }
    ensures value { result ≡ clear_time network.now entry.now }
    ensures bound { result ≤ 2 ^ 44 }
{
    entry.row.offset.amount() + entry.port_time().amount() + network.gamma().amount()
}

/// The row's offset, and where the schedule begins, if it leaves its sender; and else the place behind the windows of
/// the rows that enter its source.
fn coming_bound(network: &Network, row: RowId) -> Option<Finding>
    requires range { IsInRange network.now }
    requires row { row.0 < length network.now.row }
    ensures tightest { IsTightestAt network.now (spots.Coming row) result }
    ensures small { IfSome result IsSmall }
{
    let entry = entry_of(network, row);
    if entry.source() == entry.vl.sender {
        Some(found(
            BoundedNumber::Coming(row),
            entry.row.offset.amount(),
            network.tt_start.amount(),
        ))
    } else {
        entering_bounds(network, row, &entry)
    }
}

/// The tightest of the windows of the rows that enter the row's source, where this is not its sender.
fn entering_bounds(network: &Network, row: RowId, entry: &Entry) -> Option<Finding>
    requires range { IsInRange network.now }
    requires entry { IsEntry network.now row.0 entry.now }
    requires entry_range { IsEntryInRange network.now entry.now }
    requires no_sender { source_of entry.now ≢ entry.now.vl.sender }
    ensures tightest { IsTightestAt network.now (spots.Coming row) result }
    ensures small { IfSome result IsSmall }
{
    let mut best = None;
    let rows = network.row.as_slice().len() as u32;
    'rows: for number in 0..rows {
        best = tighter_of(
            best,
            entering_with(network, row, &entry_of(network, RowId(number)), entry),
        );
    }
    best
}

/// The row's offset, and the place behind the window of the other, if that enters the row's source.
fn entering_with(network: &Network, row: RowId, entering: &Entry, entry: &Entry) -> Option<Finding>
    requires range { IsInRange network.now }
    requires entering { IsEntryInRange network.now entering.now }
    requires entry { IsEntryInRange network.now entry.now }
    ensures is { MatchOption result (EntersSource entering.now entry.now → ⊥)
        (λ f. EntersSource entering.now entry.now × (f ≡ entering_bound network.now row entering.now entry.now)) }
    ensures small { IfSome result IsSmall }
{
    if entry.row.vl != entering.row.vl || entering.target() != entry.source() {
        return None;
    }
    let wants = window_of(network, entering).to.amount() + 1;
    Some(found(BoundedNumber::Coming(row), entry.row.offset.amount(), wants))
}
