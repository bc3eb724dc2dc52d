//! How near the deliveries of a flow come to the ends of their windows.

ghost use Rattle.std.specs.Prelude.{◌≡◌, ◌<◌, ◌+ℤ◌, ◌^◌, ◌≤◌, ◌≤ℤ◌, List, length, neg_ℤ, pos};
ghost use Rattle.lens_flows.specs.counts.Nearest.{IsInside, IsInsideRow, IsInsideSome, TellsLeast, nearer, place_at};
ghost use Rattle.lens_flows.specs.judge.{Courses.{IsCourse, IsFit, IsSomeCourse, scenario_of}, Flows.AreWithin};
ghost use Rattle.net_plan.specs.{Belonging.HasDevice, Ranges.IsInRange, declared.event.Event.Event};
ghost use Rattle.run_law.specs.records.Happenings.{Happening};

use crate::judge::{Course, Flow};
use audit_devices::Shown;
use net_plan::{DeviceId, LinkId, Network, RowId};
use run_law::place_in_cycle;
use schedule_tables::{Window, entries_law, entry_of, window_of};

/// The least distances to the two ends of a window, in units of 2^-16 ns.
#[derive(Clone, Copy, PartialEq, Eq)]
pub struct Nearest {
    pub early: u64,
    pub late: u64,
}

/// The place in its cycle of the device's clock, when something comes at the time, which is at most 2^60.
pub(crate) fn place_at(course: &Course<'_>, device: DeviceId, time: u64) -> u64
    requires fit { IsFit course.now }
    requires known { IsSomeCourse course.now }
    requires device { HasDevice course.now.network.now device }
    requires limit { time ≤ 2 ^ 60 }
    ensures place { (befallen : List Event) (hs : List Happening) → IsCourse befallen hs course.now
        → pos result ≡ place_at (scenario_of course.now befallen) hs device time }
    ensures most { result ≤ 2 ^ 40 }
{
    let shown = course.standings.before_time(device, time);
    let reading = course.events.reading(device, time);
    from_begin(place_in_cycle(course.network, local(shown, reading)))
}

/// How far a place in a cycle lies behind the cycle's beginning.
fn from_begin(place: i128) -> u64
    requires low { pos 0 ≤ℤ place }
    requires high { place ≤ℤ pos (2 ^ 40) }
    ensures same { pos result ≡ place }
    ensures most { result ≤ 2 ^ 40 }
{
    place as u64
}

/// What the local clock shows where it reads this.
fn local(shown: &Shown, reading: u64) -> i128
    ensures value { result ≡ pos reading +ℤ shown.now.adjustment }
    ensures least { neg_ℤ (pos (2 ^ 82)) ≤ℤ result }
{
    i128::from(reading) + shown.adjustment()
}

/// The least distances of the place to the ends of the windows of the flow's rows on the link, in which it lies.
pub(crate) fn nearest_by(
    network: &Network,
    flow: &Flow,
    link: LinkId,
    place: u64,
) -> Option<Nearest>
    requires range { IsInRange network.now }
    requires rows { AreWithin network.now flow.now.vl flow.now.rows }
    requires most { place ≤ 2 ^ 40 }
    ensures { TellsLeast (IsInsideSome network.now flow.now link (pos place)) result }
{
    let mut nearest = None;
    'rows: for row in flow.rows.from..flow.rows.to {
        let found = inside_row(network, flow, link, place, RowId(row));
        nearest = nearer(nearest, found);
    }
    nearest
}

/// The same, of one row.
fn inside_row(
    network: &Network,
    flow: &Flow,
    link: LinkId,
    place: u64,
    row: RowId,
) -> Option<Nearest>
    requires range { IsInRange network.now }
    requires row { row.0 < length network.now.row }
    requires most { place ≤ 2 ^ 40 }
    ensures { TellsLeast (IsInsideRow network.now flow.now link (pos place) row.0) result }
{
    entries_law();
    let entry = entry_of(network, row);
    if entry.row.vl.0 != flow.vl.0 {
        return None;
    }
    if entry.target().0 != flow.device.0 {
        return None;
    }
    if entry.row.link.0 != link.0 {
        return None;
    }
    inside(window_of(network, &entry), place)
}

/// How far the place lies from the two ends of the window, if it lies in it.
fn inside(window: Window, place: u64) -> Option<Nearest>
    requires most { place ≤ 2 ^ 40 }
    ensures { TellsLeast (IsInside window (pos place)) result }
{
    let early = i128::from(place) - i128::from(window.from.0);
    let late = i128::from(window.to.0) - i128::from(place);
    if early < 0 {
        return None;
    }
    if late < 0 {
        return None;
    }
    Some(Nearest {
        early: early as u64,
        late: late as u64,
    })
}

/// The nearer of both.
pub(crate) fn nearer(first: Option<Nearest>, second: Option<Nearest>) -> Option<Nearest>
    ensures { result ≡ nearer first second }
{
    match (first, second) {
        (Some(first), Some(second)) => Some(Nearest {
            early: first.early.min(second.early),
            late: first.late.min(second.late),
        }),
        (Some(first), None) => Some(first),
        (None, second) => second,
    }
}
