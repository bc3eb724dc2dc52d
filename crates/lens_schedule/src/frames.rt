//! The frame of a row in the lane of its port.
ghost use Rattle.std.specs.Prelude.{◌^◌, ◌≡◌, ◌≤◌};
ghost use Rattle.lens_schedule.specs.Frames.{frame_of, height_of, seat_of, stroke_of, window_begin};
ghost use Rattle.{net_plan.specs.Ranges.IsInRange, schedule_tables.specs.Entries.IsEntryInRange};
ghost use Rattle.schedule_tables.specs.Windows.{port_time, window_end};

use crate::Scale;
use lens_svg::PicturePoint;
use net_plan::{LinkId, Network, VlId, Way};
use schedule_tables::{Entry, arrival_of, tolerance};

/// How far to the right of its column something begins and ends, in pixels.
#[derive(Clone, Copy)]
pub struct Stroke {
    pub from: u64,
    pub to: u64,
}

/// A row's frame: when it is dispatched and its window, as places in the cycle in units of 2^-16 ns, how its box on the
/// port and its window are drawn, and where its lane begins.
#[derive(Clone, Copy)]
pub struct Frame {
    pub vl: VlId,
    pub link: LinkId,
    pub way: Way,
    pub offset: u64,
    pub phase: u32,
    pub period: u32,
    pub from: u64,
    pub to: u64,
    pub port: Stroke,
    pub window: Stroke,
    pub at: PicturePoint,
}

/// How far down in its lane a frame stands. Frames that never come in one cycle do not overlap, where their periods are
/// at most 8.
pub(crate) fn seat_of(phase: u64) -> u64
    ensures { result ≡ seat_of phase }
{
    2 + 8 * (phase % 2) + 4 * (phase / 2 % 2) + 2 * (phase / 4 % 2)
}

/// How high it is: the more often it comes, the higher.
pub(crate) fn height_of(period: u64) -> u64
    ensures { result ≡ height_of period }
{
    16 / period.min(8).max(1)
}

/// From one place in the cycle to another.
fn stroke_of(scale: Scale, from: u64, to: u64) -> Stroke
    requires { scale.end ≤ 2 ^ 50 }
    ensures { result ≡ stroke_of scale from to }
{
    Stroke {
        from: scale.x_of(from),
        to: scale.x_of(to),
    }
}

/// How long a row's frame occupies its port.
pub(crate) fn port_time(network: &Network, entry: &Entry) -> u64
    requires { IsEntryInRange network.now entry.now }
    ensures value { result ≡ port_time entry.now }
    ensures bound { result ≤ 2 ^ 33 }
{
    entry.port_time().amount()
}

/// The last place in the receiver's cycle at which it may arrive.
pub(crate) fn window_end(network: &Network, entry: &Entry) -> u64
    requires range { IsInRange network.now }
    requires entry { IsEntryInRange network.now entry.now }
    ensures value { result ≡ window_end network.now entry.now }
    ensures bound { result ≤ 2 ^ 45 }
{
    arrival_of(entry) + entry.link.jitter.amount() + tolerance(network)
}

/// The first one.
fn window_begin(network: &Network, entry: &Entry) -> u64
    requires range { IsInRange network.now }
    requires entry { IsEntryInRange network.now entry.now }
    ensures { result ≡ window_begin network.now entry.now }
{
    arrival_of(entry).saturating_sub(tolerance(network))
}

/// The frame of a row.
pub(crate) fn frame_of(network: &Network, scale: Scale, at: PicturePoint, entry: &Entry) -> Frame
    requires range { IsInRange network.now }
    requires entry { IsEntryInRange network.now entry.now }
    requires scale { scale.end ≤ 2 ^ 50 }
    ensures { result ≡ frame_of network.now scale at entry.now }
{
    let offset = entry.row.offset.amount();
    let from = window_begin(network, entry);
    let to = window_end(network, entry);
    Frame {
        vl: entry.row.vl,
        link: entry.row.link,
        way: entry.row.way,
        offset,
        phase: entry.vl.phase,
        period: entry.vl.period,
        from,
        to,
        port: stroke_of(scale, offset, offset + port_time(network, entry)),
        window: stroke_of(scale, from, to),
        at,
    }
}
