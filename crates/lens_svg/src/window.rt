//! The windows of the schedule, and where in them frames come.
ghost use Rattle.std.specs.Prelude.{◌≡◌, ◌≤◌};
ghost use Rattle.lens_svg.specs.{Clocks.IsWide, Windows.{came_of, tick_in, window_by}};
ghost use Rattle.net_plan.specs.Ranges.{IsInRange};

use crate::clock::{distance, share};
use crate::element::PicturePoint;
use crate::{Look, Mark};
use net_plan::{LinkId, Network, RowId, VlId};
use run_law::place_in_cycle;
use schedule_tables::{Window, entry_of, window_of};

/// A frame that was taken: its mark, and how far the tick stands in the box of its window that shows where in it the
/// frame came.
#[derive(Clone, Copy)]
pub struct Came {
    pub place: PicturePoint,
    pub tick: u64,
}

/// Where in its cycle a device takes the virtual link's frame from the link.
fn window_by(network: &Network, vl: VlId, link: LinkId) -> Option<Window>
    requires { IsInRange network.now }
    ensures { result ≡ window_by network.now vl link }
{
    match network.row_of(vl, link) {
        Some(place) => Some(window_of(network, &entry_of(network, RowId(place as u32)))),
        None => None,
    }
}

/// How far from the left of its box the tick stands that shows the place of the window.
fn tick_in(window: Window, at: i128) -> u64
    requires { IsWide at }
    ensures value { result ≡ tick_in window at }
    ensures within { result ≤ 24 }
{
    let from = i128::from(window.from.0);
    if at < from {
        return 0;
    }
    share(
        24,
        distance(at, from),
        distance(i128::from(window.to.0), from),
    )
}

/// Where in its window the frame of the mark came, if it was taken there, when its device's local clock showed this.
pub fn came_of(network: &Network, mark: &Mark, clock: i128) -> Option<Came>
    requires { IsInRange network.now }
    ensures { result ≡ came_of network.now mark.now clock }
{
    match mark.look {
        Look::Taken(link, vl) => match window_by(network, vl, link) {
            Some(window) => Some(Came {
                place: PicturePoint {
                    x: mark.x,
                    y: mark.y,
                },
                tick: tick_in(window, place_in_cycle(network, clock)),
            }),
            None => None,
        },
        Look::Plain | Look::Waited | Look::Gone | Look::Turned(_) => None,
    }
}
