//! What a compression master collects.

ghost use Rattle.std.specs.Prelude.{◌≡◌, ◌*◌, int_lt, pos};
ghost use Rattle.{device_rules.specs.Widths.IsWide, net_plan.specs.Ranges.IsInRange, tte_units.specs.Amount.amount};
ghost use Rattle.run_law.specs.control.Collections.{dispatch_value, is_number, point_fault};

use crate::network::{cycle_of, dmax, precision};
use crate::standpoint::{is_synchronised, shown};
use net_plan::Network;
use run_law::{Reason, place_in_cycle};
use sync_state::State;

/// Why a compression master in this state and with this adjustment drops a frame of the cycle at its point, if it does:
/// the dispatch lies too far from the beginning of a cycle, or is that of another cycle than the frame's.
///
/// The adjustment and the point lie from -2^80 to 2^80.
pub fn point_fault(
    network: &Network,
    state: State,
    adjustment: i128,
    point: i128,
    cycle: u32,
) -> Option<Reason>
    requires range { IsInRange network.now }
    requires adjustment { IsWide adjustment }
    requires point { IsWide point }
    ensures { result ≡ point_fault network.now state adjustment point cycle }
{
    if !is_synchronised(state) {
        return None;
    }
    let value = dispatch_value(network, adjustment, point);
    if is_far(network, place_in_cycle(network, value)) {
        Some(Reason::Gate)
    } else if !is_number(cycle_of(network, value), cycle) {
        Some(Reason::Cycle)
    } else {
        None
    }
}

/// The local value at which the frame of the point was dispatched, as it seems, and two precisions.
fn dispatch_value(network: &Network, adjustment: i128, point: i128) -> i128
    requires range { IsInRange network.now }
    requires adjustment { IsWide adjustment }
    requires point { IsWide point }
    ensures { result ≡ dispatch_value network.now adjustment point }
{
    shown(point, adjustment) - dmax(network) + 2 * precision(network)
}

/// Is the place farther than four precisions from where the cycle seems to begin?
fn is_far(network: &Network, place: i128) -> bool
    requires { IsInRange network.now }
    ensures { result ≡ int_lt (pos (4 * amount network.now.precision)) place }
{
    4 * precision(network) < place
}

/// Is the whole number this one?
pub fn is_number(z: i128, n: u32) -> bool
    ensures { result ≡ is_number z n }
{
    let n = i128::from(n);
    z <= n && n <= z
}
