//! The rows that a network has.
ghost use Rattle.std.specs.Prelude.{◌≡◌, ◌≤◌, All, IfOk};
ghost use Rattle.lens_plan.specs.places.{Offsets.AreSmall, There.{AreThere, taken_by}};
ghost use Rattle.net_plan.specs.{Ranges.{IsInRange}, declared.network.Network.{Network as NetworkValue}};
ghost use Rattle.schedule_tables.specs.Entries.{IsEntryInRange};

use crate::places::offsets::{MessageRow, Taken};
use net_plan::{Network, RowId};
use schedule_tables::{Entry, entry_of};
use std::alloc::Global;
use tte_io::OutOfMemory;

/// The row of an entry.
fn taken_by(entry: &Entry) -> Taken
    requires { (network : NetworkValue) × IsEntryInRange network entry.now }
    ensures value { result ≡ taken_by entry.now }
    ensures small { AreSmall result }
{
    Taken {
        slot: MessageRow {
            link: entry.row.link,
            way: entry.row.way,
            period: entry.vl.period,
            phase: entry.vl.phase,
            port: entry.port_time().amount(),
        },
        offset: entry.row.offset.amount(),
    }
}

/// The rows of the network, in their order.
pub(crate) fn rows_there(alloc: Global, network: &Network) -> Result<Vec<Taken>, OutOfMemory>
    requires { IsInRange network.now }
    ensures are { IfOk result (λ rows. AreThere network.now rows.items) }
    ensures small { IfOk result (λ rows. All AreSmall rows.items) }
{
    let mut rows = Vec::new(alloc);
    let count = network.row.as_slice().len() as u32;
    'rows: for place in 0..count {
        let entry = entry_of(network, RowId(place));
        match rows.push(taken_by(&entry)) {
            Ok(()) => (),
            Err(_) => return Err(OutOfMemory),
        }
    }
    Ok(rows)
}
