//! The time-triggered frames that a device takes.

ghost use Rattle.std.specs.{BTreeMap.get, Int.int_rem_euclid};
ghost use Rattle.std.specs.Prelude.{◌*◌, ◌<◌, ◌^◌, ◌≡◌, ◌≤ℤ◌, ◌≤◌, IfOk, List, None, [], length, map, neg_ℤ, pos};
ghost use Rattle.{device_rules.specs.Entering.entrance_cmp, run_law.specs.device.Standpoints.{Standpoint, clock_of}};
ghost use Rattle.device_rules.specs.Intakes.{HasTaken, IsTakenSo, IsWhole, Takes, cycle_of, last_in};
ghost use Rattle.net_plan.specs.{Ranges.{IsInRange, IsWithin}, declared.network.Network.{Network as NetworkValue}};
ghost use Rattle.net_plan.specs.declared.ids.DeviceId.{DeviceId as DeviceIdValue};
ghost use Rattle.{run_law.specs.machines.{Calls.IsLinkAt, Nodes.TakenFrame}, tte_units.specs.Amount.amount};

use crate::entrances::{Entrance, Which, rows_of};
use crate::{EnteringRow, Heading};
use net_plan::{DeviceId, LinkId, Network, VlId};
use run_law::Reason;
use schedule_tables::OutOfMemory;
use std::alloc::{AllocError, Global};
use std::collections::BTreeMap;
use tte_units::Units;

/// The time-triggered frames that a device takes: by which rows, and which it took last.
#[derive(Drop)]
pub struct Intake {
    rows: BTreeMap<Entrance, EnteringRow>,
    /// The cycle of the device's own in which it took the last frame of each virtual link.
    taken: Vec<Option<u32>>,
}

impl Intake {
    /// The rows by which frames enter the device, which has taken none.
    ///
    /// Fails when memory runs out.
    pub fn new(alloc: Global, network: &Network, device: DeviceId) -> Result<Intake, OutOfMemory>
        requires { IsInRange network.now }
        ensures { IfOk result (λ intake. HasTaken network.now device intake []) }
    {
        let rows = rows_of(alloc, network, Which::Into(device))?;
        let taken = none_taken(alloc, network)?;
        Ok(Intake { rows, taken })
    }

    /// Takes a frame of the heading that comes by the link at the local value, in cycles of this length: its virtual
    /// link and the cycle, which is kept, or why it is dropped.
    ///
    /// The local value lies from -2^62 to 2^62.
    pub fn take(
        &mut self,
        cycle_length: Units,
        link: LinkId,
        heading: &Heading,
        local: Units,
    ) -> Result<(VlId, u32), Reason>
        requires length { IsWithin (2 ^ 32) (2 ^ 40) cycle_length }
        requires low { neg_ℤ (pos (2 ^ 62)) ≤ℤ local.0 }
        requires high { local.0 ≤ℤ pos (2 ^ 62) }
        requires whole { IsWhole self.old }
        ensures fit { IfOk result (λ t. t.1 * amount cycle_length ≤ 2 ^ 62) }
        ensures is { (network : NetworkValue) (device : DeviceIdValue) (at : Standpoint) (taken : List TakenFrame)
            → HasTaken network device self.old taken → IsLinkAt network device link → cycle_length ≡ network.cycle
            → local.0 ≡ clock_of at → IsTakenSo network device link heading.now at taken self.new result }
    {
        let entrance = Entrance {
            link,
            id: heading.id,
        };
        let Some(row) = self.row_at(entrance) else {
            return Err(Reason::Unknown);
        };
        let cycle = cycle_of(local, cycle_length);
        let place = i128::from(place_of(local, cycle_length).0);
        match row.fault(
            heading.length,
            u64::from(cycle),
            place,
            self.last_of(row.vl),
        ) {
            Some(reason) => Err(reason),
            None => {
                self.keep(row.vl, cycle);
                Ok((row.vl, cycle))
            }
        }
    }

    /// The row by which frames come by the entrance.
    fn row_at(&self, entrance: Entrance) -> Option<EnteringRow>
        ensures { result ≡ get entrance_cmp self.now.rows entrance }
    {
        self.rows.get(&entrance).copied()
    }

    /// The cycle in which the last frame of the virtual link was taken.
    fn last_of(&self, vl: VlId) -> Option<u32>
        ensures { result ≡ last_in self.now.taken.items vl }
    {
        match self.taken.get(vl.0 as usize) {
            Some(last) => *last,
            None => None,
        }
    }

    /// Keeps the cycle of the virtual link.
    fn keep(&mut self, vl: VlId, cycle: u32)
        requires { vl.0 < length self.old.taken.items }
        ensures { Takes self.old vl cycle self.new }
    {
        self.taken[vl.0 as usize] = Some(cycle);
    }
}

/// The cycle of a local value, which is 0 before the first cycle.
fn cycle_of(local: Units, length: Units) -> u32
    requires length { IsWithin (2 ^ 32) (2 ^ 40) length }
    requires low { neg_ℤ (pos (2 ^ 62)) ≤ℤ local.0 }
    requires high { local.0 ≤ℤ pos (2 ^ 62) }
    ensures is { result ≡ cycle_of local.0 length.0 }
    ensures fit { result * amount length ≤ 2 ^ 62 }
{
    if local.0 < 0 {
        0
    } else {
        (local.amount() / length.amount()) as u32
    }
}

/// The place of a local value in its cycle.
fn place_of(local: Units, length: Units) -> Units
    requires { IsWithin (2 ^ 32) (2 ^ 40) length }
    ensures { result.0 ≡ int_rem_euclid local.0 length.0 }
{
    Units(local.0.rem_euclid(length.0))
}

/// No frame of any virtual link has been taken.
fn none_taken(alloc: Global, network: &Network) -> Result<Vec<Option<u32>>, AllocError>
    ensures { IfOk result (λ taken. taken.items ≡ map (λ vl. None) network.now.vl) }
{
    let mut taken = Vec::new(alloc);
    for _ in network.vl.as_slice() {
        taken.push(None)?;
    }
    Ok(taken)
}
