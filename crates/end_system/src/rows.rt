ghost use Rattle.std.specs.Prelude.{◌%◌, ◌*◌, ◌++◌, ◌+◌, ◌-ℤ◌, ◌<ℤ◌, ◌<◌, ◌^◌, ◌∷◌, ◌≡◌, ◌≤ℤ◌, ◌≤◌, IfOk, IfSome, List};
ghost use Rattle.std.specs.Prelude.{OnOk, Some, [], length, pos, ℕ, ℤ};
ghost use Rattle.end_system.specs.{Agendas.{IsDispatch, IsLocal}, Owns.{HasOwnRange, IsOwnOf}};
ghost use Rattle.end_system.specs.RowSlots.{AreRowsOf, AreSomeRows, IsAtSlot, IsFirstFrom};
ghost use Rattle.net_plan.specs.{Ranges.IsInRange, declared.network.Network.{Network as NetworkValue}};
ghost use Rattle.{net_plan.specs.declared.ids.DeviceId.{DeviceId as DeviceIdValue}, sync_state.specs.Standing.Standing};
ghost use Rattle.{run_law.specs.machines.Nodes.{ClockTask, dispatching}, tte_units.specs.Amount.amount};
ghost use Rattle.sync_state.specs.{correction.Deviation.IsSmall, declared.state.State.TheVariants.Synchronised};

use crate::OutOfMemory;
use crate::agenda::reading_at;
use crate::own::Own;
use net_plan::{DeviceId, LinkId, Network, RowId};
use schedule_tables::{DispatchPlace, RESIDUES, Slot, Whose, first_slot, slots_of};
use std::alloc::Global;
use tte_units::Units;

/// The rows that a device dispatches.
#[derive(Drop)]
pub struct OwnRows {
    device: DeviceId,
    /// A slot for each row and residue in which the row's virtual link occurs, in ascending order.
    slots: Vec<Slot>,
}

/// A dispatch to come.
#[derive(Clone, Copy, Debug)]
pub struct Dispatch {
    pub slot: Slot,
    pub cycle: u32,
    /// The reading at which it comes.
    pub at: Units,
}

impl OwnRows {
    /// The rows of which the device is the sender.
    pub fn new(alloc: Global, network: &Network, device: DeviceId) -> Result<OwnRows, OutOfMemory>
        requires { IsInRange network.now }
        ensures { IfOk result (AreRowsOf network.now device) }
    {
        let slots = slots_of(alloc, network, Whose::SentBy(device))?;
        Ok(OwnRows { device, slots })
    }

    /// The first dispatch at a local value behind this one.
    pub(crate) fn first_behind(
        &self,
        own: &Own,
        adjustment: Units,
        local: Units,
    ) -> Option<Dispatch>
        requires range { HasOwnRange own.now }
        requires rows { AreSomeRows self.now }
        requires small { IsSmall adjustment.0 }
        requires local { IsLocal local }
        ensures slot { IfSome result (IsAtSlot self.now) }
        ensures next { (network : NetworkValue) (device : DeviceIdValue) (s : Standing)
            → IsOwnOf network device own.now → AreRowsOf network device self.now
            → s.adjustment ≡ adjustment → s.state ≡ Synchronised → IsDispatch network device s local.0 [] result }
    {
        let length = own.plan.cycle_length.amount();
        let value = value_behind(own, local);
        let cycle = (value / length) as u32;
        let bound = Slot {
            device: self.device,
            residue: cycle % RESIDUES,
            place: DispatchPlace {
                offset: value % length + 1,
                link: LinkId(0),
                row: RowId(0),
            },
        };
        self.first_from(own, adjustment, cycle - cycle % RESIDUES, bound)
    }

    /// The dispatch that comes next after this one.
    pub(crate) fn next_behind(
        &self,
        own: &Own,
        adjustment: Units,
        last: Dispatch,
    ) -> Option<Dispatch>
        requires range { HasOwnRange own.now }
        requires rows { AreSomeRows self.now }
        requires small { IsSmall adjustment.0 }
        requires cycle { last.cycle * amount own.now.plan.cycle_length ≤ 2 ^ 62 }
        requires slot { IsAtSlot self.now last }
        ensures slot { IfSome result (IsAtSlot self.now) }
        ensures next { (network : NetworkValue) (device : DeviceIdValue) (s : Standing) (changed : ℤ)
            (done : List ClockTask) → IsOwnOf network device own.now → AreRowsOf network device self.now
            → s.adjustment ≡ adjustment → IsDispatch network device s changed done (Some last)
            → IsDispatch network device s changed (done ++ dispatching last.slot.place.row last.cycle ∷ []) result }
    {
        let mut bound = last.slot;
        bound.place.row = RowId(last.slot.place.row.0 + 1);
        self.first_from(own, adjustment, last.cycle - last.cycle % RESIDUES, bound)
    }

    /// The dispatch of the first slot that is not below the bound in the 64 cycles from `first` on, or of the first
    /// slot in the next 64 cycles.
    fn first_from(&self, own: &Own, adjustment: Units, first: u32, bound: Slot) -> Option<Dispatch>
        requires range { HasOwnRange own.now }
        requires rows { AreSomeRows self.now }
        requires small { IsSmall adjustment.0 }
        requires whole { first % 64 ≡ 0 }
        requires first { first * amount own.now.plan.cycle_length ≤ 2 ^ 62 }
        requires same { bound.device ≡ self.now.device }
        ensures { IsFirstFrom own.now self.now adjustment.0 first bound result }
    {
        match first_slot(&self.slots, bound) {
            Some(slot) => Some(dispatch_of(own, adjustment, first, slot)),
            None => {
                let slot = self.slots.get(0)?;
                Some(dispatch_of(own, adjustment, first + RESIDUES, *slot))
            }
        }
    }
}

/// The dispatch of a slot in the 64 cycles from `first` on.
fn dispatch_of(own: &Own, adjustment: Units, first: u32, slot: Slot) -> Dispatch
    requires range { HasOwnRange own.now }
    requires small { IsSmall adjustment.0 }
    requires residue { slot.residue < 64 }
    requires offset { slot.place.offset ≤ 2 ^ 40 }
    requires first { first * amount own.now.plan.cycle_length ≤ 2 ^ 62 + 2 ^ 46 }
    ensures slot { result.slot ≡ slot }
    ensures cycle { result.cycle ≡ first + result.slot.residue }
    ensures at { result.at.0 ≡ (pos (result.cycle * amount own.now.plan.cycle_length + result.slot.place.offset)
        -ℤ adjustment.0) }
{
    let cycle = first + slot.residue;
    let value = u64::from(cycle) * own.plan.cycle_length.amount() + slot.place.offset;
    Dispatch {
        slot,
        cycle,
        at: reading_at(value, adjustment),
    }
}

/// The local value, or the last of cycle 0, in which nothing is dispatched.
fn value_behind(own: &Own, local: Units) -> u64
    requires range { HasOwnRange own.now }
    requires local { IsLocal local }
    ensures begun { amount own.now.plan.cycle_length ≤ result + 1 }
    ensures least { local.0 ≤ℤ pos result }
    ensures fits { result < 2 ^ 62 }
    ensures next { (value : ℕ) → amount own.now.plan.cycle_length ≤ value → local.0 <ℤ pos value → result < value }
{
    let last = own.plan.cycle_length.amount() - 1;
    if local.0 < last as i64 {
        last
    } else {
        local.amount()
    }
}
