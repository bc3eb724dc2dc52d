//! What stands on a sheet, line by line.
ghost use Rattle.std.specs.Prelude.{◌++◌, ◌<◌, ◌∷◌, ◌≡◌, All, IfOk, OnOk, [], length, map};
ghost use Rattle.lens_latency.specs.Comings.{Pushes};
ghost use Rattle.lens_sheet.specs.{Lines.numbers, Sheet.{AreLinesOf, AreVlLines, IsSheet, IsWritable}};
ghost use Rattle.lens_sheet.specs.declared.sheet.SheetLine.TheVariants as lines;
ghost use Rattle.{net_plan.specs.Ranges.IsInRange, schedule_tables.specs.Rules.KeepsRules};

use crate::Load;
use crate::loads::loads_of;
use crate::ways::hops_of;
use lens_latency::{Coming, comings_by};
use net_plan::{Network, VlId};
use std::alloc::Global;
use tte_io::OutOfMemory;

/// A number of the network.
#[derive(Clone, Copy)]
pub enum Number {
    /// The length of the cycle.
    Cycle,
    /// How far the rates of clocks may be off.
    Rho,
    /// The granule of clocks.
    Grain,
    /// How long 2^20 cycles are.
    Life,
    /// How far two clocks drift apart over two cycles.
    Gamma,
    /// How far the time from a dispatch to its permanence may be off.
    Beta,
    /// The greatest delay.
    Dmax,
    /// The spread of the starts.
    Settled,
    Precision,
    /// The place of the correction.
    Correction,
    /// Where the schedule begins.
    TtStart,
    /// From where to where the schedule may go.
    Schedule,
}

/// A line of a sheet.
#[derive(Clone, Copy)]
pub enum SheetLine {
    Number(Number),
    Load(Load),
    /// A virtual link, and the greatest count of rows on a way to a receiver.
    Vl(VlId, u64),
    Coming(Coming),
}

/// All numbers, in their order.
const NUMBERS: [Number; 12] = [
    Number::Cycle,
    Number::Rho,
    Number::Grain,
    Number::Life,
    Number::Gamma,
    Number::Beta,
    Number::Dmax,
    Number::Settled,
    Number::Precision,
    Number::Correction,
    Number::TtStart,
    Number::Schedule,
];

/// Adds one line.
fn push_line(sheet: &mut Vec<SheetLine>, line: SheetLine) -> Result<(), OutOfMemory>
    ensures { OnOk result (sheet.new.items ≡ sheet.old.items ++ line ∷ []) }
{
    match sheet.push(line) {
        Ok(()) => Ok(()),
        Err(_) => Err(OutOfMemory),
    }
}

/// Adds the lines of the numbers.
fn push_numbers(sheet: &mut Vec<SheetLine>) -> Result<(), OutOfMemory>
    ensures { OnOk result (sheet.new.items ≡ sheet.old.items ++ map (λ n. lines.Number n) numbers) }
{
    'numbers: for number in &NUMBERS {
        match push_line(sheet, SheetLine::Number(*number)) {
            Ok(()) => (),
            Err(OutOfMemory) => return Err(OutOfMemory),
        }
    }
    Ok(())
}

/// Adds the lines of the loads.
fn push_loads(sheet: &mut Vec<SheetLine>, loads: &[Load]) -> Result<(), OutOfMemory>
    ensures { OnOk result (sheet.new.items ≡ sheet.old.items ++ map (λ l. lines.Load l) loads.now) }
{
    'loads: for load in loads {
        match push_line(sheet, SheetLine::Load(*load)) {
            Ok(()) => (),
            Err(OutOfMemory) => return Err(OutOfMemory),
        }
    }
    Ok(())
}

/// Adds the lines of the comings.
fn push_comings(sheet: &mut Vec<SheetLine>, comings: &[Coming]) -> Result<(), OutOfMemory>
    ensures { OnOk result (sheet.new.items ≡ sheet.old.items ++ map (λ c. lines.Coming c) comings.now) }
{
    'comings: for coming in comings {
        match push_line(sheet, SheetLine::Coming(*coming)) {
            Ok(()) => (),
            Err(OutOfMemory) => return Err(OutOfMemory),
        }
    }
    Ok(())
}

/// Adds the lines of a virtual link.
fn push_vl(
    alloc: Global,
    network: &Network,
    vl: VlId,
    sheet: &mut Vec<SheetLine>,
) -> Result<(), OutOfMemory>
    requires range { IsInRange network.now }
    requires rules { KeepsRules network.now }
    requires vl { vl.0 < length network.now.vl }
    ensures { OnOk result (Pushes (AreLinesOf network.now vl.0) sheet.old.items sheet.new.items) }
{
    let comings = comings_by(alloc, network, vl)?;
    push_line(sheet, SheetLine::Vl(vl, hops_of(network, vl)))?;
    push_comings(sheet, comings.as_slice())
}

/// Adds the lines of all virtual links.
fn push_vls(alloc: Global, network: &Network, sheet: &mut Vec<SheetLine>) -> Result<(), OutOfMemory>
    requires range { IsInRange network.now }
    requires rules { KeepsRules network.now }
    ensures { OnOk result (Pushes (AreVlLines network.now) sheet.old.items sheet.new.items) }
{
    let vls = network.vl.as_slice().len() as u32;
    'vls: for place in 0..vls {
        match push_vl(alloc, network, VlId(place), sheet) {
            Ok(()) => (),
            Err(OutOfMemory) => return Err(OutOfMemory),
        }
    }
    Ok(())
}

/// All lines of the network's sheet.
pub(crate) fn sheet_of(alloc: Global, network: &Network) -> Result<Vec<SheetLine>, OutOfMemory>
    requires range { IsInRange network.now }
    requires rules { KeepsRules network.now }
    ensures sheet { IfOk result (λ sheet. IsSheet network.now sheet.items) }
    ensures names { IfOk result (λ sheet. All (IsWritable network.now) sheet.items) }
{
    let loads = loads_of(alloc, network)?;
    let mut sheet = Vec::new(alloc);
    push_numbers(&mut sheet)?;
    push_loads(&mut sheet, loads.as_slice())?;
    push_vls(alloc, network, &mut sheet)?;
    Ok(sheet)
}
