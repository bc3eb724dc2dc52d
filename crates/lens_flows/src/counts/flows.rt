//! The flows of a network.

ghost use Rattle.std.specs.Prelude.{◌≡◌, ◌<◌, ◌+◌, IfOk, MatchOption, OnOk, length, ℕ};
ghost use Rattle.lens_flows.specs.counts.{FlowLists.AreFlows, Greatest.{EndsAt, TellsGreatest, later_of}};
ghost use Rattle.{lens_flows.specs.counts.PartLists.{AreFlowsBefore, IsFlowTo}, run_law.specs.law.Safety.IsWindowEnd};
ghost use Rattle.{lens_flows.specs.judge.Flows.{AreWithin, IsRowOf, TellsSpan}, net_plan.specs.{Belonging.HasVl, Ranges.IsInRange}};

use crate::judge::{Flow, RowSpan};
use device_rules::is_end;
use net_plan::{DeviceId, Network, RowId, VlId};
use schedule_tables::{entries_law, entry_of, window_of};
use std::alloc::{AllocError, Global};

/// The flows of the network, in the order of its virtual links, and then of its devices.
///
/// Fails when memory runs out.
pub fn flows_of(alloc: Global, network: &Network) -> Result<Vec<Flow>, AllocError>
    requires { IsInRange network.now }
    ensures { IfOk result (λ flows. AreFlows network.now flows.items) }
{
    let mut flows = Vec::new(alloc);
    'vls: for place in 0..network.vl.as_slice().len() {
        push_flows(&mut flows, network, VlId(place as u32))?;
    }
    Ok(flows)
}

/// Adds the flows of the virtual link.
fn push_flows(flows: &mut Vec<Flow>, network: &Network, vl: VlId) -> Result<(), AllocError>
    requires range { IsInRange network.now }
    requires vl { HasVl network.now vl }
    ensures { OnOk result (AreFlowsBefore network.now vl.0 0 flows.old.items
        → AreFlowsBefore network.now (vl.0 + 1) 0 flows.new.items) }
{
    match rows_of(network, vl) {
        Some(rows) => push_receivers(flows, network, vl, rows),
        None => Ok(()),
    }
}

/// Adds the flows of the virtual link, whose rows stand there.
fn push_receivers(
    flows: &mut Vec<Flow>,
    network: &Network,
    vl: VlId,
    rows: RowSpan,
) -> Result<(), AllocError>
    requires range { IsInRange network.now }
    requires vl { HasVl network.now vl }
    requires rows { AreWithin network.now vl rows }
    ensures { OnOk result (AreFlowsBefore network.now vl.0 0 flows.old.items
        → AreFlowsBefore network.now (vl.0 + 1) 0 flows.new.items) }
{
    'devices: for place in 0..network.device.as_slice().len() {
        push_flow(flows, network, vl, rows, DeviceId(place as u32))?;
    }
    Ok(())
}

/// Adds the flow of the virtual link to the device, if it is one.
fn push_flow(
    flows: &mut Vec<Flow>,
    network: &Network,
    vl: VlId,
    rows: RowSpan,
    device: DeviceId,
) -> Result<(), AllocError>
    requires range { IsInRange network.now }
    requires vl { HasVl network.now vl }
    requires rows { AreWithin network.now vl rows }
    ensures { OnOk result (AreFlowsBefore network.now vl.0 device.0 flows.old.items
        → AreFlowsBefore network.now vl.0 (device.0 + 1) flows.new.items) }
{
    match flow_to(network, vl, rows, device) {
        Some(flow) => {
            flows.push(flow)?;
            Ok(())
        }
        None => Ok(()),
    }
}

/// The flow of the virtual link, whose rows stand there, to the device, if it is one.
fn flow_to(network: &Network, vl: VlId, rows: RowSpan, device: DeviceId) -> Option<Flow>
    requires range { IsInRange network.now }
    requires vl { HasVl network.now vl }
    requires rows { AreWithin network.now vl rows }
    ensures { IsFlowTo network.now vl device result }
{
    if !is_end(network, device) {
        return None;
    }
    match last_end(network, vl, rows, device) {
        Some(last) => Some(Flow {
            vl,
            of_vl: network.vl.as_slice()[vl.0 as usize],
            device,
            last,
            rows,
        }),
        None => None,
    }
}

/// Where the rows of the virtual link stand, if it has any.
fn rows_of(network: &Network, vl: VlId) -> Option<RowSpan>
    requires { IsInRange network.now }
    ensures { MatchOption result ((place : ℕ) → IsRowOf network.now vl place → ⊥) (AreWithin network.now vl) }
{
    let mut span = None;
    'rows: for place in 0..network.row.as_slice().len() {
        span = with_row(network, vl, span, RowId(place as u32));
    }
    span
}

/// The same with the row behind those so far.
fn with_row(network: &Network, vl: VlId, span: Option<RowSpan>, row: RowId) -> Option<RowSpan>
    requires range { IsInRange network.now }
    requires row { row.0 < length network.now.row }
    ensures { TellsSpan network.now vl row.0 span → TellsSpan network.now vl (row.0 + 1) result }
{
    let entry = entry_of(network, row);
    if entry.row.vl.0 != vl.0 {
        return span;
    }
    match span {
        Some(span) => Some(RowSpan {
            from: span.from,
            to: row.0 + 1,
        }),
        None => Some(RowSpan {
            from: row.0,
            to: row.0 + 1,
        }),
    }
}

/// Where the last window of the virtual link at the device ends, if one of its rows leads there.
fn last_end(network: &Network, vl: VlId, rows: RowSpan, device: DeviceId) -> Option<u64>
    requires range { IsInRange network.now }
    requires rows { AreWithin network.now vl rows }
    ensures { TellsGreatest (IsWindowEnd network.now vl device) result }
{
    let mut last = None;
    'rows: for place in rows.from..rows.to {
        last = later_of(last, end_by(network, vl, device, RowId(place)));
    }
    last
}

/// Where the window of the row ends, if it is one of the virtual link into the device.
fn end_by(network: &Network, vl: VlId, device: DeviceId, row: RowId) -> Option<u64>
    requires range { IsInRange network.now }
    requires row { row.0 < length network.now.row }
    ensures { TellsGreatest (EndsAt network.now vl device row.0) result }
{
    entries_law();
    let entry = entry_of(network, row);
    if entry.row.vl.0 != vl.0 {
        return None;
    }
    if entry.target().0 != device.0 {
        return None;
    }
    Some(window_of(network, &entry).to.amount())
}

/// The greater of the two, where there are any.
fn later_of(first: Option<u64>, second: Option<u64>) -> Option<u64>
    ensures { result ≡ later_of first second }
{
    match (first, second) {
        (Some(first), Some(second)) => Some(first.max(second)),
        (Some(first), None) => Some(first),
        (None, second) => second,
    }
}
