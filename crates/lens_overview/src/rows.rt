//! The rows of a picture, from the top.
ghost use Rattle.std.specs.Prelude.{◌++◌, ◌<◌, ◌^◌, ◌≡◌, ◌∷◌, IfOk, OnOk, [], length};
ghost use Rattle.lens_overview.specs.{Grids.IsNarrow, Rows.{calm_below, filled_row, is_like, is_turn, is_turned}};
ghost use Rattle.lens_overview.specs.Rows.{joined, lane_at, lane_rows, raised};
ghost use Rattle.lens_overview.specs.Rows.{count_rows, others_row, passage_rows, rows_of, start_of, title_row, told_by};
ghost use Rattle.lens_overview.specs.Rows.{upper_rows, with_calm, with_flows};
ghost use Rattle.net_plan.specs.Ranges.{IsInRange};

use crate::cells::{Run, cells_of, cells_of_flow, even, is_alike, is_any};
use crate::copies::LinkRun;
use crate::label::{Group, Kind, Label, is_of_vl, with_receiver};
use crate::news::{Change, News};
use crate::shade::Shade;
use lens_flows::judge::Flow;
use net_plan::{Device, DeviceId, LinkId, Network, VlId, Way};
use std::alloc::Global;
use std::marker::Model;
use tte_io::OutOfMemory;

/// A row: what it shows, and a cell for each column.
#[derive(Drop)]
pub(crate) struct Row {
    pub(crate) label: Label,
    pub(crate) cells: Vec<Shade>,
}

impl Model for Row {
    ghost use Rattle.lens_overview.specs.Rows.{Row as RowValue};

    ghost Value = { RowValue };

    ghost view = { λ row. record { label = row.label; cells = row.cells.items } };
}

/// What may become of a frame that does not come where it should.
const LOSSES: [Kind; 15] = [
    Kind::Lost,
    Kind::Off,
    Kind::ColdStart,
    Kind::Domain,
    Kind::Member,
    Kind::Old,
    Kind::Gate,
    Kind::Cycle,
    Kind::Unsynchronised,
    Kind::Unknown,
    Kind::Length,
    Kind::Early,
    Kind::Late,
    Kind::Repeat,
    Kind::Refused,
];

/// Adds a row.
fn push_row(rows: &mut Vec<Row>, label: Label, cells: Vec<Shade>) -> Result<(), OutOfMemory>
    ensures { OnOk result (rows.new.items ≡ rows.old.items ++ record { label = label; cells = cells.items } ∷ []) }
{
    match rows.push(Row { label, cells }) {
        Ok(()) => Ok(()),
        Err(_) => Err(OutOfMemory),
    }
}

/// Adds a row without cells.
fn push_title(rows: &mut Vec<Row>, alloc: Global, group: Group) -> Result<(), OutOfMemory>
    ensures { OnOk result (rows.new.items ≡ rows.old.items ++ title_row group) }
{
    push_row(rows, Label::Title(group), Vec::new(alloc))
}

/// Adds a row if a cell of it is filled.
fn push_filled(
    rows: &mut Vec<Row>,
    alloc: Global,
    run: Run<'_>,
    label: Label,
) -> Result<(), OutOfMemory>
    requires { IsNarrow run.grid }
    ensures { OnOk result (rows.new.items ≡ rows.old.items ++ filled_row (told_by run.entry) label) }
{
    let cells = cells_of(alloc, run, label, Shade::Blank)?;
    if is_any(&cells) {
        push_row(rows, label, cells)
    } else {
        Ok(())
    }
}

/// The shade of a device's lane where a run begins.
fn start_of(device: &Device) -> Shade
    ensures { result ≡ start_of device.now.start }
{
    match device.start {
        Some(_) => Shade::Synchronised,
        None => Shade::Off,
    }
}

/// Does what a record changes turn the device?
fn is_turn(device: DeviceId, change: Change) -> bool
    ensures { result ≡ is_turn device change }
{
    match change {
        Change::Turns(other, _) => other.0 == device.0,
        Change::Nothing
        | Change::Cuts(_, _)
        | Change::Heals(_, _)
        | Change::Sends(_, _)
        | Change::Delivers(_)
        | Change::Repeats(_) => false,
    }
}

/// Does one of the records turn the device?
fn is_turned(all: &[News], device: DeviceId) -> bool
    ensures { result ≡ is_turned all.now device }
{
    all.iter().any(|news| is_turn(device, news.change))
}

/// Is the device in another state at some time of the run? The records that change something tell.
fn is_turned_in(run: Run<'_>, device: DeviceId) -> bool
    ensures { result ≡ is_turned run.entry.news.now device }
{
    is_turned(run.changes, device)
}

/// How many devices are in the states of their starts throughout: those that are synchronised, and those that are off.
#[derive(Clone, Copy)]
struct Calm {
    synchronised: u64,
    off: u64,
}

/// The same with one more device.
fn with_calm(calm: Calm, device: &Device) -> Calm
    requires synchronised { calm.synchronised < 2 ^ 32 }
    requires off { calm.off < 2 ^ 32 }
    ensures { result ≡ with_calm calm device.now.start }
{
    match device.start {
        Some(_) => Calm {
            synchronised: calm.synchronised + 1,
            ..calm
        },
        None => Calm {
            off: calm.off + 1,
            ..calm
        },
    }
}

/// Adds the row of the devices that stay as they are, if there are any.
fn push_others(
    rows: &mut Vec<Row>,
    alloc: Global,
    run: Run<'_>,
    calm: Calm,
) -> Result<(), OutOfMemory>
    requires { IsNarrow run.grid }
    ensures { OnOk result (rows.new.items ≡ rows.old.items ++ others_row (told_by run.entry) calm) }
{
    let Calm { synchronised, off } = calm;
    let shade = if synchronised == 0 {
        Shade::Off
    } else {
        Shade::Synchronised
    };
    if synchronised == 0 && off == 0 {
        return Ok(());
    }
    let cells = even(alloc, shade, run.grid.columns - 1)?;
    push_row(rows, Label::Others(synchronised, off), cells)
}

/// How many of the devices none of the records turns.
fn calm_of(network: &Network, all: &[News]) -> Calm
    requires { IsInRange network.now }
    ensures { result ≡ calm_below network.now all.now (length network.now.device) }
{
    let devices = network.device.as_slice();
    let mut calm = Calm {
        synchronised: 0,
        off: 0,
    };
    'devices: for place in 0..devices.len() {
        if !is_turned(all, DeviceId(place as u32)) {
            calm = with_calm(calm, &devices[place]);
        }
    }
    calm
}

/// How many of the devices stay as they are. The records that change something tell.
fn calm_in(network: &Network, run: Run<'_>) -> Calm
    requires { IsInRange network.now }
    ensures { result ≡ calm_below network.now run.entry.news.now (length network.now.device) }
{
    calm_of(network, run.changes)
}

/// Adds the row of the device at this place, if its state changes.
fn push_lane(
    rows: &mut Vec<Row>,
    alloc: Global,
    network: &Network,
    run: Run<'_>,
    place: u32,
) -> Result<(), OutOfMemory>
    requires there { place < length network.now.device }
    requires narrow { IsNarrow run.grid }
    ensures { OnOk result (rows.new.items ≡ rows.old.items ++ lane_at network.now (told_by run.entry) place) }
{
    let device = &network.device.as_slice()[place as usize];
    let label = Label::Lane(DeviceId(place));
    if is_turned_in(run, DeviceId(place)) {
        let cells = cells_of(alloc, run, label, start_of(device))?;
        push_row(rows, label, cells)
    } else {
        Ok(())
    }
}

/// Adds the rows of the devices whose state changes, and one of the others.
fn push_lanes(
    rows: &mut Vec<Row>,
    alloc: Global,
    network: &Network,
    run: Run<'_>,
) -> Result<(), OutOfMemory>
    requires range { IsInRange network.now }
    requires narrow { IsNarrow run.grid }
    ensures { OnOk result (rows.new.items ≡ rows.old.items ++ lane_rows network.now (told_by run.entry)) }
{
    let count = network.device.as_slice().len() as u32;
    'devices: for place in 0..count {
        push_lane(rows, alloc, network, run, place)?;
    }
    push_others(rows, alloc, run, calm_in(network, run))
}

/// Adds the rows of the ways that are cut.
fn push_passages(
    rows: &mut Vec<Row>,
    alloc: Global,
    network: &Network,
    run: Run<'_>,
) -> Result<(), OutOfMemory>
    requires range { IsInRange network.now }
    requires narrow { IsNarrow run.grid }
    ensures { OnOk result (rows.new.items ≡ rows.old.items ++ passage_rows network.now (told_by run.entry)) }
{
    'links: for place in 0..network.link.as_slice().len() {
        let link = LinkId(place as u32);
        push_filled(rows, alloc, run, Label::Passage(link, Way::Up))?;
        push_filled(rows, alloc, run, Label::Passage(link, Way::Down))?;
    }
    Ok(())
}

/// Is the row one of the virtual link of the flow, with such cells?
fn is_like(row: &Row, flow: &Flow, cells: &[Shade]) -> bool
    ensures { result ≡ is_like flow.now.vl cells.now row.now }
{
    is_of_vl(row.label, flow.vl) && is_alike(&row.cells, cells)
}

/// Adds a receiver to a row of frames.
fn add_receiver(row: &mut Row)
    ensures { row.new ≡ raised row.old }
{
    row.label = with_receiver(row.label);
}

/// Adds a flow to the first row of its virtual link with such cells, or as a row of its own.
fn join(rows: &mut Vec<Row>, flow: &Flow, cells: Vec<Shade>) -> Result<(), OutOfMemory>
    ensures { OnOk result (rows.new.items ≡ joined flow.now cells.items rows.old.items) }
{
    'rows: for place in 0..rows.len() {
        if is_like(&rows[place], flow, cells.as_slice()) {
            add_receiver(&mut rows[place]);
            return Ok(());
        }
    }
    push_row(rows, Label::Flow(flow.vl, flow.device), cells)
}

/// Adds a flow of the virtual link.
fn push_flow(
    rows: &mut Vec<Row>,
    alloc: Global,
    own: &LinkRun<'_>,
    flow: &Flow,
) -> Result<(), OutOfMemory>
    requires { own.now.vl ≡ flow.now.vl }
    ensures { OnOk result (rows.new.items ≡ with_flows (told_by own.now.run) [] rows.old.items (flow.now ∷ [])) }
{
    let cells = cells_of_flow(alloc, own, flow.device)?;
    join(rows, flow, cells)
}

/// Adds the rows of the flows, of which those of one virtual link stand together.
fn push_flows(
    rows: &mut Vec<Row>,
    alloc: Global,
    run: Run<'_>,
    flows: &[Flow],
) -> Result<(), OutOfMemory>
    requires { IsNarrow run.grid }
    ensures { OnOk result (rows.new.items ≡ with_flows (told_by run.entry) [] rows.old.items flows.now) }
{
    let mut own = LinkRun::new(alloc, run, VlId(0))?;
    'flows: for flow in flows {
        own = own.turned_to(alloc, flow.vl)?;
        push_flow(rows, alloc, &own, flow)?;
    }
    Ok(())
}

/// Adds the rows of the counts of these kinds, where there are any.
fn push_counts(
    rows: &mut Vec<Row>,
    alloc: Global,
    run: Run<'_>,
    kinds: &[Kind],
) -> Result<(), OutOfMemory>
    requires { IsNarrow run.grid }
    ensures { OnOk result (rows.new.items ≡ rows.old.items ++ count_rows (told_by run.entry) kinds.now) }
{
    'kinds: for kind in kinds {
        push_filled(rows, alloc, run, Label::Count(*kind))?;
    }
    Ok(())
}

/// Adds the rows above those of the flows, from the top.
fn push_upper(
    rows: &mut Vec<Row>,
    alloc: Global,
    network: &Network,
    run: Run<'_>,
) -> Result<(), OutOfMemory>
    requires range { IsInRange network.now }
    requires narrow { IsNarrow run.grid }
    ensures { OnOk result (rows.new.items ≡ rows.old.items ++ upper_rows network.now (told_by run.entry)) }
{
    push_filled(rows, alloc, run, Label::Count(Kind::Event))?;
    push_title(rows, alloc, Group::States)?;
    push_lanes(rows, alloc, network, run)?;
    push_title(rows, alloc, Group::Ways)?;
    push_passages(rows, alloc, network, run)?;
    push_title(rows, alloc, Group::Flows)
}

/// The rows of a run of a network that has these flows, from the top.
pub(crate) fn rows_of(
    alloc: Global,
    network: &Network,
    run: Run<'_>,
    flows: &[Flow],
) -> Result<Vec<Row>, OutOfMemory>
    requires range { IsInRange network.now }
    requires narrow { IsNarrow run.grid }
    ensures { IfOk result (λ rows. rows.items ≡ rows_of network.now (told_by run.entry) [] flows.now) }
{
    let mut rows = Vec::new(alloc);
    push_upper(&mut rows, alloc, network, run)?;
    push_flows(&mut rows, alloc, run, flows)?;
    push_title(&mut rows, alloc, Group::Losses)?;
    push_counts(&mut rows, alloc, run, &LOSSES)?;
    Ok(rows)
}
