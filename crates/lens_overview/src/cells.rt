//! The cells of a row.
ghost use Rattle.std.specs.Prelude.{◌+◌, ◌<◌, ◌^◌, ◌≡◌, ◌≤◌, IfOk, List, [], filter_map, fold, replicate};
ghost use Rattle.lens_overview.specs.Cells.{cells_of, cut, filled, filled_from, flow_cells, in_column, is_alike, is_any};
ghost use Rattle.lens_overview.specs.Cells.{is_same_way, narrowed, seen, shade_at, taken, turned, worst};
ghost use Rattle.lens_overview.specs.{Copies.coming, Grids.{IsNarrow, most_columns}, Parts.ArePartOf};
ghost use Rattle.lens_overview.specs.declared.parts.RowSort.TheVariants.{Changes, Counts};
ghost use Rattle.lens_overview.specs.declared.shade.Shade.{Shade as ShadeValue};
ghost use Rattle.lens_svg.specs.Sketching.{with_at};

use crate::copies::LinkRun;
use crate::grid::Grid;
use crate::label::{Label, is_kind};
use crate::news::{Change, News};
use crate::shade::{Shade, delivered, is_blank, is_same, more, repeated, worse};
use net_plan::{DeviceId, LinkId, VlId, Way};
use std::alloc::Global;
use tte_io::OutOfMemory;

/// What the cells are filled from: what the records tell, those of them that may fill rows of each sort, the copies that
/// come by them, the last cycle, and the columns.
#[derive(Clone, Copy)]
pub(crate) struct Run<'a> {
    pub(crate) news: &'a [News],
    pub(crate) counts: &'a [News],
    pub(crate) changes: &'a [News],
    pub(crate) copies: &'a [Change],
    ghost counts_are: { ArePartOf Counts news.now counts.now },
    ghost changes_are: { ArePartOf Changes news.now changes.now },
    ghost copies_are: { copies.now ≡ filter_map (λ news. coming news.change) news.now },
    pub(crate) last: u32,
    pub(crate) grid: Grid,
}

/// So many cells of one shade, and one more.
pub(crate) fn even(alloc: Global, shade: Shade, before: u64) -> Result<Vec<Shade>, OutOfMemory>
    requires { before < 2 ^ 60 }
    ensures { IfOk result (λ cells. cells.items ≡ replicate (before + 1) shade) }
{
    let mut cells = Vec::new(alloc);
    'cells: for _place in 0..before + 1 {
        match cells.push(shade) {
            Ok(()) => (),
            Err(_) => return Err(OutOfMemory),
        }
    }
    Ok(cells)
}

/// Puts another shade into a cell, if there is such a cell.
fn put_at(cells: &mut [Shade], place: usize, shade: Shade)
    ensures { cells.new ≡ with_at cells.old place shade }
{
    if place < cells.len() {
        cells[place] = shade;
    }
}

/// The shade of a cell, or none where there is no such cell.
fn shade_at(cells: &[Shade], place: usize) -> Shade
    ensures { result ≡ shade_at cells.now place }
{
    match cells.get(place) {
        Some(shade) => *shade,
        None => Shade::Blank,
    }
}

/// Fills the cells from this one on.
fn fill_from(cells: &mut [Shade], from: usize, shade: Shade)
    ensures { cells.new ≡ filled_from cells.old from shade }
{
    'cells: for place in from..cells.len() {
        cells[place] = shade;
    }
}

/// Fills the cells of a device's lane from what a record changes in this column.
fn turn(cells: &mut [Shade], device: DeviceId, column: usize, change: Change)
    ensures { cells.new ≡ turned device column change cells.old }
{
    match change {
        Change::Turns(other, shade) => {
            if other.0 == device.0 {
                fill_from(cells, column, shade);
            }
        }
        Change::Nothing
        | Change::Cuts(_, _)
        | Change::Heals(_, _)
        | Change::Sends(_, _)
        | Change::Delivers(_)
        | Change::Repeats(_) => (),
    }
}

/// Are they one way of one link?
fn is_same_way(link: LinkId, way: Way, other: LinkId, of: Way) -> bool
    ensures { result ≡ is_same_way link way other of }
{
    if link.0 != other.0 {
        return false;
    }
    match (way, of) {
        (Way::Up, Way::Up) | (Way::Down, Way::Down) => true,
        (Way::Up, Way::Down) | (Way::Down, Way::Up) => false,
    }
}

/// Fills the cells of a way: it is cut in each column in which it is cut at some time.
fn cut(cells: &mut [Shade], link: LinkId, way: Way, column: usize, change: Change)
    requires { column < 2 ^ 60 }
    ensures { cells.new ≡ cut link way column change cells.old }
{
    match change {
        Change::Cuts(other, of) => {
            if is_same_way(link, way, other, of) {
                fill_from(cells, column, Shade::Cut);
            }
        }
        Change::Heals(other, of) => {
            if is_same_way(link, way, other, of) {
                fill_from(cells, column + 1, Shade::Blank);
            }
        }
        Change::Nothing
        | Change::Turns(_, _)
        | Change::Sends(_, _)
        | Change::Delivers(_)
        | Change::Repeats(_) => (),
    }
}

/// Fills the cell of a frame's cycle, where it is the virtual link's at the receiver.
fn see(cells: &mut [Shade], vl: VlId, device: DeviceId, change: Change)
    ensures { cells.new ≡ seen vl device change cells.old }
{
    match change {
        Change::Delivers(copied) => {
            if copied.vl.0 == vl.0 && copied.device.0 == device.0 {
                let place = copied.cycle as usize;
                put_at(
                    cells,
                    place,
                    delivered(shade_at(cells, place), copied.channel),
                );
            }
        }
        Change::Repeats(copied) => {
            if copied.vl.0 == vl.0 && copied.device.0 == device.0 {
                let place = copied.cycle as usize;
                put_at(
                    cells,
                    place,
                    repeated(shade_at(cells, place), copied.channel),
                );
            }
        }
        Change::Nothing
        | Change::Turns(_, _)
        | Change::Cuts(_, _)
        | Change::Heals(_, _)
        | Change::Sends(_, _) => (),
    }
}

/// Fills the cells of a row from what a record tells.
fn take(cells: &mut [Shade], grid: Grid, label: Label, news: &News)
    requires { IsNarrow grid }
    ensures { cells.new ≡ taken grid label cells.old news.now }
{
    match label {
        Label::Count(kind) => {
            if is_kind(kind, news.kind) {
                let column = grid.column_of(news.cycle);
                put_at(cells, column, more(shade_at(cells, column)));
            }
        }
        Label::Lane(device) => turn(cells, device, grid.column_of(news.cycle), news.change),
        Label::Passage(link, way) => cut(cells, link, way, grid.column_of(news.cycle), news.change),
        Label::Flow(vl, device) => see(cells, vl, device, news.change),
        Label::Title(_) | Label::Others(_, _) | Label::Flows(_, _) => (),
    }
}

/// The records that may fill the row: the others leave its cells as they are.
fn part_for<'a>(run: Run<'a>, label: Label) -> &'a [News]
    ensures { (cells : List ShadeValue) → fold (taken run.entry.grid label) cells result.now
        ≡ fold (taken run.entry.grid label) cells run.entry.news.now }
{
    match label {
        Label::Count(_) => run.counts,
        Label::Lane(_) => run.changes,
        Label::Passage(_, _) => run.changes,
        Label::Flow(_, _) | Label::Title(_) | Label::Others(_, _) | Label::Flows(_, _) => run.news,
    }
}

/// The cells of a row of so many, which begins with this shade.
fn filled(
    alloc: Global,
    run: Run<'_>,
    label: Label,
    start: Shade,
    before: u64,
) -> Result<Vec<Shade>, OutOfMemory>
    requires narrow { IsNarrow run.grid }
    requires few { before < 2 ^ 60 }
    ensures { IfOk result (λ cells. cells.items ≡ filled run.entry.grid run.entry.news.now label start before) }
{
    let mut cells = even(alloc, start, before)?;
    let some = part_for(run, label);
    'all: for news in some {
        take(&mut cells, run.grid, label, news);
    }
    Ok(cells)
}

/// The cells of a row, one for each column.
pub(crate) fn cells_of(
    alloc: Global,
    run: Run<'_>,
    label: Label,
    start: Shade,
) -> Result<Vec<Shade>, OutOfMemory>
    requires { IsNarrow run.grid }
    ensures { IfOk result (λ cells. cells.items ≡ cells_of run.entry.grid run.entry.news.now label start) }
{
    filled(alloc, run, label, start, run.grid.columns - 1)
}

/// The cells of the cycles of a column.
fn in_column(grid: Grid, each: &[Shade], column: u64) -> &[Shade]
    requires narrow { IsNarrow grid }
    requires within { column ≤ most_columns }
    ensures { result.now ≡ in_column grid each.now column }
{
    let from = (grid.cycles * column).min(each.len() as u64);
    let to = (from + grid.cycles).min(each.len() as u64);
    &each[from as usize..to as usize]
}

/// The worst of cells.
fn worst(cells: &[Shade]) -> Shade
    ensures { result ≡ worst cells.now }
{
    let mut worst = Shade::Blank;
    'cells: for shade in cells {
        worst = worse(worst, *shade);
    }
    worst
}

/// Of a cell for each cycle one for each column: the worst.
fn narrowed(alloc: Global, grid: Grid, each: &[Shade]) -> Result<Vec<Shade>, OutOfMemory>
    requires { IsNarrow grid }
    ensures { IfOk result (λ cells. cells.items ≡ narrowed grid each.now) }
{
    let mut cells = Vec::new(alloc);
    'columns: for column in 0..grid.columns {
        match cells.push(worst(in_column(grid, each, column))) {
            Ok(()) => (),
            Err(_) => return Err(OutOfMemory),
        }
    }
    Ok(cells)
}

/// The cells of the virtual link's frames at a receiver. Frames that are owed are delivered, so none is missing.
pub(crate) fn cells_of_flow(
    alloc: Global,
    own: &LinkRun<'_>,
    device: DeviceId,
) -> Result<Vec<Shade>, OutOfMemory>
    ensures { IfOk result (λ cells. cells.items
        ≡ flow_cells own.now.run.grid own.now.run.news.now own.now.run.last [] own.now.vl device) }
{
    let copies = own.copies.as_slice();
    let mut each = even(alloc, Shade::Blank, u64::from(own.run.last))?;
    'copies: for change in copies {
        see(&mut each, own.vl, device, *change);
    }
    narrowed(alloc, own.run.grid, &each)
}

/// Is a cell of them filled?
pub(crate) fn is_any(cells: &[Shade]) -> bool
    ensures { result ≡ is_any cells.now }
{
    cells.iter().any(|shade| !is_blank(*shade))
}

/// Are they alike?
pub(crate) fn is_alike(cells: &[Shade], others: &[Shade]) -> bool
    ensures { result ≡ is_alike cells.now others.now }
{
    if cells.len() != others.len() {
        return false;
    }
    'cells: for place in 0..cells.len() {
        if !is_same(cells[place], others[place]) {
            return false;
        }
    }
    true
}
