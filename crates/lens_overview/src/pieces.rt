//! What a picture is made of, and where it stands.
ghost use Rattle.std.specs.Prelude.{◌++◌, ◌≡◌, ◌≤◌, ◌∷◌, IfOk, OnOk, [], length};
ghost use Rattle.lens_overview.specs.{Bars.{bars_of, greatest_of}, Grids.IsNarrow, Rows.{rows_of, told_by}};
ghost use Rattle.lens_overview.specs.Pieces.{bar_at, bar_height, bars_from, below, bottom_of, deepest, front};
ghost use Rattle.lens_overview.specs.Pieces.{not_begun, picture_of, rows_from, stride_of, stroke_to, strokes_from, ticks};
ghost use Rattle.lens_overview.specs.Pieces.{top};
ghost use Rattle.net_plan.specs.Ranges.{IsInRange};

use crate::bars::{bars_of, greatest_of};
use crate::cells::Run;
use crate::grid::{Grid, GridPen};
use crate::label::{Label, height_of};
use crate::rows::{Row, rows_of};
use crate::shade::{Shade, is_blank, is_same};
use crate::signs::OverviewSign;
use lens_flows::judge::Flow;
use net_plan::Network;
use std::alloc::Global;
use tte_io::OutOfMemory;

/// Cells of a row that are filled alike, one beside another.
#[derive(Clone, Copy)]
pub struct Ribbon {
    pub label: Label,
    pub y: u64,
    pub shade: Shade,
    /// Its first column, and the one behind its last.
    pub from: GridPen,
    pub to: GridPen,
}

/// A part of a picture, which has a line.
#[derive(Clone, Copy)]
pub enum Piece {
    /// The beginning of the picture: how wide and how high it is.
    Opening(u64, u64),
    /// The name of the picture.
    Title,
    /// The same, at its head.
    Heading,
    /// Of how many records the picture is.
    Extent(u64),
    /// A line that each picture has.
    Shared(OverviewSign),
    /// How many columns there are, and of how many cycles.
    Caption(Grid),
    /// How far the clocks are apart at most.
    Spread(Option<u128>),
    /// Where a column begins: a line down to here.
    Tick(GridPen, u64),
    /// The bar of a column: how wide and how high it is, and what it stands for.
    Bar(GridPen, u64, u64, u128),
    /// What a row shows, how far down it is, and where it ends.
    Name(Label, u64, u64),
    Stroke(Ribbon),
}

/// How far down the first row is, but for its height.
const TOP: u64 = 150;

/// No row is further down.
const DEEPEST: u64 = 1 << 40;

/// Adds a piece.
fn push(pieces: &mut Vec<Piece>, piece: Piece) -> Result<(), OutOfMemory>
    ensures { OnOk result (pieces.new.items ≡ pieces.old.items ++ piece ∷ []) }
{
    match pieces.push(piece) {
        Ok(()) => Ok(()),
        Err(_) => Err(OutOfMemory),
    }
}

/// How far down the next row is.
fn below(y: u64, label: Label) -> u64
    requires { y ≤ deepest }
    ensures value { result ≡ below y label }
    ensures most { result ≤ deepest }
{
    (y + height_of(label)).min(DEEPEST)
}

/// How far down the last row is.
fn bottom_of(rows: &[Row]) -> u64
    ensures value { result ≡ bottom_of top rows.now }
    ensures most { result ≤ deepest }
{
    let mut bottom = TOP;
    'rows: for row in rows {
        bottom = below(bottom, row.label);
    }
    bottom
}

/// Adds what each picture of so many records begins with.
fn push_front(
    pieces: &mut Vec<Piece>,
    grid: Grid,
    bottom: u64,
    greatest: Option<u128>,
    records: u64,
) -> Result<(), OutOfMemory>
    requires narrow { IsNarrow grid }
    requires limit { bottom ≤ deepest }
    ensures { OnOk result (pieces.new.items ≡ pieces.old.items ++ front grid bottom greatest records) }
{
    push(pieces, Piece::Opening(grid.width(), bottom + 30))?;
    push(pieces, Piece::Title)?;
    push(pieces, Piece::Shared(OverviewSign::Style))?;
    push(pieces, Piece::Shared(OverviewSign::Backdrop))?;
    push(pieces, Piece::Heading)?;
    push(pieces, Piece::Extent(records))?;
    push(pieces, Piece::Shared(OverviewSign::FrameKey))?;
    push(pieces, Piece::Shared(OverviewSign::StateKey))?;
    push(pieces, Piece::Caption(grid))?;
    push(pieces, Piece::Spread(greatest))
}

/// Every how many columns the scale has a number.
fn stride_of(columns: u64) -> u64
    ensures { result ≡ stride_of columns }
{
    if columns <= 20 { 1 } else { 10 }
}

/// Adds the scale: each column of a few, or each tenth.
fn push_ticks(pieces: &mut Vec<Piece>, grid: Grid, bottom: u64) -> Result<(), OutOfMemory>
    requires narrow { IsNarrow grid }
    requires limit { bottom ≤ deepest }
    ensures { OnOk result (pieces.new.items ≡ pieces.old.items ++ ticks grid bottom) }
{
    let stride = stride_of(grid.columns);
    'ticks: for tick in 0..(grid.columns - 1) / stride + 1 {
        push(pieces, Piece::Tick(grid.pen_at(stride * tick), bottom + 8))?;
    }
    Ok(())
}

/// How high a bar is, of which the highest has 36 pixels.
fn bar_height(spread: u128, greatest: u128) -> u64
    ensures { result ≡ bar_height spread greatest }
{
    (spread / (greatest / 36 + 1)).min(35) as u64 + 1
}

/// Adds the bar of a column, if there is one.
fn push_bar(
    pieces: &mut Vec<Piece>,
    grid: Grid,
    column: u64,
    bar: Option<u128>,
    greatest: Option<u128>,
) -> Result<(), OutOfMemory>
    requires { IsNarrow grid }
    ensures { OnOk result (pieces.new.items ≡ pieces.old.items ++ bar_at grid greatest column bar) }
{
    match (bar, greatest) {
        (Some(spread), Some(greatest)) => push(
            pieces,
            Piece::Bar(
                grid.pen_at(column),
                grid.pitch - 1,
                bar_height(spread, greatest),
                spread,
            ),
        ),
        (None, _) | (_, None) => Ok(()),
    }
}

/// Adds the bars of the strip.
fn push_bars(
    pieces: &mut Vec<Piece>,
    grid: Grid,
    bars: &[Option<u128>],
    greatest: Option<u128>,
) -> Result<(), OutOfMemory>
    requires { IsNarrow grid }
    ensures { OnOk result (pieces.new.items ≡ pieces.old.items ++ bars_from grid greatest 0 bars.now) }
{
    'bars: for column in 0..bars.len() {
        push_bar(pieces, grid, column as u64, bars[column], greatest)?;
    }
    Ok(())
}

/// A stroke that begins, so far.
#[derive(Clone, Copy)]
struct BegunStroke {
    shade: Shade,
    column: u64,
}

/// Adds the stroke that ends before the column, if there is anything to be drawn.
fn push_stroke(
    pieces: &mut Vec<Piece>,
    grid: Grid,
    label: Label,
    y: u64,
    begun: BegunStroke,
    column: u64,
) -> Result<(), OutOfMemory>
    requires { IsNarrow grid }
    ensures { OnOk result (pieces.new.items ≡ pieces.old.items ++ stroke_to grid label y begun column) }
{
    if is_blank(begun.shade) {
        return Ok(());
    }
    push(
        pieces,
        Piece::Stroke(Ribbon {
            label,
            y,
            shade: begun.shade,
            from: grid.pen_at(begun.column),
            to: grid.pen_at(column),
        }),
    )
}

/// Adds the strokes of a row.
fn push_strokes(
    pieces: &mut Vec<Piece>,
    grid: Grid,
    label: Label,
    y: u64,
    cells: &[Shade],
) -> Result<(), OutOfMemory>
    requires { IsNarrow grid }
    ensures { OnOk result (pieces.new.items ≡ pieces.old.items ++ strokes_from grid label y not_begun 0 cells.now) }
{
    let mut begun = BegunStroke {
        shade: Shade::Blank,
        column: 0,
    };
    'cells: for place in 0..cells.len() {
        let column = place as u64;
        if !is_same(begun.shade, cells[place]) {
            push_stroke(pieces, grid, label, y, begun, column)?;
            begun = BegunStroke {
                shade: cells[place],
                column,
            };
        }
    }
    push_stroke(pieces, grid, label, y, begun, grid.columns)
}

/// Adds the rows.
fn push_rows(pieces: &mut Vec<Piece>, grid: Grid, rows: &[Row]) -> Result<(), OutOfMemory>
    requires { IsNarrow grid }
    ensures { OnOk result (pieces.new.items ≡ pieces.old.items ++ rows_from grid top rows.now) }
{
    let mut y = TOP;
    'rows: for row in rows {
        y = below(y, row.label);
        push(pieces, Piece::Name(row.label, y, grid.right()))?;
        push_strokes(pieces, grid, row.label, y, row.cells.as_slice())?;
    }
    Ok(())
}

/// The pieces of a picture.
pub(crate) fn pieces_of(
    alloc: Global,
    network: &Network,
    run: Run<'_>,
    flows: &[Flow],
) -> Result<Vec<Piece>, OutOfMemory>
    requires range { IsInRange network.now }
    requires narrow { IsNarrow run.grid }
    ensures { IfOk result (λ all. all.items
        ≡ picture_of run.entry.grid (rows_of network.now (told_by run.entry) [] flows.now) (bars_of run.entry.grid run.entry.news.now)
        (greatest_of run.entry.news.now) (length run.entry.news.now)) }
{
    let rows = rows_of(alloc, network, run, flows)?;
    let bars = bars_of(alloc, run)?;
    let greatest = greatest_of(run.news);
    let bottom = bottom_of(&rows);
    let records = run.news.len() as u64;
    let mut pieces = Vec::new(alloc);
    push_front(&mut pieces, run.grid, bottom, greatest, records)?;
    push_ticks(&mut pieces, run.grid, bottom)?;
    push_bars(&mut pieces, run.grid, &bars, greatest)?;
    push_rows(&mut pieces, run.grid, &rows)?;
    push(&mut pieces, Piece::Shared(OverviewSign::Close))?;
    Ok(pieces)
}
