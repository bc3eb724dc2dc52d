//! The strip of the greatest spread of each column.
ghost use Rattle.std.specs.Prelude.{◌≡◌, IfOk, None, replicate};
ghost use Rattle.lens_overview.specs.{Bars.{bars_of, greater, greatest_of, raised}, Grids.IsNarrow};

use crate::cells::Run;
use crate::grid::Grid;
use crate::news::News;
use std::alloc::Global;
use tte_io::OutOfMemory;

/// The greater of two spreads, where there are any.
fn greater(first: Option<u128>, second: Option<u128>) -> Option<u128>
    ensures { result ≡ greater first second }
{
    match (first, second) {
        (Some(first), Some(second)) => Some(first.max(second)),
        (Some(first), None) => Some(first),
        (None, second) => second,
    }
}

/// No spread in any column.
fn no_bars(alloc: Global, columns: u64) -> Result<Vec<Option<u128>>, OutOfMemory>
    ensures { IfOk result (λ bars. bars.items ≡ replicate columns None) }
{
    let mut bars = Vec::new(alloc);
    'columns: for _place in 0..columns {
        match bars.push(None) {
            Ok(()) => (),
            Err(_) => return Err(OutOfMemory),
        }
    }
    Ok(bars)
}

/// Raises the bar of the column of what a record tells, if there is such a column.
fn raise(bars: &mut [Option<u128>], grid: Grid, news: &News)
    requires { IsNarrow grid }
    ensures { bars.new ≡ raised grid bars.old news.now }
{
    let column = grid.column_of(news.cycle);
    if column < bars.len() {
        bars[column] = greater(bars[column], news.spread);
    }
}

/// The greatest spread of each column.
pub(crate) fn bars_of(alloc: Global, run: Run<'_>) -> Result<Vec<Option<u128>>, OutOfMemory>
    requires { IsNarrow run.grid }
    ensures { IfOk result (λ bars. bars.items ≡ bars_of run.entry.grid run.entry.news.now) }
{
    let mut bars = no_bars(alloc, run.grid.columns)?;
    'all: for news in run.news {
        raise(&mut bars, run.grid, news);
    }
    Ok(bars)
}

/// The greatest spread of all.
pub(crate) fn greatest_of(all: &[News]) -> Option<u128>
    ensures { result ≡ greatest_of all.now }
{
    let mut greatest = None;
    'all: for news in all {
        greatest = greater(greatest, news.spread);
    }
    greatest
}
