//! The records that fill rows of one sort. Most records fill none, and a picture has many rows.
ghost use Rattle.std.specs.{List.count_by, Prelude.{◌≡◌, IfOk, filter}};
ghost use Rattle.lens_overview.specs.Parts.{is_of, is_turning};

use crate::news::{Change, News};
use std::alloc::Global;
use tte_io::OutOfMemory;

/// A sort of rows.
#[derive(Clone, Copy)]
pub(crate) enum RowSort {
    /// Those of counts.
    Counts,
    /// Those of devices and of ways.
    Changes,
}

/// Does the change turn a device, or cut or heal a way?
fn is_turning(change: Change) -> bool
    ensures { result ≡ is_turning change }
{
    match change {
        Change::Turns(_, _) | Change::Cuts(_, _) | Change::Heals(_, _) => true,
        Change::Nothing | Change::Sends(_, _) | Change::Delivers(_) | Change::Repeats(_) => false,
    }
}

/// May the record fill rows of this sort?
fn is_of(part: RowSort, news: &News) -> bool
    ensures { result ≡ is_of part news.now }
{
    match part {
        RowSort::Counts => news.kind.is_some(),
        RowSort::Changes => is_turning(news.change),
    }
}

/// How many of the records may fill rows of this sort.
fn count_of(all: &[News], part: RowSort) -> usize
    ensures { result ≡ count_by (is_of part) all.now }
{
    all.iter().filter(|news| is_of(part, news)).count()
}

/// The records that may fill rows of this sort.
pub(crate) fn part_of(alloc: Global, all: &[News], part: RowSort) -> Result<Vec<News>, OutOfMemory>
    ensures { IfOk result (λ some. some.items ≡ filter (is_of part) all.now) }
{
    // Room for all is taken at once: a list that grows holds its elements twice.
    let Ok(mut some) = Vec::with_capacity(alloc, count_of(all, part)) else {
        return Err(OutOfMemory);
    };
    'all: for news in all {
        if is_of(part, news) {
            match some.push(*news) {
                Ok(()) => (),
                Err(_) => return Err(OutOfMemory),
            }
        }
    }
    Ok(some)
}
