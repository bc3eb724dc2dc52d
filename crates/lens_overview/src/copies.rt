//! The copies of frames that come to receivers. A picture has a row for some of the flows of each virtual link, and the
//! copies of one are a small part of all.
ghost use Rattle.std.specs.Prelude.{◌≡◌, IfOk, filter, filter_map};
ghost use Rattle.lens_overview.specs.{Copies.{coming, is_copy_of}, Grids.IsNarrow};

use crate::cells::Run;
use crate::news::{Change, News};
use net_plan::VlId;
use std::alloc::Global;
use tte_io::OutOfMemory;

/// What the record changes, if a copy of a frame comes by it.
fn coming(news: &News) -> Option<Change>
    ensures { result ≡ coming news.now.change }
{
    match news.change {
        Change::Delivers(_) | Change::Repeats(_) => Some(news.change),
        Change::Nothing
        | Change::Turns(_, _)
        | Change::Cuts(_, _)
        | Change::Heals(_, _)
        | Change::Sends(_, _) => None,
    }
}

/// The copies that come by the records.
pub(crate) fn copies_in(alloc: Global, all: &[News]) -> Result<Vec<Change>, OutOfMemory>
    ensures { IfOk result (λ copies. copies.items ≡ filter_map (λ news. coming news.change) all.now) }
{
    match all.iter().filter_map(coming).collect(alloc) {
        Ok(copies) => Ok(copies),
        Err(_) => Err(OutOfMemory),
    }
}

/// Is it a copy of a frame of the virtual link?
fn is_copy_of(vl: VlId, change: Change) -> bool
    ensures { result ≡ is_copy_of vl change }
{
    match change {
        Change::Delivers(copied) | Change::Repeats(copied) => copied.vl.0 == vl.0,
        Change::Nothing
        | Change::Turns(_, _)
        | Change::Cuts(_, _)
        | Change::Heals(_, _)
        | Change::Sends(_, _) => false,
    }
}

/// Those of the copies that are of frames of the virtual link.
fn copies_of(alloc: Global, copies: &[Change], vl: VlId) -> Result<Vec<Change>, OutOfMemory>
    ensures { IfOk result (λ some. some.items ≡ filter (is_copy_of vl) copies.now) }
{
    let mut some = Vec::new(alloc);
    'copies: for change in copies {
        if is_copy_of(vl, *change) {
            match some.push(*change) {
                Ok(()) => (),
                Err(_) => return Err(OutOfMemory),
            }
        }
    }
    Ok(some)
}

/// A run, and the copies of the frames of one virtual link.
#[derive(Drop)]
pub(crate) struct LinkRun<'a> {
    pub(crate) run: Run<'a>,
    pub(crate) vl: VlId,
    pub(crate) copies: Vec<Change>,
    ghost copies_are: { copies.items ≡ filter (is_copy_of vl) run.copies.now },
    ghost narrow: { IsNarrow run.grid },
}

impl<'a> LinkRun<'a> {
    /// That of the virtual link.
    pub(crate) fn new(alloc: Global, run: Run<'a>, vl: VlId) -> Result<LinkRun<'a>, OutOfMemory>
        requires { IsNarrow run.grid }
        ensures { IfOk result (λ own. (own.run ≡ run.entry) × (own.vl ≡ vl)) }
    {
        let copies = copies_of(alloc, run.copies, vl)?;
        Ok(LinkRun { run, vl, copies })
    }

    /// The same where it is of the virtual link, and else that of it.
    pub(crate) fn turned_to(self, alloc: Global, vl: VlId) -> Result<LinkRun<'a>, OutOfMemory>
        ensures { IfOk result (λ own. (own.run ≡ self.entry.run) × (own.vl ≡ vl)) }
    {
        if self.vl.0 == vl.0 {
            return Ok(self);
        }
        LinkRun::new(alloc, self.run, vl)
    }
}
