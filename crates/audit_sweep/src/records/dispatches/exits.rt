ghost use Rattle.std.specs.Prelude.{if◌then◌else◌, ◌++◌, ◌<◌, ◌==◌, ◌^◌, ◌∷◌, ◌≡◌, IfOk, OnOk, [], length};
ghost use Rattle.net_plan.specs.{Ranges.{IsInRange, IsWithin}, declared.ids.LinkId.LinkId as LinkIdValue};
ghost use Rattle.net_plan.specs.declared.network.Network.{Network as NetworkValue};
ghost use Rattle.audit_sweep.specs.records.dispatches.Exits.{AreExits, AreNoRows, rows_on};
ghost use Rattle.audit_sweep.specs.records.dispatches.Leaving.{AreRowsOn, leaving_by};

use crate::records::dispatches::LeavingRow;
use net_plan::{LinkId, Network, RowId};
use schedule_tables::{Entry, entry_of};
use std::alloc::{AllocError, Global};

/// The rows of a network by which time-triggered frames are put on its links.
#[derive(Drop)]
pub struct Exits {
    links: Vec<Vec<LeavingRow>>,
}

impl Exits {
    /// The rows of the network.
    ///
    /// Fails when memory runs out.
    pub fn new(alloc: Global, network: &Network) -> Result<Exits, AllocError>
        requires { IsInRange network.now }
        ensures { IfOk result (AreExits network.now) }
    {
        let mut exits = Exits::empty(alloc, network)?;
        for place in 0..network.row.as_slice().len() {
            let entry = entry_of(network, RowId(place as u32));
            exits.push(&entry)?;
        }
        Ok(exits)
    }

    /// The rows by which frames are put on the link.
    pub fn on(&self, link: LinkId) -> &[LeavingRow]
        ensures { (network : NetworkValue) → AreExits network self.now → AreRowsOn network link result.now }
    {
        match self.links.as_slice().get(link.0 as usize) {
            Some(rows) => rows.as_slice(),
            None => &[],
        }
    }

    /// No rows, on the links of the network.
    fn empty(alloc: Global, network: &Network) -> Result<Exits, AllocError>
        ensures { IfOk result (AreNoRows network.now) }
    {
        let mut links = Vec::new(alloc);
        for _ in 0..network.link.as_slice().len() {
            links.push(Vec::new(alloc))?;
        }
        Ok(Exits { links })
    }

    /// Keeps the row of the entry, too.
    fn push(&mut self, entry: &Entry) -> Result<(), AllocError>
        requires there { entry.now.row.link.0 < length self.old.links.items }
        requires offset { IsWithin 0 (2 ^ 40) entry.now.row.offset }
        ensures rows { (link : LinkIdValue) → OnOk result (rows_on self.new link
            ≡ (if link.0 == entry.now.row.link.0 then rows_on self.old link ++ leaving_by entry.now ∷ []
            else rows_on self.old link)) }
        ensures links { length self.new.links.items ≡ length self.old.links.items }
    {
        self.links[entry.row.link.0 as usize].push(LeavingRow::of(entry))?;
        Ok(())
    }
}
