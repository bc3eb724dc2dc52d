ghost use Rattle.std.specs.Prelude.{◌++◌, ◌+◌, ◌<◌, ◌^◌, ◌↔◌, ◌∷◌, ◌≡◌, ◌≤ℤ◌, ◌≤◌, All, Contains, IfNone, IfOk, IfSome};
ghost use Rattle.std.specs.Prelude.{IsTrue, List, Some, [], length, map, pos, slice_get};
ghost use Rattle.compression.specs.{Ascent.offset_at, Clusters.{Point, point_at}, Middle.{middle_of, relative}};
ghost use Rattle.compression.specs.Role.{role};
ghost use Rattle.audit_law.specs.collections.Gathered.{EndsWith, Gathers, HasRow, IsGathered, IsHeld, IsLatest};
ghost use Rattle.audit_law.specs.collections.{Gathered.Sends, Kept.{kept_in, points_kept}, Small.IsSmall};
ghost use Rattle.audit_law.specs.collections.Kept.{IsCounted, cluster_kept, clusters_in, emissions_in, emitted};
ghost use Rattle.audit_law.specs.collections.{Rising.{IsPlaceFor, IsRising}, Steps.{Closes, Grows, Joins, Opens}};

use crate::collections::gathering::Row;
use crate::collections::kept::KeptCluster;
use crate::collections::mean::mean;
use crate::collections::{Emitted, Gathering};
use compression::{Compressed, Taken};
use std::alloc::{AllocError, Global};
use std::marker::Model;
use tte_units::Units;

/// The clusters of the points of one compression master, in any number of stretches.
///
/// It only grows: what a gathering stood for it stands for ever after.
#[derive(Drop)]
pub struct CollectionHistory {
    ow: Units,
    calc: Units,
    counted: Vec<i64>,
    closed: Vec<KeptCluster>,
}

impl Model for CollectionHistory {
    ghost use Rattle.std.specs.Prelude.{pos, ◌≤ℤ◌, All};
    ghost use Rattle.audit_law.specs.collections.Kept.{History, IsCounted};

    ghost Value = { History };

    ghost view = { λ h. record { ow = h.ow.0; calc = h.calc.0; counted = h.counted.items; closed = h.closed.items } };

    ghost invariant = { λ h. (pos 0 ≤ℤ h.ow.0) × All (IsCounted h.counted.items) h.closed.items };
}

impl CollectionHistory {
    /// A history without points. The observation window is not negative.
    pub fn new(alloc: Global, ow: Units, calc: Units) -> CollectionHistory
        requires { pos 0 ≤ℤ ow.0 }
        ensures { result ≡ record { ow = ow.0; calc = calc.0; counted = []; closed = [] } }
    {
        CollectionHistory {
            ow,
            calc,
            counted: Vec::new(alloc),
            closed: Vec::new(alloc),
        }
    }

    /// What becomes of a point that comes behind those of the gathering.
    pub fn role(&self, gathering: &Gathering, reading: i64, master: u32, cycle: u32) -> Taken
        requires { master < 64 }
        ensures { result ≡ role (clusters_in self.now gathering.now) (point_at reading master cycle) }
    {
        let Some(row) = &gathering.row else {
            return Taken::Opened;
        };
        if row.last.end < i128::from(reading) {
            return Taken::Opened;
        }
        row.last.role(reading, master, cycle)
    }

    /// Takes a point, and gives what becomes of it and the gathering with it.
    ///
    /// The gathering is the last that was given, or has no points, and none of its points is later than this one.
    /// Where memory runs out, it may no longer be the last.
    pub fn point(
        &mut self,
        gathering: &Gathering,
        reading: i64,
        master: u32,
        cycle: u32,
    ) -> Result<(Taken, Gathering), AllocError>
        requires master { master < 64 }
        requires latest { IsLatest self.old gathering.now }
        ensures taken { IfOk result (λ t. t.0
            ≡ role (clusters_in self.old gathering.now) (point_at reading master cycle)) }
        ensures latest { IfOk result (λ t. IsLatest self.new t.1) }
        ensures gathers { IfOk result (λ t. (points : List Point) → Gathers self.old gathering.now points
            → All (λ p. p.reading ≤ℤ reading) points
            → Gathers self.new t.1 (points ++ point_at reading master cycle ∷ [])) }

        // Every gathering of before stands for the points that it stood for, also where memory runs out.
        ensures kept { (other : _) (points : List Point) → Gathers self.old other points
            → Gathers self.new other points }
        ensures same { (self.new.ow ≡ self.old.ow) × (self.new.calc ≡ self.old.calc) }
    {
        let _ = &self.ow;
        let taken = self.role(gathering, reading, master, cycle);
        let next = match taken {
            Taken::Opened => self.open(gathering, reading, master, cycle)?,
            Taken::Joined => self.join(gathering, reading, master)?,
            Taken::Repeat | Taken::OtherCycle => *gathering,
        };
        Ok((taken, next))
    }

    /// How many clusters the gathering has.
    pub fn len(&self, gathering: &Gathering) -> usize
        requires { IsHeld self.now gathering.now }
        ensures { result ≡ length (emissions_in self.now gathering.now) }
    {
        match &gathering.row {
            Some(row) => self.row_len(row),
            None => 0,
        }
    }

    /// What is emitted for the cluster at a place.
    pub fn emission(&self, gathering: &Gathering, place: usize) -> Option<Emitted>
        requires { IsHeld self.now gathering.now }
        ensures { result ≡ slice_get (emissions_in self.now gathering.now) place }
    {
        let Some(row) = &gathering.row else {
            return None;
        };
        if place > row.count {
            return None;
        }
        Some(self.emitted(self.kept_at(row, place)))
    }

    /// What is emitted for the cluster of the gathering that opened at a reading, if there is one.
    pub fn opened_at(&self, gathering: &Gathering, opened: i64) -> Option<Emitted>
        requires { IsGathered self.now gathering.now }
        ensures found { IfSome result (λ e. Contains (emissions_in self.now gathering.now) e × (e.opened ≡ opened)) }
        ensures each { All (λ e. e.opened ≡ opened → result ≡ Some e) (emissions_in self.now gathering.now) }
    {
        let _ = &self.ow;
        let Some(row) = &gathering.row else {
            return None;
        };
        let place = self.search(row, opened);
        if place > row.count {
            return None;
        }
        let kept = self.kept_at(row, place);
        if kept.opened == opened {
            Some(self.emitted(kept))
        } else {
            None
        }
    }

    /// Whether this is what is emitted for a cluster of the gathering.
    pub fn sends(&self, gathering: &Gathering, sent: &Compressed) -> bool
        requires { IsGathered self.now gathering.now }
        ensures { IsTrue result ↔ Sends self.now gathering.now sent.now }
    {
        match self.opened_at(gathering, sent.opened.0) {
            Some(emitted) => emitted.is(sent),
            None => false,
        }
    }

    // Opens a cluster behind those of the gathering.
    fn open(
        &mut self,
        gathering: &Gathering,
        reading: i64,
        master: u32,
        cycle: u32,
    ) -> Result<Gathering, AllocError>
        requires master { master < 64 }
        requires latest { IsLatest self.old gathering.now }
        ensures opened { IfOk result (Opens self.old self.new gathering.now (point_at reading master cycle)) }
        ensures grown { Grows self.old self.new }
    {
        let (from, count) = self.close(gathering)?;
        let last = KeptCluster {
            opened: reading,
            end: i128::from(reading) + i128::from(self.ow.0),
            cycle,
            members: 1 << master,
            from: self.counted.len(),
            count: 1,
        };
        self.counted.push(reading)?;
        Ok(Gathering {
            row: Some(Row { from, count, last }),
        })
    }

    // Keeps the last cluster of the gathering, and gives the place of its first, and how many it has.
    fn close(&mut self, gathering: &Gathering) -> Result<(usize, usize), AllocError>
        requires { IsLatest self.old gathering.now }
        ensures closes { IfOk result (λ t. Closes self.old self.new gathering.now t.0 t.1) }
        ensures grown { Grows self.old self.new }
        ensures counted { self.new.counted ≡ self.old.counted }
    {
        let Some(row) = &gathering.row else {
            return Ok((self.closed.len(), 0));
        };
        self.closed.push(row.last)?;
        Ok((row.from, self.closed.len() - row.from))
    }

    // The gathering whose last cluster, if it has one, has a point of one more master.
    fn join(
        &mut self,
        gathering: &Gathering,
        reading: i64,
        master: u32,
    ) -> Result<Gathering, AllocError>
        requires master { master < 64 }
        requires latest { IsLatest self.old gathering.now }
        ensures joined { IfOk result (λ r. IfSome gathering.now.row (λ row.
            Joins self.old self.new row reading master r)) }
        ensures latest { IfOk result (IsLatest self.new) }
        ensures grown { Grows self.old self.new }
    {
        let Some(row) = &gathering.row else {
            return Ok(*gathering);
        };
        self.counted.push(reading)?;
        let last = KeptCluster {
            end: row.last.end_with(self.ow.0, reading),
            members: row.last.members | 1 << master,
            count: self.counted.len() - row.last.from,
            ..row.last
        };
        Ok(Gathering {
            row: Some(Row { last, ..*row }),
        })
    }

    // The first place of the row whose cluster does not open before a reading.
    fn search(&self, row: &Row, opened: i64) -> usize
        requires held { HasRow self.now row.now }
        requires rising { IsRising (kept_in self.now (Some row.now)) }
        ensures { IsPlaceFor (kept_in self.now (Some row.now)) opened result }
    {
        let mut low = 0;
        let mut high = self.row_len(row);
        'halves: while low < high {
            let middle = low + (high - low) / 2;
            if self.kept_at(row, middle).opened < opened {
                low = middle + 1;
            } else {
                high = middle;
            }
        }
        low
    }

    // How many clusters the row has.
    fn row_len(&self, row: &Row) -> usize
        requires { HasRow self.now row.now }
        ensures { result ≡ length (kept_in self.now (Some row.now)) }
    {
        let closed = &self.closed[row.from..row.from + row.count];
        closed.len() + 1
    }

    // The cluster at a place of the row.
    fn kept_at<'a>(&'a self, row: &'a Row, place: usize) -> &'a KeptCluster
        requires held { HasRow self.now row.now }
        requires inside { place ≤ row.now.count }
        ensures there { slice_get (kept_in self.now (Some row.now)) place ≡ Some result.now }
        ensures counted { IsCounted self.now.counted result.now }
    {
        if place < row.count {
            &self.closed[row.from + place]
        } else {
            &row.last
        }
    }

    // What is emitted for a cluster.
    fn emitted(&self, kept: &KeptCluster) -> Emitted
        requires { IsCounted self.now.counted kept.now }
        ensures { result ≡ emitted self.now.ow self.now.calc (cluster_kept self.now.counted kept.now) }
    {
        let windows = 2 * i128::from(self.ow.0);
        let opened = i128::from(kept.opened);
        Emitted {
            opened: kept.opened,
            at: opened + windows + i128::from(self.calc.0) + self.middle(kept),
            cycle: kept.cycle,
            members: kept.members,
        }
    }

    // The middle of a cluster's points, relative to the first.
    fn middle(&self, kept: &KeptCluster) -> i128
        requires { IsCounted self.now.counted kept.now }
        ensures value { result ≡ middle_of (relative (points_kept self.now.counted kept.now)) }
        ensures small { IsSmall result }
    {
        let last = kept.count - 1;
        if last < 2 {
            mean(self.offset(kept, 0), self.offset(kept, last))
        } else {
            mean(self.offset(kept, 1), self.offset(kept, last - 1))
        }
    }

    // How far a cluster's point is above the first.
    fn offset(&self, kept: &KeptCluster, place: usize) -> i128
        requires counted { IsCounted self.now.counted kept.now }
        requires inside { place < kept.now.count }
        ensures value { result ≡ offset_at (points_kept self.now.counted kept.now) place }
        ensures small { IsSmall result }
    {
        let first = self.counted[kept.from];
        let point = self.counted[kept.from + place];
        i128::from(point) - i128::from(first)
    }
}
