ghost use Rattle.std.specs.Prelude.{◌≡◌, ◌<◌, ◌^◌, Some, List, pos, ◌≤ℤ◌, int_lt};

use compression::Taken;

/// A cluster, and where its counted points stand in the history.
#[derive(Clone, Copy)]
pub(crate) struct KeptCluster {
    pub(crate) opened: i64,
    /// The last reading at which it is open.
    pub(crate) end: i128,
    pub(crate) cycle: u32,
    /// The masters that it has points of, each as a bit.
    pub(crate) members: u64,
    /// The place of its first counted point.
    pub(crate) from: usize,
    /// How many points count.
    pub(crate) count: usize,
}

impl KeptCluster {
    ghost use Rattle.compression.specs.{Clusters.point_at, Collection.joined_end, Role.{has_point_of, role_in}};
    ghost use Rattle.audit_law.specs.collections.Kept.{cluster_kept};

    /// What becomes of a point at whose reading the cluster is open.
    pub(crate) fn role(&self, reading: i64, master: u32, cycle: u32) -> Taken
        requires { master < 64 }
        ensures { (counted : List _) → result
            ≡ role_in (Some (cluster_kept counted self.now)) (point_at reading master cycle) }
    {
        if cycle != self.cycle {
            Taken::OtherCycle
        } else if self.has(master) {
            Taken::Repeat
        } else {
            Taken::Joined
        }
    }

    fn has(&self, master: u32) -> bool
        requires { master < 64 }
        ensures { (counted : List _) → result ≡ has_point_of (cluster_kept counted self.now) master }
    {
        self.members & (1 << master) != 0
    }

    /// Where it ends with the point of a further master.
    pub(crate) fn end_with(&self, ow: i64, reading: i64) -> i128
        requires { pos 0 ≤ℤ ow }
        ensures { (counted : List _) → result ≡ joined_end ow (cluster_kept counted self.now) reading }
    {
        let window = i128::from(ow);
        let opened = i128::from(self.opened);
        if i128::from(reading) <= opened + window {
            opened + 2 * window
        } else {
            self.end
        }
    }
}
