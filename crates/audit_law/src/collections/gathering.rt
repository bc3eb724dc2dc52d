ghost use Rattle.std.specs.Prelude.{◌≡◌, []};

use crate::collections::kept::KeptCluster;

/// The clusters of one stretch of points so far.
///
/// It names places of a history, which keeps the clusters themselves.
#[derive(Clone, Copy)]
pub struct Gathering {
    pub(crate) row: Option<Row>,
}

/// One cluster or more: where those before the last stand in the history, and the last.
#[derive(Clone, Copy)]
pub(crate) struct Row {
    /// The place of the first.
    pub(crate) from: usize,
    /// How many stand there.
    pub(crate) count: usize,
    pub(crate) last: KeptCluster,
}

impl Gathering {
    ghost use Rattle.audit_law.specs.collections.{Gathered.{Gathers, IsLatest}, Kept.History};

    /// That of a new stretch, which has no points.
    pub fn none() -> Gathering
        ensures gathers { (history : History) → Gathers history result [] }
        ensures latest { (history : History) → IsLatest history result }
    {
        Gathering { row: None }
    }
}
