ghost use Rattle.std.specs.Prelude.{◌≡◌, ◌↔◌, IsTrue};

use compression::Compressed;

/// What is emitted for a cluster, in units of 2^-16 ns.
#[derive(Clone, Copy, PartialEq, Eq)]
pub struct Emitted {
    /// The point that opened the cluster.
    pub opened: i64,
    /// The reading at which it is emitted.
    pub at: i128,
    /// The integration cycle of its frames.
    pub cycle: u32,
    /// The masters that it has points of, each as a bit.
    pub members: u64,
}

impl Emitted {
    ghost use Rattle.audit_law.specs.collections.Kept.{as_emitted};

    /// Whether these are the numbers of what was sent.
    pub fn is(&self, sent: &Compressed) -> bool
        ensures { IsTrue result ↔ (self.now ≡ as_emitted sent.now) }
    {
        self.opened == sent.opened.0
            && self.at == i128::from(sent.at.0)
            && self.cycle == sent.cycle
            && self.members == u64::from(sent.members.0)
    }
}
