ghost use Rattle.std.specs.Prelude.{◌≡◌, ◌<◌, ◌+◌, ◌^◌, ◌↔◌, IsTrue, IfOk, Contains};
ghost use Rattle.tte_io.specs.Faults.{next_count};

use std::alloc::Global;
use tte_units::OutOfMemory;

/// The calls of an end in memory: how many there were, and the numbers, from 1, of those that fail.
#[derive(Drop)]
pub(crate) struct Calls {
    failing: Vec<u32>,
    count: u64,
}

impl Calls {
    pub(crate) fn new(alloc: Global, failing: &[u32]) -> Result<Calls, OutOfMemory>
        ensures failing { IfOk result (λ calls. calls.failing.items ≡ failing.now) }
        ensures count { IfOk result (λ calls. calls.count ≡ 0) }
    {
        Ok(Calls {
            failing: failing.to_vec(alloc)?,
            count: 0,
        })
    }

    /// Counts the next call, and answers whether it fails.
    pub(crate) fn next_fails(&mut self) -> bool
        ensures fails { IsTrue result ↔ Contains self.old.failing.items (self.old.count + 1) }
        ensures counts { self.new.count ≡ next_count self.old.count }
        ensures failing { self.new.failing.items ≡ self.old.failing.items }
        ensures exact { IsTrue result → self.new.count ≡ self.old.count + 1 }
        ensures bound { IsTrue result → self.new.count < 2 ^ 32 }
    {
        self.count = self.count.saturating_add(1);
        let call = self.count;
        self.failing.iter().any(|&number| u64::from(number) == call)
    }
}
