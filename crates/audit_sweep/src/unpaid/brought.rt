//! What records bring: the first of it of which no record tells.

ghost use Rattle.std.specs.Prelude.{◌^◌, ◌≡◌, ◌≤◌, List, length};
ghost use Rattle.{audit_devices.specs.Keeping.device_count, audit_law.specs.events.Remembering.RemembersSome};
ghost use Rattle.audit_law.specs.law.FirstDebts.{TellsFirst};
ghost use Rattle.audit_sweep.specs.unpaid.{Debtors.{AreKnown, scenario_of}, Sorts.{IsRecordDebt, IsRecordDebtOf}};
ghost use Rattle.net_plan.specs.{Ranges.IsInRange, declared.event.Event.Event};
ghost use Rattle.run_law.specs.records.Happenings.{Happening};

use crate::unpaid::{Debtor, earlier_of};

impl Debtor<'_> {
    /// The first time at which something falls due that a record brings, and no record tells of it: an arrival, a
    /// permanence, a change of state, a leaving or a loss. It is None exactly where one tells of each. `until` is at
    /// most 2^60.
    pub fn first_unpaid(&self) -> Option<u64>
        requires range { IsInRange self.now.network.now }
        requires some { RemembersSome self.now.history.now }
        requires standing { device_count self.now.standings.now ≡ length self.now.network.now.device }
        requires limit { self.now.until ≤ 2 ^ 60 }
        ensures { (befallen : List Event) (hs : List Happening) → AreKnown befallen hs self.now
            → TellsFirst (scenario_of self.now befallen) hs self.now.until IsRecordDebt result }
    {
        let mut first = None;
        'records: for place in 0..self.payments.count() {
            first = earlier_of(first, self.unpaid_by(place as u64 + 1));
        }
        first
    }

    // The same of what the record of this number brings.
    fn unpaid_by(&self, number: u64) -> Option<u64>
        requires range { IsInRange self.now.network.now }
        requires some { RemembersSome self.now.history.now }
        requires standing { device_count self.now.standings.now ≡ length self.now.network.now.device }
        requires limit { self.now.until ≤ 2 ^ 60 }
        ensures { (befallen : List Event) (hs : List Happening) → AreKnown befallen hs self.now
            → TellsFirst (scenario_of self.now befallen) hs self.now.until (IsRecordDebtOf number) result }
    {
        let arrival = self.unpaid_arrival(number);
        let permanence = self.unpaid_permanence(number);
        let change = self.unpaid_change(number);
        let departure = self.unpaid_departure(number);
        let loss = self.unpaid_loss(number);
        let last = earlier_of(departure, loss);
        let late = earlier_of(change, last);
        let rest = earlier_of(permanence, late);
        earlier_of(arrival, rest)
    }
}
