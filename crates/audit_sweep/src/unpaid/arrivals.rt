//! The arrival that a record brings, where no record tells of it.

ghost use Rattle.std.specs.Prelude.{List};
ghost use Rattle.{audit_law.specs.law.FirstDebts.TellsUnpaid, run_law.specs.records.Happenings.Happening};
ghost use Rattle.audit_sweep.specs.unpaid.Debtors.{AreKnown, scenario_of};
ghost use Rattle.net_plan.specs.declared.event.Event.{Event};
ghost use Rattle.audit_law.specs.law.Owed as debts;

use crate::records::wires::arrival_due;
use crate::unpaid::Debtor;

impl Debtor<'_> {
    /// When what the record of this number put on a wire arrives, if no record tells what became of it.
    pub(crate) fn unpaid_arrival(&self, number: u64) -> Option<u64>
        ensures { (befallen : List Event) (hs : List Happening) → AreKnown befallen hs self.now
            → TellsUnpaid (scenario_of self.now befallen) hs self.now.until (debts.arrival number) result }
    {
        let kept = match self.records.get(number) {
            Some(kept) => kept,
            None => return None,
        };
        if self.payments.of(number).arrival {
            return None;
        }
        match arrival_due(self.network, self.history, kept, self.until) {
            Some(due) => Some(due.time),
            None => None,
        }
    }
}
