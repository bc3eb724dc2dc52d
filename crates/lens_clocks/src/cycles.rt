//! The lines of all cycles that have passed, put one after another.

ghost use Rattle.std.specs.Prelude.{◌^◌, ◌≤◌, List};
ghost use Rattle.{audit_law.specs.events.Readings.scenario_under, lens_clocks.specs.Answer.clocks_answer};
ghost use Rattle.audit_sweep.specs.Indexing.{IsIndex, IsSomeIndex};
ghost use Rattle.net_plan.specs.{Ranges.IsInRange, declared.event.Event.Event};
ghost use Rattle.{run_law.specs.records.Happenings.Happening, tte_forms.specs.{Answering.Gives, Putting.Over}};
ghost use Rattle.{tte_forms.specs.Faults.{HasCause, PutFailed}, tte_reports.specs.Answer.IsAuditStatus};

use crate::putting::put_told;
use crate::telling::clocks_at;
use audit_sweep::Index;
use net_plan::Network;
use std::alloc::Global;
use tte_forms::{Status, end_with};
use tte_io::{LineText, Sink};

/// Puts the lines of each cycle that has passed by the time, which is at most 2^60, and passes them on.
pub(crate) fn put_cycles<K: Sink>(
    alloc: Global,
    network: &Network,
    index: &Index,
    until: u64,
    out: &mut K,
) -> Status
    requires range { IsInRange network.now }
    requires index { IsSomeIndex network.now index.now }
    requires limit { until ≤ 2 ^ 60 }
    ensures gives { Over K.Sink out.old out.new (λ old new. (befallen : List Event) (hs : List Happening)
        → IsIndex network.now befallen hs index.now
        → Gives (clocks_answer (scenario_under network.now befallen) hs until) result old new) }
    ensures statuses { IsAuditStatus result }
    ensures cause { HasCause result ⊥ (PutFailed K.Sink out.old out.new) }
{
    let cycle = network.cycle.amount();
    let count = until / cycle;
    let mut line = LineText::new();
    'cycles: for before in 0..count {
        let number = before + 1;
        let clocks = match clocks_at(alloc, index, network, number * cycle) {
            Ok(clocks) => clocks,
            Err(_) => return Status::OutOfMemory,
        };
        match put_told(network, number, clocks.as_slice(), &mut line, out) {
            Ok(()) => (),
            Err(_) => return Status::WriteFault,
        }
    }
    end_with(Status::Done, out)
}
