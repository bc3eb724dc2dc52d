ghost use Rattle.std.specs.Prelude.{◌++◌, ◌<◌, ◌^◌, ◌↔◌, ◌∷◌, ◌≡◌, ◌≤ℤ◌, IfOk, IsTrue, List, MatchBool, [], pos};
ghost use Rattle.net_plan.specs.{Belonging.IsOfNetwork, declared.event.Event.Event as EventValue};
ghost use Rattle.net_plan.specs.declared.{event.What.TheVariants.End, network.Network.Network as NetworkValue};
ghost use Rattle.tte_audit.specs.{Following.Follows, Report.MayBefall};

use audit_law::events::{EventHistory, OutOfMemory};
use fault_hypothesis::Watch;
use net_plan::{Event, What};
use schedule_tables::Accepted;
use std::alloc::Global;
use tte_units::Units;

fn is_end(what: &What) -> bool
    ensures { IsTrue result ↔ (what.now ≡ End) }
{
    matches!(what, What::End)
}

fn has_begun(time: Units) -> bool
    ensures { IsTrue result ↔ (pos 0 ≤ℤ time.0) }
{
    time.0 >= 0
}

/// The events of a report, as far as its records have come.
#[derive(Drop)]
pub(crate) struct Befallen<'a> {
    watch: Watch<'a>,
    pub(crate) history: EventHistory,
    // How many they are.
    count: u64,
    // The time of the end, where one of them is that.
    pub(crate) end: Option<Units>,
}

impl<'a> Befallen<'a> {
    pub(crate) fn new(alloc: Global, accepted: &'a Accepted) -> Result<Befallen<'a>, OutOfMemory>
        ensures { IfOk result (λ b. Follows accepted.now b.watch b.history b.count b.end []) }
    {
        let history = EventHistory::new(alloc, accepted.network())?;
        Ok(Befallen {
            watch: Watch::new(accepted),
            history,
            count: 0,
            end: None,
        })
    }

    /// Takes the event of this line, where it may befall the network.
    pub(crate) fn admit(&mut self, line: u64, event: &Event) -> Result<bool, OutOfMemory>
        requires few { self.old.count < 2 ^ 63 }
        requires follows { (network : NetworkValue) × (befallen : List EventValue)
            × Follows network self.old.watch self.old.history self.old.count self.old.end befallen
            × IsOfNetwork network event.now.what }
        ensures { (network : NetworkValue) (befallen : List EventValue)
            → Follows network self.old.watch self.old.history self.old.count self.old.end befallen
            → IsOfNetwork network event.now.what
            → IfOk result (λ taken. MatchBool taken
            (MayBefall network befallen line event.now
            × Follows network self.new.watch self.new.history self.new.count self.new.end (befallen ++ event.now ∷ []))
            (MayBefall network befallen line event.now → ⊥)) }
    {
        if self.end.is_some() || line != self.count + 1 || !has_begun(event.time) {
            return Ok(false);
        }
        match self.watch.admit(event) {
            Ok(()) => {
                self.history.add(event)?;
                self.count += 1;
                if is_end(&event.what) {
                    self.end = Some(event.time);
                }
                Ok(true)
            }
            Err(_) => Ok(false),
        }
    }
}
