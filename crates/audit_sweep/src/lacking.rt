//! The first time at which a record is lacking.

ghost use Rattle.std.specs.Prelude.{◌^◌, ◌≡◌, ◌≤◌, List};
ghost use Rattle.{audit_law.specs.events.Readings.scenario_under, run_law.specs.records.Happenings.Happening};
ghost use Rattle.audit_sweep.specs.{Lacking.{AreEventsTold, TellsFirstLack}, Sweeping.{IsSwept, SweepsSome}};
ghost use Rattle.audit_sweep.specs.unpaid.{Debtors.AreKnown, dispatches.Debtors.{AreKnown as AreRowsKnown, IsFit}};
ghost use Rattle.net_plan.specs.declared.{event.Event.Event, network.Network.{Network as NetworkValue}};
ghost use Rattle.tte_units.specs.{Amount.amount, declared.units.Units.{Units as UnitsValue}};

use crate::sweep::Sweep;
use crate::unpaid::dispatches::RowDebtor;
use crate::unpaid::emissions::first_unemitted;
use crate::unpaid::points::{first_unsent, first_untold};
use crate::unpaid::{Debtor, earlier_of};
use tte_units::magnitude;

impl Sweep<'_> {
    /// The first time up to the end at which a record is lacking: it is due given those that were taken, and is not one
    /// of them. It is None exactly where none is lacking. Of the events up to the end none may be without its record.
    pub fn first_lack(&self) -> Option<u64>
        requires swept { SweepsSome self.now }
        ensures { (network : NetworkValue) (befallen : List Event) (end : UnitsValue) (hs : List Happening)
            → IsSwept network befallen end hs self.now
            → AreEventsTold (scenario_under network befallen) hs (amount end)
            → TellsFirstLack (scenario_under network befallen) hs (amount end) result }
    {
        let until = magnitude(self.known.end);
        let debtor = self.debtor(until);
        let (network, known, places) = (self.network, &self.known, &self.places);
        let (events, standings) = (&known.events, &known.standings);
        let brought = debtor.first_unpaid();
        let emissions = first_unemitted(network, events, &known.stretches, places, until);
        let sendings = first_unsent(network, events, standings, places, until);
        let points = first_untold(network, events, standings, places, until);
        let dispatches = self.row_debtor(until).first_undispatched();
        let clocks = debtor.first_unpaid_clock(until);
        let last = earlier_of(dispatches, clocks);
        let late = earlier_of(points, last);
        let later = earlier_of(sendings, late);
        let rest = earlier_of(emissions, later);
        earlier_of(brought, rest)
    }

    // What owes the records that other records bring, and those of clocks.
    fn debtor(&self, until: u64) -> Debtor<'_>
        ensures same { (result.network.now ≡ self.now.network.now) × (result.until ≡ until) }
        ensures known { (befallen : List Event) (hs : List Happening)
            → IsSwept self.now.network.now befallen self.now.known.end hs self.now → AreKnown befallen hs result }
    {
        Debtor {
            network: self.network,
            history: &self.known.events,
            records: &self.known.records,
            standings: &self.known.standings,
            places: &self.places,
            payments: &self.payments,
            until,
        }
    }

    // What owes the records of dispatches.
    fn row_debtor(&self, until: u64) -> RowDebtor<'_>
        requires swept { SweepsSome self.now }
        requires timely { until ≤ 2 ^ 60 }
        ensures same { (result.network.now ≡ self.now.network.now) × (result.until ≡ until) }
        ensures fit { IsFit result }
        ensures known { (befallen : List Event) (hs : List Happening)
            → IsSwept self.now.network.now befallen self.now.known.end hs self.now → AreRowsKnown befallen hs result }
    {
        RowDebtor {
            network: self.network,
            events: &self.known.events,
            exits: &self.known.exits,
            standings: &self.known.standings,
            takings: &self.known.takings,
            places: &self.places,
            until,
        }
    }
}
