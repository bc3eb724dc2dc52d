//! The observer: it takes each record of the run, and puts nothing. The votes are put behind the drive.

ghost use Rattle.tte_observers.specs.votes.Voting.{SeesVotes, StopsVotes, stops_here};

use crate::votes::ballots::KeptVotes;
use drift_world::EventNote;
use net_plan::{Event, Network};
use run_law::plain::PlainNote;
use tte_io::Sink;
use tte_units::Units;
use world_drive::exact::ExactWorld;
use world_drive::{Cut, Observer};

/// Takes the deliveries of a run.
#[derive(Drop)]
pub(crate) struct Voter<'a> {
    pub(crate) votes: KeptVotes<'a>,
}

impl<'a, K: Sink> Observer<K> for Voter<'a> {
    ghost sees = { λ network events notes instant old put it. SeesVotes network notes old put it };

    ghost stops = { λ network events notes cut old put. StopsVotes old put };

    ghost cut = { λ network events notes instant old put it seen. stops_here network notes old put it seen };

    fn record(
        &mut self,
        _world: &ExactWorld<'_>,
        _network: &Network,
        note: &PlainNote,
        _out: &mut K,
    ) -> Result<bool, Cut> {
        match self.votes.note(&note.note()) {
            Ok(()) => Ok(false),
            Err(_) => Err(Cut::OutOfMemory),
        }
    }

    fn event(
        &mut self,
        _world: &ExactWorld<'_>,
        _network: &Network,
        _event: &Event,
        note: &EventNote<'_>,
        _out: &mut K,
    ) -> Result<(), Cut> {
        match self.votes.note(&note.note()) {
            Ok(()) => Ok(()),
            Err(_) => Err(Cut::OutOfMemory),
        }
    }

    /// The end of an instant was not asked for.
    fn instant(
        &mut self,
        _world: &ExactWorld<'_>,
        _network: &Network,
        _time: Units,
        _out: &mut K,
    ) -> Result<(), Cut> {
        Ok(())
    }
}
