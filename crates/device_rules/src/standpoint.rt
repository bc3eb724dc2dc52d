ghost use Rattle.std.specs.Prelude.{◌+ℤ◌, ◌≡◌, pos};
ghost use Rattle.run_law.specs.device.{Standpoints.clock_of, States.{is_off, is_synchronised}};
ghost use Rattle.device_rules.specs.Widths.{IsLocal, IsWide};

use std::marker::Model;
use sync_state::State;

/// Where a device stands when a frame comes to it.
#[derive(Clone, Copy)]
pub struct Standpoint {
    takes_part: bool,
    state: State,
    reading: u64,
    adjustment: i128,
}

impl Model for Standpoint {
    ghost use Rattle.device_rules.specs.Widths.{IsWide};
    ghost use Rattle.run_law.specs.device.Standpoints.{Standpoint as StandpointValue};

    ghost Value = { StandpointValue };

    ghost view = { λ s. record {
      takes_part = s.takes_part;
      state = s.state;
      reading = s.reading;
      adjustment = s.adjustment;
    } };

    ghost invariant = { λ s. IsWide s.adjustment };

    ghost inverse = { λ s. record {
      takes_part = s.takes_part;
      state = s.state;
      reading = s.reading;
      adjustment = s.adjustment;
    } };
}

impl Standpoint {
    /// A device that is on and not broken, or else takes no part, in this state, with what its clock reads and what its
    /// local clock shows beyond that.
    ///
    /// The adjustment lies from -2^80 to 2^80.
    pub fn new(takes_part: bool, state: State, reading: u64, adjustment: i128) -> Standpoint
        requires { IsWide adjustment }
        ensures { result ≡ record {
          takes_part = takes_part;
          state = state;
          reading = reading;
          adjustment = adjustment;
        } }
    {
        Standpoint {
            takes_part,
            state,
            reading,
            adjustment,
        }
    }

    /// Is it on, and not broken?
    pub(crate) fn takes_part(&self) -> bool
        ensures { result ≡ self.now.takes_part }
    {
        self.takes_part
    }

    /// The state of its synchronisation.
    pub(crate) fn state(&self) -> State
        ensures { result ≡ self.now.state }
    {
        self.state
    }

    /// What its clock reads.
    pub(crate) fn reading(&self) -> u64
        ensures { result ≡ self.now.reading }
    {
        self.reading
    }

    /// What its local clock shows.
    pub(crate) fn clock(&self) -> i128
        ensures value { result ≡ clock_of self.now }
        ensures fits { IsLocal result }
    {
        i128::from(self.reading) + self.adjustment
    }

    /// Has it the common time?
    pub(crate) fn is_synchronised(&self) -> bool
        ensures { result ≡ is_synchronised self.now.state }
    {
        is_synchronised(self.state)
    }
}

/// Is the device off?
pub fn is_off(state: State) -> bool
    ensures { result ≡ is_off state }
{
    match state {
        State::Off => true,
        State::Integrating | State::Joining | State::Synchronised => false,
    }
}

/// Is it the state of a device that has the common time?
pub fn is_synchronised(state: State) -> bool
    ensures { result ≡ is_synchronised state }
{
    match state {
        State::Synchronised => true,
        State::Off | State::Integrating | State::Joining => false,
    }
}

/// What a local clock of this adjustment shows at the point.
pub(crate) fn shown(point: i128, adjustment: i128) -> i128
    requires point { IsWide point }
    requires adjustment { IsWide adjustment }
    ensures value { result ≡ point +ℤ adjustment }
    ensures fits { IsLocal result }
{
    point + adjustment
}
