ghost use Rattle.std.specs.Prelude.{◌≡◌};
ghost use Rattle.run_law.specs.scenario.Hypothesis.{condition_number};

/// Why an event is outside the fault hypothesis, given the events before it.
#[derive(Clone, Copy, Debug, PartialEq, Eq)]
pub enum Outside {
    /// It is earlier than the event before.
    Order,
    /// It comes behind the last cycle of a run.
    Late,
    /// It sets a rate beyond rho.
    Rate,
    /// It sets a wire delay that the link cannot have.
    Wire,
    /// It sets a hold beyond the link's.
    Hold,
    /// It cuts a link of one channel, and the other channel is the faulty one.
    Channel,
    /// It breaks a device that is no master.
    NotMaster,
    /// It breaks a device, and one is broken.
    SecondBreak,
    /// It leaves too few masters.
    TooFewMasters,
    /// It sends for a device that is not broken.
    NotBroken,
    /// It turns on a device that is not off.
    NotOff,
}

impl Outside {
    /// The condition's number, from 1 to 11, in the order in which they are judged.
    pub fn number(self) -> u8
        ensures { result ≡ condition_number self }
    {
        match self {
            Outside::Order => 1,
            Outside::Late => 2,
            Outside::Rate => 3,
            Outside::Wire => 4,
            Outside::Hold => 5,
            Outside::Channel => 6,
            Outside::NotMaster => 7,
            Outside::SecondBreak => 8,
            Outside::TooFewMasters => 9,
            Outside::NotBroken => 10,
            Outside::NotOff => 11,
        }
    }
}
