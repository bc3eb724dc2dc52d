ghost use Rattle.std.specs.Prelude.{ℕ, ◌≤◌, ◌^◌};

use crate::Clock;
use std::marker::Model;
use tte_units::{Ppb, Units};

/// A clock that keeps the rate 0: it reads the time, rounded down to a multiple of its grain.
#[derive(Clone, Copy, PartialEq, Eq)]
pub struct SteadyClock {
    grain: u64,
}

impl Model for SteadyClock {
    ghost Value = { ℕ };

    ghost view = { λ c. c.grain };

    ghost invariant = { λ c. (1 ≤ c.grain) × (c.grain ≤ 2 ^ 20) };

    ghost inverse = { λ g. record { grain = g } };
}

impl Clock for SteadyClock {
    ghost use Rattle.std.{proofs.Common.rules, specs.Prelude.{◌*◌, refl}};
    ghost use Rattle.drift_clock.specs.{Steady.steady_reading, SteadyLaws.{steady_reads, time_advances}};

    ghost fresh = { λ g. g };

    ghost after_step = { λ c t r. c };

    ghost reading = { steady_reading };

    ghost grain_of = { λ c. c };

    ghost last_step = { λ c. 0 };

    ghost count = { λ c t. 10 ^ 9 * t };

    fn fresh(grain: Units) -> SteadyClock {
        SteadyClock {
            grain: grain.amount(),
        }
    }

    fn grain(&self) -> Units {
        Units::from_amount(self.grain)
    }

    fn read(&self, t: Units) -> Units {
        Units::from_amount(self.grain * (t.amount() / self.grain))
    }

    fn reach(&self, from: Units, v: Units) -> Units {
        if v.0 <= self.read(from).0 {
            return from;
        }
        Units::from_amount(v.amount().next_multiple_of(self.grain))
    }

    fn rate(&mut self, _t: Units, _r: Ppb) {}

    ghost has_grain = { λ g. refl };

    ghost keeps_grain = { λ c t r. refl };

    ghost begins_unstepped = { λ g. refl };

    ghost steps_by = { Prim.search rules };

    ghost reads_count = { λ c t. steady_reads c t };

    ghost counts_time = { λ g t. refl };

    ghost keeps_count = { λ c t r. refl };

    ghost drifts = { λ c s t u r rho small most from to. time_advances rho t u to };
}
