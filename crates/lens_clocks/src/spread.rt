//! Between which values local clocks lie.

ghost use Rattle.std.specs.{Int.{int_max, int_min}, Prelude.◌≡◌};
ghost use Rattle.lens_clocks.specs.Spread.{ends_of};

use crate::DeviceClock;

/// The least and the greatest value that some local clocks show, in units of 2^-16 ns.
#[derive(Clone, Copy)]
pub struct Ends {
    pub least: i128,
    pub greatest: i128,
}

/// The ends with one clock more.
fn widened(ends: Ends, clock: &DeviceClock) -> Ends
    ensures least { result.least ≡ int_min ends.least clock.now.local }
    ensures greatest { result.greatest ≡ int_max ends.greatest clock.now.local }
{
    Ends {
        least: ends.least.min(clock.local),
        greatest: ends.greatest.max(clock.local),
    }
}

/// The least and the greatest value that these show, if there are any.
pub(crate) fn ends_of(clocks: &[DeviceClock]) -> Option<Ends>
    ensures { result ≡ ends_of clocks.now }
{
    let (first, others) = clocks.split_first()?;
    let mut ends = Ends {
        least: first.local,
        greatest: first.local,
    };
    'others: for clock in others {
        ends = widened(ends, clock);
    }
    Some(ends)
}
