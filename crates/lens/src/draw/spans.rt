//! Which part of a run is drawn.
ghost use Rattle.std.specs.Prelude.{◌≡◌};
ghost use Rattle.lens.specs.draw.Spans.{span_of};

use crate::forms::RunPart;
use lens_svg::Span;
use net_plan::Network;

/// The world times of the part: those of a cycle from its beginning to the next one's less 1.
pub(crate) fn span_of(network: &Network, part: RunPart) -> Span
    ensures { result ≡ span_of network.now part }
{
    match part {
        RunPart::Cycle { number } => {
            let number = u64::from(number);
            let cycle = network.cycle.0.unsigned_abs();
            let next = (number + 1).saturating_mul(cycle);
            Span {
                from: number.saturating_mul(cycle),
                to: next.saturating_sub(1),
            }
        }
        RunPart::Times { from, to } => Span { from, to },
    }
}
