ghost use Rattle.std.specs.Prelude.{◌≡◌};
ghost use Rattle.run_law.specs.control.{Collections.ripe_by_role, Permanence.ripe_as};

use compression::Taken;
use run_law::{Judgement, Reason, Ripe};

/// A point's role, as what becomes of the frame.
pub(crate) fn ripe_by_role(taken: Taken) -> Ripe
    ensures { result ≡ ripe_by_role taken }
{
    match taken {
        Taken::Opened => Ripe::Opened,
        Taken::Joined => Ripe::Joined,
        Taken::Repeat => Ripe::Repeat,
        Taken::OtherCycle => Ripe::Dropped(Reason::Cycle),
    }
}

/// A judgement, as what becomes of the frame.
pub(crate) fn ripe_as(verdict: Judgement) -> Ripe
    ensures { result ≡ ripe_as verdict }
{
    match verdict {
        Judgement::Opened => Ripe::Opened,
        Judgement::Joined => Ripe::Joined,
        Judgement::Repeat => Ripe::Repeat,
        Judgement::Within => Ripe::Within,
        Judgement::Outside => Ripe::Outside,
        Judgement::Integrates => Ripe::Integrates,
        Judgement::Ignored => Ripe::Ignored,
    }
}
