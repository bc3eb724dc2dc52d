ghost use Rattle.std.specs.Prelude.{◌≡◌, IfSome};
ghost use Rattle.lens_slack.specs.Keeping.{IsSmall, tighter, tighter_of};

use crate::Finding;

/// The tighter of two findings, and the first where they are as tight.
pub(crate) fn tighter(first: Finding, second: Finding) -> Finding
    requires first { IsSmall first }
    requires second { IsSmall second }
    ensures value { result ≡ tighter first second }
    ensures small { IsSmall result }
{
    if second.has + first.wants < first.has + second.wants {
        second
    } else {
        first
    }
}

/// The tightest so far and the next finding, where there are any.
pub(crate) fn tighter_of(best: Option<Finding>, next: Option<Finding>) -> Option<Finding>
    requires best { IfSome best IsSmall }
    requires next { IfSome next IsSmall }
    ensures value { result ≡ tighter_of best next }
    ensures small { IfSome result IsSmall }
{
    match (best, next) {
        (Some(best), Some(next)) => Some(tighter(best, next)),
        (Some(best), None) => Some(best),
        (None, next) => next,
    }
}
