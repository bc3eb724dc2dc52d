ghost use Rattle.lens_slack.specs.Laws.{BoundsDecide, SlackAccepts, SlackRefuses};

/// Both numbers of a line are the sides of the rule at its spot, so what is short is what `check` refuses.
pub fn slack_law()
    ensures bounds { BoundsDecide }
    ensures accepts { SlackAccepts }
    ensures refuses { SlackRefuses }
{}
