ghost use Rattle.net_plan.specs.{Bounds.{BetaExists, BetaIsUnique}, Paths.PathsAreUnique, Rules.RulesGiveTrees};

/// A network that keeps the rules of its shape has what `path` and `beta` ask for: the links form
/// a tree on each channel.
pub fn rules_give_trees()
    ensures { RulesGiveTrees }
{}

/// In such a network a device has at most one path on a channel.
pub fn paths_are_unique()
    ensures { PathsAreUnique }
{}

/// A network has at most one beta.
pub fn beta_is_unique()
    ensures { BetaIsUnique }
{}

/// A network whose links form a tree on each channel has a beta.
pub fn beta_exists()
    ensures { BetaExists }
{}
