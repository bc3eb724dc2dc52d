ghost use Rattle.lens_slack.specs.least.Laws.{LeastAreLeast, LeastHaveRoom, LeastKeep};

/// With the least times a network keeps the rules of times where its cycle has room for them, and no network that is
/// the same but for these times and keeps the rules has one less, or room where they have none.
pub fn least_law()
    ensures keep { LeastKeep }
    ensures least { LeastAreLeast }
    ensures room { LeastHaveRoom }
{}
