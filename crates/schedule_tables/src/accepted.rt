ghost use Rattle.std.specs.Prelude.{◌≡◌};
ghost use Rattle.{net_plan.specs.{Paths.IsTree, Ranges.IsInRange}, schedule_tables.specs.Rules.KeepsRules};

use net_plan::{Network, rules_give_trees};
use std::marker::Model;

/// A network that keeps all rules, so that the guarantees hold for it.
#[derive(Drop)]
pub struct Accepted {
    network: Network,
}

impl Model for Accepted {
    ghost use Rattle.net_plan.specs.{Ranges.IsInRange, declared.network.Network.Network};
    ghost use Rattle.schedule_tables.specs.Rules.{KeepsRules};

    ghost Value = { Network };

    ghost view = { λ a. a.network };

    ghost invariant = { λ a. IsInRange a.network × KeepsRules a.network };
}

impl Accepted {
    /// Accepts a network whose numbers lie in their ranges and that keeps all rules.
    pub fn new(network: Network) -> Accepted
        requires range { IsInRange network }
        requires rules { KeepsRules network }
        ensures { result ≡ network }
    {
        Accepted { network }
    }

    /// The network that was accepted.
    pub fn network(&self) -> &Network
        ensures value { result.now ≡ self.now }
        ensures range { IsInRange self.now }
        ensures rules { KeepsRules self.now }
        ensures tree { IsTree self.now }
    {
        rules_give_trees();
        &self.network
    }
}
