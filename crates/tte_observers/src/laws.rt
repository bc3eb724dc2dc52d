ghost use Rattle.tte_observers.specs.Existence.{ObserversAnswer};

/// For each network in range and all octets of a trace there is an answer of `stamp`, `wire` and `vote`.
pub fn observers_answer()
    ensures { ObserversAnswer }
{}
