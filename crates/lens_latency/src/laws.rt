ghost use Rattle.lens_latency.specs.Laws.{ComesAtItsPlace, ComesInItsTime, DeliveriesAreSeen};

/// Each frame that is owed has a line and comes at a place of it, and a frame that comes by a channel was on its way as
/// long as the line says, in world time. So was each that is delivered where its sender is not broken by then, and it
/// is one of those that are seen.
pub fn latency_law()
    ensures place { ComesAtItsPlace }
    ensures time { ComesInItsTime }
    ensures seen { DeliveriesAreSeen }
{}
