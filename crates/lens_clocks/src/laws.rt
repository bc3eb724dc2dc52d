ghost use Rattle.lens_clocks.specs.Laws.{ClocksAreInStep, CyclesHavePassed, EndsAreOfClocks, SpreadsAreWithin};

/// The lines are those of each cycle that has passed by the end of the run. The clocks that are told are the local
/// clocks of the devices that are correct and synchronised then. The ends are two of them, and all lie between. In the
/// report of an accepted network these are no further apart than the precision.
pub fn clocks_law()
    ensures cycles { CyclesHavePassed }
    ensures clocks { ClocksAreInStep }
    ensures ends { EndsAreOfClocks }
    ensures spreads { SpreadsAreWithin }
{}
