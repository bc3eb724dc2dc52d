ghost use Rattle.tte_io.specs.LinesGiven.{GivesInOrder};

/// Over however many calls, what a reader of lines has read is what it gave, in order, and what is
/// pending.
pub fn lines_in_order_law()
    ensures { GivesInOrder }
{}
