ghost use Rattle.lens_schedule.specs.Laws.{BoxesStandApart, PlacesGrow, RowsAreShown, WindowsAreThose};

/// Each row has its box in the lane of its port. A box stands no farther to the left the later its frame is dispatched,
/// the boxes of two rows of one port that come in one cycle do not overlap, and the windows are those of the receivers.
pub fn schedule_law()
    ensures rows { RowsAreShown }
    ensures order { PlacesGrow }
    ensures apart { BoxesStandApart }
    ensures windows { WindowsAreThose }
{}
