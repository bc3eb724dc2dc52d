ghost use Rattle.lens_overview.specs.LawColours.{BlueIsByA, GreenIsByBoth, VioletIsByB};
ghost use Rattle.lens_overview.specs.Laws.{BarsAreTrue, CellsAreDelivered, FlowsAreDrawn, NoneIsRed, StrokesAreOfFlows};
ghost use Rattle.lens_overview.specs.Laws.{DeviceStrokesAreTrue, DevicesAreDrawn, HeadIsDrawn, WayStrokesAreTrue};
ghost use Rattle.lens_overview.specs.Laws.{WaysAreDrawn};

/// The picture of a report is named by the words of the call. These stand at its head too, and below them that it is of the
/// whole run, how many records this has, and the precision.
pub fn head_law()
    ensures { HeadIsDrawn }
{}

/// In the picture of a report each flow of the network has a row: the line of its name, and along it the line of a stroke
/// over each of its cells that is filled, of the cell's shade; and each stroke of frames is one of these. Where the network
/// is accepted, a cell is filled exactly where a record delivers a frame of the flow in a cycle of the column, and no
/// stroke says that a frame is owed and missing. Each bar is of the greatest spread of its column, within the precision.
pub fn overview_law()
    ensures missing { NoneIsRed }
    ensures flows { FlowsAreDrawn }
    ensures strokes { StrokesAreOfFlows }
    ensures delivered { CellsAreDelivered }
    ensures bars { BarsAreTrue }
{}

/// In the picture of a report each device has a row whose state a record changes, and each way that is cut; a device's
/// cell has the state in which the records up to the end of the column leave it, and a way's is filled where it is cut at
/// some time of the column. Each stroke of such a row is one of these cells.
pub fn states_law()
    ensures devices { DevicesAreDrawn }
    ensures device_strokes { DeviceStrokesAreTrue }
    ensures ways { WaysAreDrawn }
    ensures way_strokes { WayStrokesAreTrue }
{}

/// In the picture of the report of an accepted network a flow's cell is green exactly where a frame of the column is
/// delivered, and each that is comes by both channels; blue exactly where one comes by channel a alone; and violet exactly
/// where one comes by channel b alone, and none by a alone. A frame comes by a channel where a record delivers it by one of
/// the channel's links, or drops a second copy behind its delivery, which is one of the cycle that it was sent for.
pub fn colours_law()
    ensures green { GreenIsByBoth }
    ensures blue { BlueIsByA }
    ensures violet { VioletIsByB }
{}
