ghost use Rattle.lens_svg.specs.Laws.{ArrowsAreCauses, HuesComeFromCauses, KeepsOrder, LanesAreStates, MarksHaveHues};
ghost use Rattle.lens_svg.specs.Titles.{NoneOpens};

/// In a picture that fits, the marks stand in the order of their instants, at least 26 pixels apart, and those of one
/// instant and one row side by side, at least 14 pixels apart.
pub fn order_law()
    ensures { KeepsOrder }
{}

/// In a picture of a run there is a mark for each record, and an arrow exactly where a record comes from one at another
/// device.
pub fn arrows_law()
    ensures { ArrowsAreCauses }
{}

/// The ground of each lane, from the mark of a record on, is what the records up to it leave its device in.
pub fn lanes_law()
    ensures { LanesAreStates }
{}

/// A frame has one hue on all its way: that of the record where it began, also where this lies before the picture.
pub fn hues_law()
    ensures causes { HuesComeFromCauses }
    ensures marks { MarksHaveHues }
{}

/// Whatever the words of a call are, its title holds no `<`: no element of a picture begins in it.
pub fn title_law()
    ensures { NoneOpens }
{}
