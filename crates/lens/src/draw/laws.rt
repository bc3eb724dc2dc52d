ghost use Rattle.lens.specs.draw.{ClockLaws.PicturesShowClocks, Laws.PicturesShowRuns};
ghost use Rattle.lens.specs.draw.LineLaws.{MarksStandWhereTheirsDo, PicturesDrawPlans};
ghost use Rattle.lens.specs.draw.{ReadingLaws.{PicturesAreOne, TitlesArePlain}, WindowLaws.PicturesShowWindows};

/// The picture of a part of the run of a report shows it: its titles are the lines of the records there, its instants
/// stand in their order, a frame has one colour on all its way, there is an arrow exactly where there is a cause at
/// another device, and the ground of a lane is the state of its device.
pub fn picture_law()
    ensures { PicturesShowRuns }
{}

/// A picture has the lines of its title, and that of each thing that its plan draws: of each lane, of each record's arrow, bar and instant, of
/// each window and of each clock; and the line of each record's mark, where that stands.
pub fn lines_law()
    ensures plans { PicturesDrawPlans }
    ensures marks { MarksStandWhereTheirsDo }
{}

/// The clocks in the picture of a report of an accepted network are those of correct synchronised devices at the end of
/// the run, and no two are further apart than the precision: the bar of the spread is never longer than its frame.
pub fn clocks_law()
    ensures { PicturesShowClocks }
{}

/// The titles of a picture hold neither `<` nor `&`, and two reports with one picture have the same lines there.
pub fn reading_law()
    ensures plain { TitlesArePlain }
    ensures one { PicturesAreOne }
{}

/// In the picture of a report of an accepted network each frame that is taken has the box of its window, with the tick
/// inside: it came no earlier than the window begins, by the receiver's local clock, and no later than it ends.
pub fn windows_law()
    ensures { PicturesShowWindows }
{}
