ghost use Rattle.lens_sheet.specs.Laws.{BetaIsTold, FiguresAreNearest, RoomIsLeft};

/// Each figure is the nearest one of three places to its number, and of two the upper one. Beta is that of the rules,
/// and each time has room for what it is made of.
pub fn sheet_law()
    ensures nearest { FiguresAreNearest }
    ensures beta { BetaIsTold }
    ensures room { RoomIsLeft }
{}
