//! The columns of a picture, and where they are.
ghost use Rattle.std.specs.Prelude.{◌≡◌, ◌≤◌};
ghost use Rattle.lens_overview.specs.Grids.{IsNarrow, column_of, grid_of, pen_at, pitch_of, right_of};
ghost use Rattle.lens_overview.specs.Grids.{width_of};

/// How many columns a picture has at most.
const MOST_COLUMNS: u64 = 10_000;

/// The columns of a picture.
#[derive(Clone, Copy)]
pub struct Grid {
    /// How many cycles a column holds.
    pub cycles: u64,
    /// How many columns there are.
    pub columns: u64,
    /// How wide a column is, in pixels.
    pub pitch: u64,
}

/// Where a column begins.
#[derive(Clone, Copy)]
pub struct GridPen {
    /// How far to the right, in pixels.
    pub x: u64,
    /// The first cycle of the column.
    pub cycle: u64,
}

/// How wide a column is, where there are so many.
fn pitch_of(columns: u64) -> u64
    requires { 1 ≤ columns }
    ensures value { result ≡ pitch_of columns }
    ensures least { 6 ≤ result }
    ensures most { result ≤ 60 }
{
    let pixels = 860 / columns;
    if pixels < 6 {
        6
    } else if 60 < pixels {
        60
    } else {
        pixels
    }
}

impl Grid {
    /// The columns of a run whose last cycle is this.
    pub(crate) fn new(last: u32) -> Grid
        ensures value { result ≡ grid_of last }
        ensures narrow { IsNarrow result }
    {
        let last = u64::from(last);
        let cycles = last / MOST_COLUMNS + 1;
        let columns = last / cycles + 1;
        Grid {
            cycles,
            columns,
            pitch: pitch_of(columns),
        }
    }

    /// The column of a cycle.
    pub(crate) fn column_of(self, cycle: u32) -> usize
        requires { IsNarrow self }
        ensures { result ≡ column_of self cycle }
    {
        (u64::from(cycle) / self.cycles) as usize
    }

    /// Where a column begins. One that no picture has begins where the last of the widest ends.
    pub(crate) fn pen_at(self, column: u64) -> GridPen
        requires { IsNarrow self }
        ensures value { result ≡ pen_at self column }
        ensures short { result.x ≤ 700000 }
    {
        let column = column.min(MOST_COLUMNS);
        GridPen {
            x: 200 + self.pitch * column,
            cycle: self.cycles * column,
        }
    }

    /// The right end of all columns.
    pub(crate) fn right(self) -> u64
        requires { IsNarrow self }
        ensures value { result ≡ right_of self }
        ensures short { result ≤ 700000 }
    {
        self.pen_at(self.columns).x
    }

    /// How wide the picture is.
    pub(crate) fn width(self) -> u64
        requires { IsNarrow self }
        ensures { result ≡ width_of self }
    {
        (self.right() + 20).max(960)
    }
}
