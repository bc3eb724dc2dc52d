ghost use Rattle.std.specs.Prelude.{◌<ℤ◌, ◌^◌, ◌≡◌, ◌≢◌, [], pos};
ghost use Rattle.compression.specs.{Ascent.spread, Middle.{middle_of, relative}};

use crate::Points;
use tte_units::{Units, mean};

/// The middle of one to eight points, relative to the first of them.
///
/// It is the mean, rounded down, of the second point and the last but one, and of one or two points
/// that of the first and the last. There is a point, and the last is less than 2^60 above the first.
pub fn middle(points: &Points) -> Units
    requires some { points.now ≢ [] }
    requires near { spread points.now <ℤ pos (2 ^ 60) }
    ensures { result.0 ≡ middle_of (relative points.now) }
{
    let last = points.len() - 1;
    if last < 2 {
        mean(points.offset(0), points.offset(last))
    } else {
        mean(points.offset(1), points.offset(last - 1))
    }
}
