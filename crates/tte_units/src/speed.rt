ghost use Rattle.std.specs.Prelude.{◌≡◌, ◌≤◌, ◌*◌, pos};
ghost use Rattle.tte_units.specs.OctetTime.{octet_time};

use crate::Units;

/// The bit rate of a link.
#[derive(Clone, Copy, PartialEq, Eq)]
pub enum Speed {
    Mbit100,
    Gbit1,
}

/// How long `n` octets take on a link of this speed. `n` is at most 2,000.
pub fn octets(speed: Speed, n: u32) -> Units
    requires { n ≤ 2000 }
    ensures { result.0 ≡ pos (n * octet_time speed) }
{
    let octet: u64 = match speed {
        Speed::Mbit100 => 5_242_880,
        Speed::Gbit1 => 524_288,
    };
    Units((u64::from(n) * octet) as i64)
}
