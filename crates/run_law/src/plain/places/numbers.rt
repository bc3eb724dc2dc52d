ghost use Rattle.std.specs.Prelude.{◌&&◌, ◌==◌, ◌||◌, ◌≡◌, nat_lt};
ghost use Rattle.run_law.specs.plain.Places.{before_then, numbers_of, numbers_with};

/// The numbers of a place, from the left, and how many they are; those behind them are 0.
#[derive(Drop)]
pub(crate) struct Numbers {
    pub(crate) time: u64,
    pub(crate) first: u64,
    pub(crate) second: u64,
    pub(crate) third: u64,
    pub(crate) fifth: u64,
    pub(crate) fourth: u32,
    pub(crate) rank: u8,
    pub(crate) sixth: u8,
    pub(crate) seventh: u8,
    pub(crate) count: u8,
}

impl Numbers {
    /// So many, of which the first three are these and the others 0.
    pub(crate) fn with(count: u8, time: u64, rank: u8, first: u64) -> Numbers
        ensures { result ≡ numbers_with count time rank first }
    {
        Numbers {
            time,
            first,
            second: 0,
            third: 0,
            fifth: 0,
            fourth: 0,
            rank,
            sixth: 0,
            seventh: 0,
            count,
        }
    }

    /// Whether they are before the others, or are the others where these are fewer.
    pub(crate) fn are_before(&self, other: &Numbers) -> bool
        ensures { result ≡ before_then (numbers_of self.now) (numbers_of other.now)
            (nat_lt self.now.count other.now.count) }
    {
        if self.time != other.time {
            return self.time < other.time;
        }
        if self.rank != other.rank {
            return self.rank < other.rank;
        }
        if self.first != other.first {
            return self.first < other.first;
        }
        if self.second != other.second {
            return self.second < other.second;
        }
        let seventh = precedes(
            u64::from(self.seventh),
            u64::from(other.seventh),
            self.count < other.count,
        );
        let sixth = precedes(u64::from(self.sixth), u64::from(other.sixth), seventh);
        let fifth = precedes(self.fifth, other.fifth, sixth);
        let fourth = precedes(u64::from(self.fourth), u64::from(other.fourth), fifth);
        precedes(self.third, other.third, fourth)
    }
}

/// Whether the number is below the other, or is the other where the rest is before the other's.
fn precedes(number: u64, other: u64, rest: bool) -> bool
    ensures { result ≡ (nat_lt number other || (number == other && rest)) }
{
    number < other || (number == other && rest)
}
