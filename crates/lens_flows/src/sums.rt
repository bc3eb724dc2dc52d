//! The sums over all flows, and their line.

ghost use Rattle.std.specs.Prelude.{◌++◌, ◌+◌, ◌≡◌, ◌≤◌, length, sum_by};
ghost use Rattle.lens_flows.specs.{Lines.{count_words, sum_line}, Sums.number_of};

use crate::counts::FlowTold;
use itoa::Buffer;
use tte_io::LineText;

/// A number of a flow that is summed.
#[derive(Clone, Copy)]
enum Summed {
    Owed,
    Delivered,
    ByA,
    ByB,
    Certain,
}

impl Summed {
    /// What the flow has of it.
    fn of(self, told: &FlowTold) -> u64
        ensures { result ≡ number_of self told.now }
    {
        match self {
            Summed::Owed => told.fates.owed,
            Summed::Delivered => told.deliveries.total,
            Summed::ByA => told.deliveries.by_a,
            Summed::ByB => told.deliveries.by_b,
            Summed::Certain => told.certain,
        }
    }

    /// What all flows have of it.
    fn over(self, told: &[FlowTold]) -> u128
        ensures { result ≡ sum_by (number_of self) told.now }
    {
        let mut sum = 0;
        'flows: for one in told {
            sum += u128::from(self.of(one));
        }
        sum
    }
}

/// Makes the line of the sums over these flows, of which so many frames are missing.
#[tactic(auto, unfolding(crate::specs::Lines::sum_line))]
pub(crate) fn make_sum_line(line: &mut LineText, told: &[FlowTold], missing: u64)
    ensures { line.new ≡ sum_line told.now missing }
{
    line.clear();
    line.push("sum");
    push_sum(line, "owed", Summed::Owed.over(told));
    push_sum(line, "delivered", Summed::Delivered.over(told));
    push_sum(line, "by a", Summed::ByA.over(told));
    push_sum(line, "by b", Summed::ByB.over(told));
    push_sum(line, "missing", u128::from(missing));
    push_sum(line, "certain", Summed::Certain.over(told));
    line.push("\n");
}

/// Adds a word and a sum.
#[tactic(auto, unfolding(crate::specs::Lines::count_words))]
fn push_sum(line: &mut LineText, word: &str, sum: u128)
    requires word { length word.now ≤ 20 }
    requires room { length line.old + 70 ≤ 4096 }
    ensures text { line.new ≡ line.old ++ count_words word.now sum }
    ensures grows { length line.new ≤ length line.old + 70 }
{
    let mut digits = Buffer::new();
    line.push(" ");
    line.push(word);
    line.push(" ");
    line.push(digits.format(sum));
}
