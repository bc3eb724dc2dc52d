//! The line of a flow.

ghost use Rattle.std.specs.Prelude.{◌++◌, ◌+◌, ◌≡◌, ◌≤◌, length};
ghost use Rattle.lens_flows.specs.Lines.{count_words, delivered_words, flow_line, flow_words, nearest_words};
ghost use Rattle.lens_flows.specs.{Lines.unowed_words, Writing.IsWritable};
ghost use Rattle.net_plan.specs.{Belonging.{HasDevice, HasVl}, Ranges.IsInRange};

use crate::counts::{FateCounts, FlowTold, Nearest};
use crate::judge::Flow;
use net_plan::Network;
use tte_io::LineText;

/// Makes the line of the flow, of which so many frames are missing.
#[tactic(auto, unfolding(crate::specs::Lines::flow_line))]
pub(crate) fn make_flow_line(line: &mut LineText, network: &Network, told: &FlowTold, missing: u64)
    requires range { IsInRange network.now }
    requires writable { IsWritable network.now told.now }
    ensures { line.new ≡ flow_line network.now told.now missing }
{
    line.clear();
    push_flow(line, network, &told.flow);
    push_delivered(line, told, missing);
    push_unowed(line, &told.fates);
    push_nearest(line, told.deliveries.nearest);
    push_count(line, "certain", told.certain);
    line.push("\n");
}

/// Adds the virtual link of the flow and its receiver.
#[tactic(auto, unfolding(crate::specs::Lines::flow_words))]
fn push_flow(line: &mut LineText, network: &Network, flow: &Flow)
    requires range { IsInRange network.now }
    requires vl { HasVl network.now flow.now.vl }
    requires device { HasDevice network.now flow.now.device }
    requires room { length line.old + 60 ≤ 4096 }
    ensures text { line.new ≡ line.old ++ flow_words network.now flow.now }
    ensures grows { length line.new ≤ length line.old + 60 }
{
    let vl = network.vl_name(flow.vl);
    let device = network.device_name(flow.device);
    line.push("flow ");
    line.append(vl);
    line.push(" to ");
    line.append(device);
}

/// Adds what was owed and delivered.
#[tactic(auto, unfolding(crate::specs::Lines::delivered_words))]
fn push_delivered(line: &mut LineText, told: &FlowTold, missing: u64)
    requires room { length line.old + 300 ≤ 4096 }
    ensures text { line.new ≡ line.old ++ delivered_words told.now missing }
    ensures grows { length line.new ≤ length line.old + 300 }
{
    push_count(line, "owed", told.fates.owed);
    push_count(line, "delivered", told.deliveries.total);
    push_count(line, "by a", told.deliveries.by_a);
    push_count(line, "by b", told.deliveries.by_b);
    push_count(line, "missing", missing);
}

/// Adds what was not owed.
#[tactic(auto, unfolding(crate::specs::Lines::unowed_words))]
fn push_unowed(line: &mut LineText, fates: &FateCounts)
    requires room { length line.old + 200 ≤ 4096 }
    ensures text { line.new ≡ line.old ++ unowed_words fates.now }
    ensures grows { length line.new ≤ length line.old + 200 }
{
    push_count(line, "not owed receiver", fates.receiver);
    push_count(line, "sender", fates.sender);
    push_count(line, "end", fates.end);
}

/// Adds how near deliveries came to the ends of their windows.
fn push_nearest(line: &mut LineText, nearest: Option<Nearest>)
    requires room { length line.old + 200 ≤ 4096 }
    ensures text { line.new ≡ line.old ++ nearest_words nearest }
    ensures grows { length line.new ≤ length line.old + 200 }
{
    match nearest {
        Some(nearest) => {
            line.push(" nearest");
            push_count(line, "early", nearest.early);
            push_count(line, "late", nearest.late);
        }
        None => line.push(" nearest none"),
    }
}

/// Adds a word and a number.
#[tactic(auto, unfolding(crate::specs::Lines::count_words))]
fn push_count(line: &mut LineText, word: &str, n: u64)
    requires word { length word.now ≤ 20 }
    requires room { length line.old + 50 ≤ 4096 }
    ensures text { line.new ≡ line.old ++ count_words word.now n }
    ensures grows { length line.new ≤ length line.old + 50 }
{
    line.push(" ");
    line.push(word);
    line.push(" ");
    line.push_decimal(n);
}
