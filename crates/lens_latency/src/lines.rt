//! The line of a virtual link and a receiver.
ghost use Rattle.std.specs.Prelude.{◌++◌, ◌+◌, ◌≡◌, ◌≤◌, length};
ghost use Rattle.lens_latency.specs.Lines.{coming_text, ends_text, latency_line, names_text, seen_text, told_line};
ghost use Rattle.lens_latency.specs.Lines.{trip_text, window_text};
ghost use Rattle.{lens_latency.specs.Comings.HasNames, net_plan.specs.Ranges.IsInRange};

use crate::{Coming, ReportedComing, SeenFrames, Trip};
use net_plan::Network;
use tte_io::LineText;

/// Adds the names of the virtual link and of the device.
#[tactic(auto, unfolding(crate::specs::Lines::names_text))]
pub fn push_names(line: &mut LineText, network: &Network, coming: &Coming)
    requires range { IsInRange network.now }
    requires names { HasNames network.now coming.now }
    requires room { length line.old + 60 ≤ 4096 }
    ensures text { line.new ≡ line.old ++ names_text network.now coming.now }
    ensures grows { length line.new ≤ length line.old + 60 }
{
    line.push("latency ");
    line.append(network.vl_name(coming.vl));
    line.push(" to ");
    line.append(network.device_name(coming.device));
}

/// Adds the least and the greatest time of a trip.
#[tactic(auto, unfolding(crate::specs::Lines::trip_text))]
fn push_trip(line: &mut LineText, trip: &Trip)
    requires { length line.old + 41 ≤ 4096 }
    ensures text { line.new ≡ line.old ++ trip_text trip.now }
    ensures grows { length line.new ≤ length line.old + 41 }
{
    line.push_decimal(trip.least);
    line.push(" ");
    line.push_decimal(trip.most);
}

/// Adds the places of the receiver's cycle.
#[tactic(auto, unfolding(crate::specs::Lines::window_text))]
fn push_window(line: &mut LineText, a: &Trip, b: &Trip)
    requires { length line.old + 50 ≤ 4096 }
    ensures text { line.new ≡ line.old ++ window_text a.now b.now }
    ensures grows { length line.new ≤ length line.old + 50 }
{
    line.push(" window ");
    line.push_decimal(a.from.min(b.from));
    line.push(" ");
    line.push_decimal(a.to.max(b.to));
}

/// Makes what is told of a virtual link and a receiver.
#[tactic(auto, unfolding(crate::specs::Lines::coming_text))]
fn make_coming(line: &mut LineText, network: &Network, coming: &Coming)
    requires range { IsInRange network.now }
    requires names { HasNames network.now coming.now }
    ensures text { line.new ≡ coming_text network.now coming.now }
    ensures long { length line.new ≤ 204 }
{
    line.clear();
    push_names(line, network, coming);
    line.push(" by a ");
    push_trip(line, &coming.a);
    line.push(" by b ");
    push_trip(line, &coming.b);
    push_window(line, &coming.a, &coming.b);
}

/// Makes the line of a virtual link and a receiver.
#[tactic(auto, unfolding(crate::specs::Lines::latency_line))]
pub(crate) fn make_latency_line(line: &mut LineText, network: &Network, coming: &Coming)
    requires range { IsInRange network.now }
    requires names { HasNames network.now coming.now }
    ensures { line.new ≡ latency_line network.now coming.now }
{
    make_coming(line, network, coming);
    line.push("\n");
}

/// Adds the least and the greatest time that was seen.
#[tactic(auto, unfolding(crate::specs::Lines::ends_text))]
fn push_ends(line: &mut LineText, seen: &SeenFrames)
    requires { length line.old + 54 ≤ 4096 }
    ensures text { line.new ≡ line.old ++ ends_text seen.now }
    ensures grows { length line.new ≤ length line.old + 54 }
{
    line.push(" least ");
    line.push_decimal(seen.least);
    line.push(" most ");
    line.push_decimal(seen.most);
}

/// Adds how many were seen, and after how long.
#[tactic(auto, unfolding(crate::specs::Lines::seen_text))]
fn push_seen(line: &mut LineText, seen: Option<SeenFrames>)
    requires { length line.old + 80 ≤ 4096 }
    ensures text { line.new ≡ line.old ++ seen_text seen }
    ensures grows { length line.new ≤ length line.old + 80 }
{
    match seen {
        None => line.push(" seen 0"),
        Some(seen) => {
            line.push(" seen ");
            line.push_decimal(seen.count);
            push_ends(line, &seen);
        }
    }
}

/// Makes the line of a virtual link and a receiver with what a report shows.
#[tactic(auto, unfolding(crate::specs::Lines::told_line))]
pub(crate) fn make_told_line(line: &mut LineText, network: &Network, told: &ReportedComing)
    requires range { IsInRange network.now }
    requires names { HasNames network.now told.now.coming }
    ensures { line.new ≡ told_line network.now told.now }
{
    make_coming(line, network, &told.coming);
    push_seen(line, told.seen);
    line.push("\n");
}
