//! The lines of a sheet.
ghost use Rattle.std.specs.Prelude.{◌++◌, ◌+◌, ◌<◌, ◌≡◌, ◌≤◌, length};
ghost use Rattle.lens_latency.specs.Comings.{HasNames};
ghost use Rattle.lens_sheet.specs.Lines.{coming_line, load_line, rhythm_text, sender_text, trip_text, vl_line};
ghost use Rattle.lens_sheet.specs.{Lines.window_text, Loading.HasLink, Sheet.{IsWritable, line_text}, Weights.AreSmall};
ghost use Rattle.net_plan.specs.{Belonging.HasDevice, Ranges.IsInRange};

use crate::figures::{push_percent, push_us};
use crate::numbers::make_number_line;
use crate::{Load, SheetLine, Weights};
use lens_latency::{Coming, Trip, push_names};
use net_plan::{Network, VirtualLink, VlId};
use trace_text::way_text;
use tte_io::LineText;

/// Loads are told over this many cycles.
const CYCLES: u64 = 64;

/// Makes the line of the load of a way.
#[tactic(auto, unfolding(crate::specs::Lines::load_line))]
fn make_load(line: &mut LineText, network: &Network, load: &Load)
    requires range { IsInRange network.now }
    requires link { HasLink network.now load.now }
    ensures { line.new ≡ load_line network.now load.now }
{
    line.clear();
    line.push("load ");
    line.append(network.link_name(load.link));
    line.push(" ");
    line.push(way_text(load.way));
    line.push(" percent ");
    push_percent(line, load.time, CYCLES * network.cycle.amount());
    line.push("\n");
}

/// Adds a virtual link and its sender.
#[tactic(auto, unfolding(crate::specs::Lines::sender_text))]
fn push_sender(line: &mut LineText, network: &Network, vl: VlId, of: &VirtualLink)
    requires range { IsInRange network.now }
    requires vl { vl.0 < length network.now.vl }
    requires sender { HasDevice network.now of.now.sender }
    requires room { length line.old + 41 ≤ 4096 }
    ensures text { line.new ≡ line.old ++ sender_text network.now vl of.now }
    ensures grows { length line.new ≤ length line.old + 41 }
{
    line.push("vl ");
    line.append(network.vl_name(vl));
    line.push(" from ");
    line.append(network.device_name(of.sender));
}

/// Adds when it occurs, and the greatest count of rows on a way to a receiver.
#[tactic(auto, unfolding(crate::specs::Lines::rhythm_text))]
fn push_rhythm(line: &mut LineText, of: &VirtualLink, hops: u64)
    requires { length line.old + 100 ≤ 4096 }
    ensures { line.new ≡ line.old ++ rhythm_text of.now hops }
{
    line.push(" period ");
    line.push_decimal(u64::from(of.period));
    line.push(" phase ");
    line.push_decimal(u64::from(of.phase));
    line.push(" hops ");
    line.push_decimal(hops);
    line.push("\n");
}

/// Makes the line of a virtual link.
fn make_vl(line: &mut LineText, network: &Network, vl: VlId, hops: u64)
    requires range { IsInRange network.now }
    requires vl { vl.0 < length network.now.vl }
    ensures { line.new ≡ vl_line network.now vl hops }
{
    let of = &network.vl.as_slice()[vl.0 as usize];
    line.clear();
    push_sender(line, network, vl, of);
    push_rhythm(line, of, hops);
}

/// Adds the least and the greatest time of a trip.
#[tactic(auto, unfolding(crate::specs::Lines::trip_text))]
fn push_trip(line: &mut LineText, trip: &Trip)
    requires { length line.old + 163 ≤ 4096 }
    ensures text { line.new ≡ line.old ++ trip_text trip.now }
    ensures grows { length line.new ≤ length line.old + 163 }
{
    push_us(line, trip.least);
    line.push(" ");
    push_us(line, trip.most);
}

/// Adds the places of the receiver's cycle.
#[tactic(auto, unfolding(crate::specs::Lines::window_text))]
fn push_window(line: &mut LineText, a: &Trip, b: &Trip)
    requires { length line.old + 171 ≤ 4096 }
    ensures text { line.new ≡ line.old ++ window_text a.now b.now }
    ensures grows { length line.new ≤ length line.old + 171 }
{
    line.push(" window ");
    push_us(line, a.from.min(b.from));
    line.push(" ");
    push_us(line, a.to.max(b.to));
}

/// Makes the line of a virtual link and a receiver.
#[tactic(auto, unfolding(crate::specs::Lines::coming_line))]
fn make_coming(line: &mut LineText, network: &Network, coming: &Coming)
    requires range { IsInRange network.now }
    requires names { HasNames network.now coming.now }
    ensures { line.new ≡ coming_line network.now coming.now }
{
    line.clear();
    push_names(line, network, coming);
    line.push(" by a ");
    push_trip(line, &coming.a);
    line.push(" by b ");
    push_trip(line, &coming.b);
    push_window(line, &coming.a, &coming.b);
    line.push("\n");
}

/// Makes the text of the line.
pub(crate) fn make_sheet_line(
    line: &mut LineText,
    network: &Network,
    weights: &Weights,
    told: &SheetLine,
)
    requires range { IsInRange network.now }
    requires small { AreSmall weights.now }
    requires names { IsWritable network.now told.now }
    ensures { line.new ≡ line_text network.now weights.now told.now }
{
    match told {
        SheetLine::Number(number) => make_number_line(line, network, weights, *number),
        SheetLine::Load(load) => make_load(line, network, load),
        SheetLine::Vl(vl, hops) => make_vl(line, network, *vl, *hops),
        SheetLine::Coming(coming) => make_coming(line, network, coming),
    }
}
