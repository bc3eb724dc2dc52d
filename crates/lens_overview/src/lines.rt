//! The line of each piece of a picture.
ghost use Rattle.std.specs.Prelude.{◌+◌, ◌++◌, ◌≡◌, ◌≤◌, length};
ghost use Rattle.lens_overview.specs.Lines.{apart_text, bar_line, bar_part, caption_line, caption_part, class_part, cycles_part};
ghost use Rattle.lens_overview.specs.Lines.{extent_line, greatest_text, label_text, name_line, name_part, piece_line, rail_part, records_part};
ghost use Rattle.lens_overview.specs.Lines.{ribbon_line, shade_part, spread_line, stroke_part, tick_line, tick_part};
ghost use Rattle.lens_overview.specs.Lines.{title_part};
ghost use Rattle.net_plan.specs.Ranges.{IsInRange};
ghost use Rattle.tte_io.specs.Line.{line_limit};

use crate::grid::{Grid, GridPen};
use crate::label::{Label, group_word, kind_word, label_word};
use crate::pieces::{Piece, Ribbon};
use crate::shade::shade_word;
use itoa::Buffer;
use lens_svg::{
    Element, Title, make_element_line, make_heading_line, make_title_line, push_device, push_link,
    push_micros, push_vl,
};
use net_plan::Network;
use trace_text::way_text;
use tte_io::LineText;

/// Adds what a row shows: at most 80 octets.
#[tactic(auto, unfolding(crate::specs::Lines::label_text))]
fn push_label(line: &mut LineText, network: &Network, label: Label)
    requires range { IsInRange network.now }
    requires room { length line.old + 80 ≤ line_limit }
    ensures text { line.new ≡ line.old ++ label_text network.now label }
    ensures grows { length line.new ≤ length line.old + 80 }
{
    match label {
        Label::Title(group) => line.push(group_word(group)),
        Label::Count(kind) => line.push(kind_word(kind)),
        Label::Lane(device) => push_device(line, network, device),
        Label::Others(synchronised, off) => {
            line.push("others: ");
            line.push_decimal(synchronised);
            line.push(" synchronised, ");
            line.push_decimal(off);
            line.push(" off");
        }
        Label::Passage(link, way) => {
            push_link(line, network, link);
            line.push(" ");
            line.push(way_text(way));
        }
        Label::Flow(vl, device) => {
            push_vl(line, network, vl);
            line.push(" to ");
            push_device(line, network, device);
        }
        Label::Flows(vl, count) => {
            push_vl(line, network, vl);
            line.push(" to ");
            line.push_decimal(count);
            line.push(" receivers");
        }
    }
}

/// Makes of what the picture is, and of how many records: at most 120 octets.
#[tactic(auto, unfolding(crate::specs::Lines::records_part))]
fn make_records_part(line: &mut LineText, records: u64)
    ensures text { line.new ≡ records_part records }
    ensures short { length line.new ≤ 120 }
{
    line.clear();
    line.push("<text class=\"note\" x=\"12\" y=\"39\">the whole run, records ");
    line.push_decimal(records);
}

/// Makes the line that says of what the picture is, of how many records, and the precision.
#[tactic(auto, unfolding(crate::specs::Lines::extent_line))]
fn make_extent(line: &mut LineText, records: u64, precision: u64)
    ensures { line.new ≡ extent_line records precision }
{
    make_records_part(line, records);
    line.push(", precision ");
    push_micros(line, precision);
    line.push(" us</text>\n");
}

/// Makes how many columns there are, and of how many cycles: at most 120 octets.
#[tactic(auto, unfolding(crate::specs::Lines::caption_part))]
fn make_caption_part(line: &mut LineText, grid: Grid)
    ensures text { line.new ≡ caption_part grid }
    ensures short { length line.new ≤ 120 }
{
    line.clear();
    line.push("<text class=\"note\" x=\"12\" y=\"84\">columns ");
    line.push_decimal(grid.columns);
    line.push(", of cycles ");
    line.push_decimal(grid.cycles);
}

/// Makes the line that says how many columns there are, and of how many cycles.
#[tactic(auto, unfolding(crate::specs::Lines::caption_line))]
fn make_caption(line: &mut LineText, network: &Network, grid: Grid)
    requires { IsInRange network.now }
    ensures { line.new ≡ caption_line network.now grid }
{
    make_caption_part(line, grid);
    line.push(", each of ");
    push_micros(line, network.cycle.amount());
    line.push(" us. Numbers are cycles. The thicker a stroke, the more events or frames.</text>\n");
}

/// Adds how far apart clocks are, in whole nanoseconds, rounded down: at most 43 octets.
#[tactic(auto, unfolding(crate::specs::Lines::apart_text))]
fn push_apart(line: &mut LineText, apart: u128)
    requires { length line.old + 43 ≤ line_limit }
    ensures text { line.new ≡ line.old ++ apart_text apart }
    ensures grows { length line.new ≤ length line.old + 43 }
{
    let mut digits = Buffer::new();
    line.push(digits.format(apart / 65_536));
    line.push(" ns");
}

/// Adds the greatest spread: at most 80 octets.
#[tactic(auto, unfolding(crate::specs::Lines::greatest_text))]
fn push_greatest(line: &mut LineText, greatest: Option<u128>)
    requires { length line.old + 80 ≤ line_limit }
    ensures text { line.new ≡ line.old ++ greatest_text greatest }
    ensures grows { length line.new ≤ length line.old + 80 }
{
    match greatest {
        Some(greatest) => {
            line.push("spread of clocks up to ");
            push_apart(line, greatest);
        }
        None => line.push("no spread of clocks"),
    }
}

/// Makes the line of the greatest spread and of the precision.
#[tactic(auto, unfolding(crate::specs::Lines::spread_line))]
fn make_spread(line: &mut LineText, network: &Network, greatest: Option<u128>)
    requires { IsInRange network.now }
    ensures { line.new ≡ spread_line network.now greatest }
{
    line.clear();
    line.push("<g><text class=\"name lane\" x=\"192\" y=\"104\">");
    push_greatest(line, greatest);
    line.push("</text><text class=\"name title\" x=\"192\" y=\"118\">of precision ");
    push_apart(line, u128::from(network.precision.0.unsigned_abs()));
    line.push("</text></g>\n");
}

/// Makes the line between two columns, and the number above: at most 200 octets.
#[tactic(auto, unfolding(crate::specs::Lines::tick_part))]
fn make_tick_part(line: &mut LineText, pen: GridPen, down: u64)
    ensures text { line.new ≡ tick_part pen down }
    ensures short { length line.new ≤ 200 }
{
    line.clear();
    line.push("<g><path class=\"tick\" d=\"M");
    line.push_decimal(pen.x);
    line.push(" 146 V");
    line.push_decimal(down);
    line.push("\"/><text class=\"time\" x=\"");
    line.push_decimal(pen.x);
    line.push("\" y=\"142\">");
    line.push_decimal(pen.cycle);
}

/// Makes the line of a tick: a line between two columns, and the number of the cycle above and below.
#[tactic(auto, unfolding(crate::specs::Lines::tick_line))]
fn make_tick(line: &mut LineText, pen: GridPen, down: u64)
    ensures { line.new ≡ tick_line pen down }
{
    make_tick_part(line, pen, down);
    line.push("</text><text class=\"time\" x=\"");
    line.push_decimal(pen.x);
    line.push("\" y=\"");
    line.push_decimal(down);
    line.push("\" dy=\"10\">");
    line.push_decimal(pen.cycle);
    line.push("</text></g>\n");
}

/// Makes a bar so wide and so high: at most 200 octets.
#[tactic(auto, unfolding(crate::specs::Lines::bar_part))]
fn make_bar_part(line: &mut LineText, pen: GridPen, width: u64, height: u64)
    ensures text { line.new ≡ bar_part pen width height }
    ensures short { length line.new ≤ 200 }
{
    line.clear();
    line.push("<path class=\"bar\" d=\"M");
    line.push_decimal(pen.x);
    line.push(" 130 h");
    line.push_decimal(width);
    line.push(" v-");
    line.push_decimal(height);
    line.push(" h-");
    line.push_decimal(width);
}

/// Makes the line of a bar.
#[tactic(auto, unfolding(crate::specs::Lines::bar_line))]
fn make_bar(line: &mut LineText, pen: GridPen, width: u64, height: u64, apart: u128)
    ensures { line.new ≡ bar_line pen width height apart }
{
    make_bar_part(line, pen, width, height);
    line.push(" z\"><title>spread ");
    push_apart(line, apart);
    line.push(" from cycle ");
    line.push_decimal(pen.cycle);
    line.push("</title></path>\n");
}

/// Makes the line of a row: at most 160 octets.
#[tactic(auto, unfolding(crate::specs::Lines::rail_part))]
fn make_rail(line: &mut LineText, label: Label, y: u64, right: u64)
    ensures text { line.new ≡ rail_part label y right }
    ensures short { length line.new ≤ 160 }
{
    line.clear();
    line.push("<g transform=\"translate(0,");
    line.push_decimal(y);
    line.push(")\"><path class=\"rail ");
    line.push(label_word(label));
    line.push("\" d=\"M200 0 H");
    line.push_decimal(right);
    line.push("\"/>");
}

/// Adds the beginning of the name of a row: at most 60 octets.
#[tactic(auto, unfolding(crate::specs::Lines::class_part))]
fn push_class(line: &mut LineText, label: Label)
    requires { length line.old + 60 ≤ line_limit }
    ensures text { line.new ≡ line.old ++ class_part label }
    ensures grows { length line.new ≤ length line.old + 60 }
{
    line.push("<text class=\"name ");
    line.push(label_word(label));
    line.push("\" x=\"192\" y=\"3\">");
}

/// Adds the name of a row beside its line: at most 160 octets.
#[tactic(auto, unfolding(crate::specs::Lines::name_part))]
fn push_name(line: &mut LineText, network: &Network, label: Label)
    requires range { IsInRange network.now }
    requires room { length line.old + 160 ≤ line_limit }
    ensures { line.new ≡ line.old ++ name_part network.now label }
{
    push_class(line, label);
    push_label(line, network, label);
    line.push("</text></g>\n");
}

/// Makes the line and the name of a row.
fn make_name(line: &mut LineText, network: &Network, label: Label, y: u64, right: u64)
    requires { IsInRange network.now }
    ensures { line.new ≡ name_line network.now label y right }
{
    make_rail(line, label, y, right);
    push_name(line, network, label);
}

/// Makes a stroke along a row: at most 160 octets.
#[tactic(auto, unfolding(crate::specs::Lines::stroke_part))]
fn make_stroke(line: &mut LineText, ribbon: &Ribbon)
    ensures text { line.new ≡ stroke_part ribbon.now }
    ensures short { length line.new ≤ 160 }
{
    line.clear();
    line.push("<path class=\"");
    line.push(label_word(ribbon.label));
    line.push(" ");
    line.push(shade_word(ribbon.shade));
    line.push("\" d=\"M");
    line.push_decimal(ribbon.from.x);
    line.push(" ");
    line.push_decimal(ribbon.y);
    line.push(" H");
    line.push_decimal(ribbon.to.x);
    line.push("\">");
}

/// Adds from which cycle on a ribbon is there, and before which it ends: at most 80 octets.
#[tactic(auto, unfolding(crate::specs::Lines::cycles_part))]
fn push_cycles(line: &mut LineText, ribbon: &Ribbon)
    requires { length line.old + 80 ≤ line_limit }
    ensures text { line.new ≡ line.old ++ cycles_part ribbon.now }
    ensures grows { length line.new ≤ length line.old + 80 }
{
    line.push(" from cycle ");
    line.push_decimal(ribbon.from.cycle);
    line.push(" until ");
    line.push_decimal(ribbon.to.cycle);
    line.push("</title></path>\n");
}

/// Adds the shade of a ribbon, and its cycles: at most 100 octets.
#[tactic(auto, unfolding(crate::specs::Lines::shade_part))]
fn push_shade(line: &mut LineText, ribbon: &Ribbon)
    requires { length line.old + 100 ≤ line_limit }
    ensures text { line.new ≡ line.old ++ shade_part ribbon.now }
    ensures grows { length line.new ≤ length line.old + 100 }
{
    line.push(" ");
    line.push(shade_word(ribbon.shade));
    push_cycles(line, ribbon);
}

/// Adds what a ribbon says: at most 200 octets.
#[tactic(auto, unfolding(crate::specs::Lines::title_part))]
fn push_title(line: &mut LineText, network: &Network, ribbon: &Ribbon)
    requires range { IsInRange network.now }
    requires room { length line.old + 200 ≤ line_limit }
    ensures { line.new ≡ line.old ++ title_part network.now ribbon.now }
{
    line.push("<title>");
    push_label(line, network, ribbon.label);
    push_shade(line, ribbon);
}

/// Makes the line of a ribbon.
fn make_ribbon(line: &mut LineText, network: &Network, ribbon: &Ribbon)
    requires { IsInRange network.now }
    ensures { line.new ≡ ribbon_line network.now ribbon.now }
{
    make_stroke(line, ribbon);
    push_title(line, network, ribbon);
}

/// Makes the line of a piece of the picture of this title.
pub(crate) fn make_piece(line: &mut LineText, network: &Network, title: &Title, piece: &Piece)
    requires { IsInRange network.now }
    ensures { line.new ≡ piece_line network.now title.now piece.now }
{
    match *piece {
        Piece::Opening(width, height) => {
            make_element_line(line, network, Element::Opening(width, height));
        }
        Piece::Title => make_title_line(line, title),
        Piece::Heading => make_heading_line(line, title),
        Piece::Extent(records) => make_extent(line, records, network.precision.amount()),
        Piece::Shared(sign) => {
            line.clear();
            line.push(sign.line());
        }
        Piece::Caption(grid) => make_caption(line, network, grid),
        Piece::Spread(greatest) => make_spread(line, network, greatest),
        Piece::Tick(pen, down) => make_tick(line, pen, down),
        Piece::Bar(pen, width, height, apart) => make_bar(line, pen, width, height, apart),
        Piece::Name(label, y, right) => make_name(line, network, label, y, right),
        Piece::Stroke(ribbon) => make_ribbon(line, network, &ribbon),
    }
}
