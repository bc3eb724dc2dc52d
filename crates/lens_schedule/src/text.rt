//! The line of each part.
ghost use Rattle.std.specs.Prelude.{◌++◌, ◌+◌, ◌≡◌, ◌≤◌, length};
ghost use Rattle.lens_schedule.specs.Frames.{height_of, seat_of};
ghost use Rattle.lens_schedule.specs.Lines.{bare_line, box_text, boxes_text, branch_text, caption_line, device_text};
ghost use Rattle.lens_schedule.specs.Lines.{end_text, frame_line, ground_begin, ground_rest, group_text, head_line};
ghost use Rattle.lens_schedule.specs.Lines.{lane_line, link_text, origin_text, part_line, percent_text, phase_text};
ghost use Rattle.lens_schedule.specs.Lines.{place_text, rail_text, role_of, row_text, stretch_text};
ghost use Rattle.lens_schedule.specs.Lines.{stretch_word, time_text, times_text, twig_line};
ghost use Rattle.lens_schedule.specs.Lines.{zone_begin, zone_end, zone_line};
ghost use Rattle.tte_io.specs.Line.{line_limit};
ghost use Rattle.net_plan.specs.Ranges.{IsInRange};

use crate::frames::{height_of, seat_of};
use crate::{CycleStretch, Frame, Lane, SchedulePart, Stroke, Twig, Zone};
use lens_svg::{
    Element, PicturePoint, Title, make_element_line, make_heading_line, make_title_line,
    push_device, push_link, push_micros, push_vl, role_word,
};
use net_plan::{DeviceId, LinkId, Network, VlId};
use trace_text::way_text;
use tte_io::LineText;

const HEAD: &str = "\
    <style type=\"text/css\">text{font-family:sans-serif;font-size:9px;fill:#374151;stroke:none}\
    .top{font-size:15px;font-weight:bold}.note{font-size:11px;fill:#6b7280}.name{font-size:11px}\
    .master{font-weight:bold}.role{font-weight:normal;font-size:9px;fill:#6b7280}\
    .port,.end{text-anchor:end}.port{font-weight:bold}.load{text-anchor:end;fill:#6b7280}\
    .twig,.rail{fill:none;stroke:#c9ced6}.control{fill:#dbe7f8}.late{fill:#ececf1}\
    .schedule{fill:#ffffff}.rest{fill:#e3e6ea}\
    .window{fill-opacity:.06;stroke-width:.7;stroke-dasharray:3 2}.box{stroke-width:.5}\
    .v0{fill:#1f77b4;stroke:#1f77b4}.v1{fill:#d97706;stroke:#d97706}\
    .v2{fill:#2ca02c;stroke:#2ca02c}.v3{fill:#9467bd;stroke:#9467bd}\
    .v4{fill:#c2185b;stroke:#c2185b}.v5{fill:#0e9aa7;stroke:#0e9aa7}\
    .v6{fill:#8c564b;stroke:#8c564b}.v7{fill:#6b7a10;stroke:#6b7a10}</style>\
    <rect width=\"100%\" height=\"100%\" fill=\"#f6f7f9\"/>\
    <text class=\"name\" x=\"12\" y=\"66\">channel a</text>\
    <text class=\"name\" x=\"962\" y=\"66\">channel b</text>\n";

/// The line of the colours, the background and the names of the channels.
fn head_text() -> &'static str
    ensures { result.now ≡ head_line }
{
    HEAD
}

/// Adds where a group of signs is: at most 70 octets.
#[tactic(auto, unfolding(crate::specs::Lines::place_text))]
fn push_place(line: &mut LineText, point: PicturePoint)
    requires { length line.old + 70 ≤ line_limit }
    ensures text { line.new ≡ line.old ++ place_text point }
    ensures grows { length line.new ≤ length line.old + 70 }
{
    line.push(" transform=\"translate(");
    line.push_decimal(point.x);
    line.push(" ");
    line.push_decimal(point.y);
    line.push(")\"");
}

/// Adds a time behind its name: at most 110 octets.
#[tactic(auto, unfolding(crate::specs::Lines::time_text))]
fn push_time(line: &mut LineText, name: &str, time: u64)
    requires short { length name.now ≤ 20 }
    requires room { length line.old + 110 ≤ line_limit }
    ensures text { line.new ≡ line.old ++ time_text name.now time }
    ensures grows { length line.new ≤ length line.old + 110 }
{
    line.push(name);
    push_micros(line, time);
    line.push(" us");
}

#[tactic(auto, unfolding(crate::specs::Lines::caption_line))]
fn make_caption(line: &mut LineText, network: &Network, rows: u64)
    requires { IsInRange network.now }
    ensures { line.new ≡ caption_line network.now rows }
{
    line.clear();
    line.push("<text class=\"note\" x=\"12\" y=\"42\">rows ");
    line.push_decimal(rows);
    push_time(line, ", cycle ", network.cycle.amount());
    push_time(line, ", precision ", network.precision.amount());
    line.push(". A full box is a frame on its port, a dashed one its window at the receiver.");
    line.push(
        " What comes in each cycle is as high as its lane. Stretches without windows are folded.</text>\n",
    );
}

/// The word of the device's role.
fn role_of(network: &Network, device: DeviceId) -> &'static str
    ensures text { result.now ≡ role_of network.now device }
    ensures short { length result.now ≤ 6 }
{
    match network.device.as_slice().get(device.0 as usize) {
        Some(found) => role_word(found.role),
        None => "",
    }
}

/// Adds the link to the parent.
fn push_uplink(line: &mut LineText, network: &Network, link: Option<LinkId>)
    requires range { IsInRange network.now }
    requires room { length line.old + 20 ≤ line_limit }
    ensures text { line.new ≡ line.old ++ link_text network.now link }
    ensures grows { length line.new ≤ length line.old + 20 }
{
    match link {
        Some(link) => {
            line.push(" by ");
            push_link(line, network, link);
        }
        None => (),
    }
}

/// Adds the line from the parent: at most 100 octets.
#[tactic(auto, unfolding(crate::specs::Lines::branch_text))]
fn push_branch(line: &mut LineText, at: PicturePoint, above: u64)
    requires { length line.old + 100 ≤ line_limit }
    ensures text { line.new ≡ line.old ++ branch_text at above }
    ensures grows { length line.new ≤ length line.old + 100 }
{
    line.push("<path class=\"twig\" d=\"M");
    line.push_decimal(at.x);
    line.push(" ");
    line.push_decimal(above);
    // From below the parent's name.
    line.push(" m0 5 V");
    line.push_decimal(at.y);
    line.push(" h9\"/>");
}

/// Adds a device beside it: at most 140 octets.
#[tactic(auto, unfolding(crate::specs::Lines::device_text))]
fn push_beside(line: &mut LineText, network: &Network, device: DeviceId, at: PicturePoint)
    requires range { IsInRange network.now }
    requires room { length line.old + 140 ≤ line_limit }
    ensures text { line.new ≡ line.old ++ device_text network.now device at }
    ensures grows { length line.new ≤ length line.old + 140 }
{
    line.push("<text class=\"name ");
    line.push(role_of(network, device));
    line.push("\" x=\"12\" y=\"3\"");
    push_place(line, at);
    line.push(">");
    push_device(line, network, device);
}

/// Adds its role and its link: at most 100 octets.
#[tactic(auto, unfolding(crate::specs::Lines::origin_text))]
fn push_origin(line: &mut LineText, network: &Network, device: DeviceId, link: Option<LinkId>)
    requires range { IsInRange network.now }
    requires room { length line.old + 100 ≤ line_limit }
    ensures text { line.new ≡ line.old ++ origin_text network.now device link }
    ensures grows { length line.new ≤ length line.old + 100 }
{
    line.push("<tspan class=\"role\" dx=\"4\">");
    line.push(role_of(network, device));
    push_uplink(line, network, link);
    line.push("</tspan></text>\n");
}

#[tactic(auto, unfolding(crate::specs::Lines::twig_line))]
fn make_twig(line: &mut LineText, network: &Network, twig: &Twig, at: PicturePoint, above: u64)
    requires { IsInRange network.now }
    ensures { line.new ≡ twig_line network.now twig.now at above }
{
    line.clear();
    push_branch(line, at, above);
    push_beside(line, network, twig.device, at);
    push_origin(line, network, twig.device, twig.link);
}

/// Adds the beginning of a group in the colour of the virtual link: at most 110 octets.
#[tactic(auto, unfolding(crate::specs::Lines::group_text))]
fn push_group(line: &mut LineText, vl: VlId, at: PicturePoint)
    requires { length line.old + 110 ≤ line_limit }
    ensures text { line.new ≡ line.old ++ group_text vl at }
    ensures grows { length line.new ≤ length line.old + 110 }
{
    line.push("<g class=\"v");
    line.push_decimal(u64::from(vl.0) % 8);
    line.push("\"");
    push_place(line, at);
    line.push(">");
}

/// Adds in which cycles frames come: at most 52 octets.
#[tactic(auto, unfolding(crate::specs::Lines::phase_text))]
fn push_phase(line: &mut LineText, phase: u32, period: u32)
    requires { length line.old + 52 ≤ line_limit }
    ensures text { line.new ≡ line.old ++ phase_text phase period }
    ensures grows { length line.new ≤ length line.old + 52 }
{
    line.push(", cycle ");
    line.push_decimal(phase.into());
    line.push(" of ");
    line.push_decimal(period.into());
}

#[tactic(auto, unfolding(crate::specs::Lines::bare_line))]
fn make_bare(line: &mut LineText, y: u64)
    ensures { line.new ≡ bare_line y }
{
    line.clear();
    line.push("<text class=\"note\" x=\"12\" y=\"");
    line.push_decimal(y);
    line.push("\">The schedule has no rows.</text>\n");
}

/// What a stretch is drawn as.
fn stretch_word(stretch: CycleStretch) -> &'static str
    ensures text { result.now ≡ stretch_word stretch }
    ensures short { length result.now ≤ 20 }
{
    match stretch {
        CycleStretch::Control => "control",
        CycleStretch::Late => "late",
        CycleStretch::Schedule => "schedule",
        CycleStretch::Rest => "rest",
    }
}

/// What comes in it.
fn stretch_text(stretch: CycleStretch) -> &'static str
    ensures text { result.now ≡ stretch_text stretch }
    ensures short { length result.now ≤ 20 }
{
    match stretch {
        CycleStretch::Control => "control frames",
        CycleStretch::Late => "late frames",
        CycleStretch::Schedule => "schedule",
        CycleStretch::Rest => "",
    }
}

/// What is where it ends.
fn end_text(stretch: CycleStretch) -> &'static str
    ensures text { result.now ≡ end_text stretch }
    ensures short { length result.now ≤ 20 }
{
    match stretch {
        CycleStretch::Control => "clocks are set",
        CycleStretch::Late => "schedule begins",
        CycleStretch::Schedule => "last window ends",
        CycleStretch::Rest => "cycle ends",
    }
}

/// Makes the upper left corner and the right side of a stretch: at most 120 octets.
#[tactic(auto, unfolding(crate::specs::Lines::ground_begin))]
fn make_ground(line: &mut LineText, stretch: CycleStretch, from: PicturePoint, right: u64)
    ensures text { line.new ≡ ground_begin stretch from right }
    ensures short { length line.new ≤ 120 }
{
    line.clear();
    line.push("<path class=\"");
    line.push(stretch_word(stretch));
    line.push("\" d=\"M");
    line.push_decimal(from.x);
    line.push(" ");
    line.push_decimal(from.y);
    line.push(" H");
    line.push_decimal(right);
}

/// Adds its other sides: at most 60 octets.
#[tactic(auto, unfolding(crate::specs::Lines::ground_rest))]
fn push_ground(line: &mut LineText, bottom: u64, left: u64)
    requires { length line.old + 60 ≤ line_limit }
    ensures text { line.new ≡ line.old ++ ground_rest bottom left }
    ensures grows { length line.new ≤ length line.old + 60 }
{
    line.push(" V");
    line.push_decimal(bottom);
    line.push(" H");
    line.push_decimal(left);
    line.push(" z\"/>");
}

/// Adds what comes in it: at most 130 octets.
#[tactic(auto, unfolding(crate::specs::Lines::zone_begin))]
fn push_begin(line: &mut LineText, stretch: CycleStretch, at: PicturePoint)
    requires { length line.old + 130 ≤ line_limit }
    ensures text { line.new ≡ line.old ++ zone_begin stretch at }
    ensures grows { length line.new ≤ length line.old + 130 }
{
    line.push("<text x=\"2\" y=\"-4\"");
    push_place(line, at);
    line.push(">");
    line.push(stretch_text(stretch));
    line.push("</text>");
}

/// Adds when it ends, and what is there.
#[tactic(auto, unfolding(crate::specs::Lines::zone_end))]
fn push_end(line: &mut LineText, stretch: CycleStretch, at: PicturePoint, time: u64)
    requires { length line.old + 300 ≤ line_limit }
    ensures { line.new ≡ line.old ++ zone_end stretch at time }
{
    line.push("<text class=\"end\"");
    push_place(line, at);
    line.push("><tspan x=\"0\" y=\"14\">");
    push_micros(line, time);
    line.push(" us</tspan><tspan x=\"0\" y=\"26\">");
    line.push(end_text(stretch));
    line.push("</tspan></text>\n");
}

#[tactic(auto, unfolding(crate::specs::Lines::zone_line))]
fn make_zone(line: &mut LineText, zone: &Zone)
    ensures { line.new ≡ zone_line zone.now }
{
    make_ground(line, zone.stretch, zone.from, zone.to.x);
    push_ground(line, zone.to.y, zone.from.x);
    push_begin(line, zone.stretch, zone.from);
    push_end(line, zone.stretch, zone.to, zone.time);
}

/// Adds hundredths of a percent: at most 63 octets.
#[tactic(auto, unfolding(crate::specs::Lines::percent_text))]
fn push_percent(line: &mut LineText, load: u64)
    requires { length line.old + 63 ≤ line_limit }
    ensures text { line.new ≡ line.old ++ percent_text load }
    ensures grows { length line.new ≤ length line.old + 63 }
{
    line.push_decimal(load / 100);
    line.push(".");
    line.push_decimal(load / 10 % 10);
    line.push_decimal(load % 10);
    line.push(" %");
}

/// Makes the beginning of a lane, with its line: at most 130 octets.
#[tactic(auto, unfolding(crate::specs::Lines::rail_text))]
fn make_rail(line: &mut LineText, at: PicturePoint)
    ensures text { line.new ≡ rail_text at }
    ensures short { length line.new ≤ 130 }
{
    line.clear();
    line.push("<g");
    push_place(line, at);
    line.push("><path class=\"rail\" d=\"M160 19.5 H930\"/>");
}

#[tactic(auto, unfolding(crate::specs::Lines::lane_line))]
fn make_lane(line: &mut LineText, network: &Network, lane: &Lane, at: PicturePoint)
    requires { IsInRange network.now }
    ensures { line.new ≡ lane_line network.now lane.now at }
{
    make_rail(line, at);
    line.push("<text class=\"port\" x=\"114\" y=\"13\">");
    push_link(line, network, lane.link);
    line.push(" ");
    line.push(way_text(lane.way));
    line.push("</text><text class=\"load\" x=\"156\" y=\"13\">");
    push_percent(line, lane.load);
    line.push("</text></g>\n");
}

/// Adds a box: at most 100 octets.
#[tactic(auto, unfolding(crate::specs::Lines::box_text))]
fn push_box(line: &mut LineText, stroke: Stroke, seat: u64, height: u64)
    requires { length line.old + 130 ≤ line_limit }
    ensures text { line.new ≡ line.old ++ box_text stroke seat height }
    ensures grows { length line.new ≤ length line.old + 130 }
{
    line.push("\" d=\"M");
    line.push_decimal(stroke.from);
    line.push(" ");
    line.push_decimal(seat);
    line.push(" H");
    line.push_decimal(stroke.to);
    line.push(" v");
    line.push_decimal(height);
    line.push(" H");
    line.push_decimal(stroke.from);
    line.push(" z\"/>");
}

/// Adds the row in words: at most 50 octets.
#[tactic(auto, unfolding(crate::specs::Lines::row_text))]
fn push_row(line: &mut LineText, network: &Network, frame: &Frame)
    requires range { IsInRange network.now }
    requires room { length line.old + 50 ≤ line_limit }
    ensures text { line.new ≡ line.old ++ row_text network.now frame.now }
    ensures grows { length line.new ≤ length line.old + 50 }
{
    line.push("<title>");
    push_vl(line, network, frame.vl);
    line.push(" ");
    push_link(line, network, frame.link);
    line.push(" ");
    line.push(way_text(frame.way));
}

/// Adds its times: at most 400 octets.
#[tactic(auto, unfolding(crate::specs::Lines::times_text))]
fn push_times(line: &mut LineText, frame: &Frame)
    requires { length line.old + 400 ≤ line_limit }
    ensures text { line.new ≡ line.old ++ times_text frame.now }
    ensures grows { length line.new ≤ length line.old + 400 }
{
    push_time(line, ", offset ", frame.offset);
    push_time(line, ", window ", frame.from);
    push_time(line, " to ", frame.to);
    push_phase(line, frame.phase, frame.period);
    line.push("</title>");
}

/// Adds its window and its box.
#[tactic(auto, unfolding(crate::specs::Lines::boxes_text))]
fn push_boxes(line: &mut LineText, frame: &Frame)
    requires { length line.old + 400 ≤ line_limit }
    ensures { line.new ≡ line.old ++ boxes_text frame.now }
{
    let seat = seat_of(frame.phase.into());
    let height = height_of(frame.period.into());
    line.push("<path class=\"window");
    push_box(line, frame.window, seat, height);
    line.push("<path class=\"box");
    push_box(line, frame.port, seat, height);
    line.push("</g>\n");
}

#[tactic(auto, unfolding(crate::specs::Lines::frame_line))]
fn make_frame(line: &mut LineText, network: &Network, frame: &Frame)
    requires range { IsInRange network.now }
    ensures { line.new ≡ frame_line network.now frame.now }
{
    line.clear();
    push_group(line, frame.vl, frame.at);
    push_row(line, network, frame);
    push_times(line, frame);
    push_boxes(line, frame);
}

/// Makes the line of a part of the picture of this title, ended by LF.
pub(crate) fn make_part_line(
    line: &mut LineText,
    network: &Network,
    title: &Title,
    part: &SchedulePart,
)
    requires { IsInRange network.now }
    ensures { line.new ≡ part_line network.now title.now part.now }
{
    match part {
        SchedulePart::Opening(width, height) => {
            make_element_line(line, network, Element::Opening(*width, *height));
        }
        SchedulePart::Title => make_title_line(line, title),
        SchedulePart::Heading => make_heading_line(line, title),
        SchedulePart::Head => {
            line.clear();
            line.push(head_text());
        }
        SchedulePart::Caption(rows) => make_caption(line, network, *rows),
        SchedulePart::Twig(twig, at, above) => make_twig(line, network, twig, *at, *above),
        SchedulePart::Bare(y) => make_bare(line, *y),
        SchedulePart::Zone(zone) => make_zone(line, zone),
        SchedulePart::Lane(lane, at) => make_lane(line, network, lane, *at),
        SchedulePart::Frame(frame) => make_frame(line, network, frame),
        SchedulePart::Close => {
            line.clear();
            line.push("</svg>\n");
        }
    }
}
