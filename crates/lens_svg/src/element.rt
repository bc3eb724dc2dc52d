//! What is drawn besides the marks, each as a line.
ghost use Rattle.std.specs.Prelude.{◌≡◌, ◌≤◌, ◌+◌, ◌++◌, length};
ghost use Rattle.lens_svg.specs.Elements.{HasNames, band_text, bar_line, caption_line, element_line, gauge_line};
ghost use Rattle.lens_svg.specs.Elements.{extent_text, gone_text, kind_text, name_part, opening_line, point_text, rail_line};
ghost use Rattle.lens_svg.specs.Elements.{lack_line, role_part, role_text, role_word, spread_bar, spread_line, spread_words};
ghost use Rattle.lens_svg.specs.Elements.{tick_line, until_text, way_line, window_line};
ghost use Rattle.{net_plan.specs.{Belonging.{HasDevice, device_name}, Ranges.IsInRange}, tte_io.specs.Line.line_limit};

use crate::layout::LAST_TIME;
use crate::mark::{ground_text, hue_text};
use crate::numbers::push_micros;
use crate::{Ground, Hue, Span};
use net_plan::{DeviceId, Network, Role};
use tte_io::LineText;
use tte_units::frames::Channel;

/// A place in the picture, in pixels from its left and from its top.
#[derive(Clone, Copy)]
pub struct PicturePoint {
    pub x: u64,
    pub y: u64,
}

/// What a stroke along a lane is.
#[derive(Clone, Copy)]
pub enum Band {
    Ground(Ground),
    Wait(Hue),
}

/// Something that is drawn.
#[derive(Clone, Copy)]
pub enum Element {
    /// The beginning of the picture: how wide and how high it is.
    Opening(u64, u64),
    /// Which part of the run is drawn, and how many records there are in it.
    Caption(Span, u64),
    /// A stroke along a lane, from a place to so far to the right.
    Bar(Band, PicturePoint, u64),
    /// A device's name, and the line of its lane: how far down it is, and how far to the right it ends.
    Rail(DeviceId, u64, u64),
    /// An instant: where it stands, with the end of the lanes there, and its time.
    Tick(PicturePoint, u64),
    /// A frame's way from one mark to another, and whether it ends there.
    Way(Hue, bool, PicturePoint, PicturePoint),
    /// A clock: the last mark of its lane, how long its bar is, and how many nanoseconds it lies beyond the least.
    Gauge(PicturePoint, u64, u64),
    /// How far down the lanes end, how long the bar is, how many nanoseconds the clocks are apart, and how many they
    /// may be.
    Spread(u64, u64, u64, u64),
    /// The window of a frame that was taken: its mark, and how far the tick stands in the box.
    Window(PicturePoint, u64),
    /// That no record is drawn.
    Lack,
}

/// Adds a place: at most 41 octets.
fn push_point(line: &mut LineText, point: PicturePoint)
    requires { length line.old + 41 ≤ line_limit }
    ensures text { line.new ≡ line.old ++ point_text point }
    ensures grows { length line.new ≤ length line.old + 41 }
{
    line.push_decimal(point.x);
    line.push(" ");
    line.push_decimal(point.y);
}

/// Adds the words of a stroke: at most 19 octets.
fn push_band(line: &mut LineText, band: Band)
    requires { length line.old + 19 ≤ line_limit }
    ensures text { line.new ≡ line.old ++ band_text band }
    ensures grows { length line.new ≤ length line.old + 19 }
{
    match band {
        Band::Ground(ground) => {
            line.push("ground ");
            line.push(ground_text(ground));
        }
        Band::Wait(hue) => {
            line.push("wait ");
            line.push(hue_text(hue));
        }
    }
}

/// The word of a role: at most 6 octets.
pub fn role_word(role: Role) -> &'static str
    ensures text { result.now ≡ role_word role }
    ensures short { length result.now ≤ 6 }
{
    match role {
        Role::Master => "master",
        Role::Client => "client",
        Role::Cm => "cm",
        Role::Relay => "relay",
    }
}

/// Adds a role and a channel: at most 8 octets.
fn push_kind(line: &mut LineText, role: Role, channel: Option<Channel>)
    requires { length line.old + 8 ≤ line_limit }
    ensures text { line.new ≡ line.old ++ kind_text role channel }
    ensures grows { length line.new ≤ length line.old + 8 }
{
    line.push(role_word(role));
    match channel {
        Some(Channel::A) => line.push(" a"),
        Some(Channel::B) => line.push(" b"),
        None => (),
    }
}

/// Adds what the device is: at most 8 octets.
#[tactic(auto, unfolding(crate::specs::Elements::role_text))]
fn push_role(line: &mut LineText, network: &Network, device: DeviceId)
    requires { length line.old + 8 ≤ line_limit }
    ensures text { line.new ≡ line.old ++ role_text network.now device }
    ensures grows { length line.new ≤ length line.old + 8 }
{
    match network.device.as_slice().get(device.0 as usize) {
        Some(found) => push_kind(line, found.role, found.channel),
        None => (),
    }
}

/// Adds a device's name behind a text: at most 56 octets.
fn push_titled(line: &mut LineText, network: &Network, title: &str, device: DeviceId)
    requires range { IsInRange network.now }
    requires of_network { HasDevice network.now device }
    requires short { length title.now ≤ 40 }
    requires room { length line.old + 56 ≤ line_limit }
    ensures text { line.new ≡ line.old ++ title.now ++ device_name network.now device }
    ensures grows { length line.new ≤ length line.old + 56 }
{
    line.push(title);
    line.append(network.device_name(device));
}

/// Adds a device's name beside its lane: at most 63 octets.
#[tactic(auto, unfolding(crate::specs::Elements::name_part))]
fn push_name(line: &mut LineText, network: &Network, device: DeviceId)
    requires range { IsInRange network.now }
    requires of_network { HasDevice network.now device }
    requires room { length line.old + 63 ≤ line_limit }
    ensures text { line.new ≡ line.old ++ name_part network.now device }
    ensures grows { length line.new ≤ length line.old + 63 }
{
    push_titled(
        line,
        network,
        "<text class=\"name\" x=\"132\" y=\"3\">",
        device,
    );
    line.push("</text>");
}

/// Adds what a device is, below its name: at most 70 octets.
#[tactic(auto, unfolding(crate::specs::Elements::role_part))]
fn push_below(line: &mut LineText, network: &Network, device: DeviceId)
    requires { length line.old + 70 ≤ line_limit }
    ensures text { line.new ≡ line.old ++ role_part network.now device }
    ensures grows { length line.new ≤ length line.old + 70 }
{
    line.push("<text class=\"role\" x=\"132\" y=\"15\">");
    push_role(line, network, device);
    line.push("</text></g>\n");
}

#[tactic(auto, unfolding(crate::specs::Elements::bar_line))]
fn make_bar(line: &mut LineText, band: Band, point: PicturePoint, to: u64)
    ensures { line.new ≡ bar_line band point to }
{
    line.clear();
    line.push("<path class=\"");
    push_band(line, band);
    line.push("\" d=\"M");
    push_point(line, point);
    line.push(" H");
    line.push_decimal(to);
    line.push("\"/>\n");
}

#[tactic(auto, unfolding(crate::specs::Elements::rail_line))]
fn make_rail(line: &mut LineText, network: &Network, device: DeviceId, y: u64, to: u64)
    requires range { IsInRange network.now }
    requires of_network { HasDevice network.now device }
    ensures { line.new ≡ rail_line network.now device y to }
{
    line.clear();
    line.push("<g transform=\"translate(0,");
    line.push_decimal(y);
    line.push(")\"><path class=\"rail\" d=\"M140 0 H");
    line.push_decimal(to);
    line.push("\"/>");
    push_name(line, network, device);
    push_below(line, network, device);
}

#[tactic(auto, unfolding(crate::specs::Elements::tick_line))]
fn make_tick(line: &mut LineText, point: PicturePoint, time: u64)
    ensures { line.new ≡ tick_line point time }
{
    line.clear();
    line.push("<g><path class=\"tick\" d=\"M");
    push_point(line, point);
    line.push(" V168\"/><text class=\"time\" transform=\"translate(");
    push_point(line, point);
    line.push(") rotate(50)\" x=\"8\" y=\"6\">");
    push_micros(line, time);
    line.push("</text></g>\n");
}

/// The word for whether a frame ends.
fn gone_text(gone: bool) -> &'static str
    ensures text { result.now ≡ gone_text gone }
    ensures short { length result.now ≤ 5 }
{
    if gone { " gone" } else { "" }
}

#[tactic(auto, unfolding(crate::specs::Elements::way_line))]
fn make_way(line: &mut LineText, hue: Hue, gone: bool, from: PicturePoint, to: PicturePoint)
    ensures { line.new ≡ way_line hue gone from to }
{
    line.clear();
    line.push("<path class=\"way ");
    line.push(hue_text(hue));
    line.push(gone_text(gone));
    line.push("\" d=\"M");
    push_point(line, from);
    line.push(" L");
    push_point(line, to);
    line.push("\"/>\n");
}

#[tactic(auto, unfolding(crate::specs::Elements::opening_line))]
fn make_opening(line: &mut LineText, width: u64, height: u64)
    ensures { line.new ≡ opening_line width height }
{
    line.clear();
    line.push(
        "<svg xmlns=\"http://www.w3.org/2000/svg\" xmlns:xlink=\"http://www.w3.org/1999/xlink\" width=\"",
    );
    line.push_decimal(width);
    line.push("\" height=\"");
    line.push_decimal(height);
    line.push("\" viewBox=\"0 0 ");
    line.push_decimal(width);
    line.push(" ");
    line.push_decimal(height);
    line.push("\">\n");
}

/// Adds where the part of the run ends that is drawn: at most 84 octets.
fn push_until(line: &mut LineText, to: u64)
    requires { length line.old + 84 ≤ line_limit }
    ensures text { line.new ≡ line.old ++ until_text to }
    ensures grows { length line.new ≤ length line.old + 84 }
{
    if to == LAST_TIME {
        line.push("the end");
    } else {
        push_micros(line, to);
        line.push(" us");
    }
}

/// Adds how many records are drawn, and the precision.
#[tactic(auto, unfolding(crate::specs::Elements::extent_text))]
fn push_extent(line: &mut LineText, records: u64, precision: u64)
    requires { length line.old + 200 ≤ line_limit }
    ensures { line.new ≡ line.old ++ extent_text records precision }
{
    line.push(", records ");
    line.push_decimal(records);
    line.push(", precision ");
    push_micros(line, precision);
    line.push(" us. Gaps are drawn shortened.</text>\n");
}

#[tactic(auto, unfolding(crate::specs::Elements::caption_line))]
fn make_caption(line: &mut LineText, span: Span, records: u64, precision: u64)
    ensures { line.new ≡ caption_line span records precision }
{
    line.clear();
    line.push("<text class=\"note\" x=\"12\" y=\"42\">");
    push_micros(line, span.from);
    line.push(" us to ");
    push_until(line, span.to);
    push_extent(line, records, precision);
}

#[tactic(auto, unfolding(crate::specs::Elements::gauge_line))]
fn make_gauge(line: &mut LineText, point: PicturePoint, width: u64, nanos: u64)
    ensures { line.new ≡ gauge_line point width nanos }
{
    line.clear();
    line.push("<g transform=\"translate(");
    push_point(line, point);
    line.push(")\"><path class=\"frame\" d=\"M10 0 h50\"/><path class=\"clock\" d=\"M10 0 h");
    line.push_decimal(width);
    line.push("\"/><text class=\"key\" x=\"66\" y=\"-4\">");
    line.push_decimal(nanos);
    line.push(" ns</text></g>\n");
}

/// Makes the bar of how far the clocks are apart: at most 200 octets.
#[tactic(auto, unfolding(crate::specs::Elements::spread_bar))]
fn make_spread_bar(line: &mut LineText, y: u64, width: u64)
    ensures text { line.new ≡ spread_bar y width }
    ensures short { length line.new ≤ 200 }
{
    line.clear();
    line.push("<g transform=\"translate(12 ");
    line.push_decimal(y);
    line.push(")\"><path class=\"frame\" d=\"M0 12 h120\"/><path class=\"clock\" d=\"M0 12 h");
    line.push_decimal(width);
    line.push("\"/>");
}

/// Adds how far the clocks are apart, and how far they may be.
#[tactic(auto, unfolding(crate::specs::Elements::spread_words))]
fn push_spread(line: &mut LineText, apart: u64, most: u64)
    requires { length line.old + 200 ≤ line_limit }
    ensures { line.new ≡ line.old ++ spread_words apart most }
{
    line.push("<text class=\"key\" y=\"28\">clocks ");
    line.push_decimal(apart);
    line.push(" ns apart,</text><text class=\"key\" y=\"41\">");
    line.push_decimal(most);
    line.push(" ns at most</text></g>\n");
}

fn make_spread(line: &mut LineText, y: u64, width: u64, apart: u64, most: u64)
    ensures { line.new ≡ spread_line y width apart most }
{
    make_spread_bar(line, y, width);
    push_spread(line, apart, most);
}

#[tactic(auto, unfolding(crate::specs::Elements::window_line))]
fn make_window(line: &mut LineText, point: PicturePoint, tick: u64)
    ensures { line.new ≡ window_line point tick }
{
    line.clear();
    line.push("<g class=\"window\"><path d=\"M");
    push_point(line, point);
    line.push(" m-12 -8 h24 v16 h-24 z\"/><path class=\"came\" d=\"M");
    push_point(line, point);
    line.push(" m-12 -8 m");
    line.push_decimal(tick);
    line.push(" 0 v16\"/></g>\n");
}

fn make_lack(line: &mut LineText)
    ensures { line.new ≡ lack_line }
{
    line.clear();
    line.push(
        "<text class=\"note\" x=\"170\" y=\"140\">No such record lies in this part.</text>\n",
    );
}

/// Makes the line of something that is drawn, ended by LF.
pub fn make_element_line(line: &mut LineText, network: &Network, element: Element)
    requires range { IsInRange network.now }
    requires names { HasNames network.now element }
    ensures { line.new ≡ element_line network.now element }
{
    match element {
        Element::Opening(width, height) => make_opening(line, width, height),
        Element::Caption(span, records) => {
            make_caption(line, span, records, network.precision.amount());
        }
        Element::Bar(band, point, to) => make_bar(line, band, point, to),
        Element::Rail(device, y, to) => make_rail(line, network, device, y, to),
        Element::Tick(point, time) => make_tick(line, point, time),
        Element::Way(hue, gone, from, to) => make_way(line, hue, gone, from, to),
        Element::Gauge(point, width, nanos) => make_gauge(line, point, width, nanos),
        Element::Spread(y, width, apart, most) => make_spread(line, y, width, apart, most),
        Element::Window(point, tick) => make_window(line, point, tick),
        Element::Lack => make_lack(line),
    }
}
