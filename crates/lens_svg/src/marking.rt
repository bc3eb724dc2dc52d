//! The line of a record's mark, which has the record's own line as its title.
ghost use Rattle.std.specs.Prelude.{◌≡◌, ◌≤◌, ◌+◌, ◌++◌, length};
ghost use Rattle.{net_plan.specs.Ranges.IsInRange, tte_io.specs.Line.line_limit};
ghost use Rattle.lens_svg.specs.Marking.{head_text, height_of, label_part, link_end, link_text, link_to, mark_line};
ghost use Rattle.lens_svg.specs.Marking.{place_text, title_room};
ghost use Rattle.report_text.specs.{NoteLine.note_text, Ranges.{IsBodyOf, IsNoteInRange, IsNoteOf}};

use crate::Mark;
use crate::glyphs::glyph_text;
use crate::labels::push_label;
use net_plan::Network;
use report_text::make_note_line;
use run_law::{Note, NoteBody};
use tte_io::LineText;

/// How far down the sign of a mark stands: that of an event is above the lanes.
fn height_of(mark: &Mark) -> u64
    ensures { result ≡ height_of mark.now }
{
    if mark.seat == 0 { 167 } else { mark.y }
}

/// Adds the record's own line, without its LF.
fn push_title(line: &mut LineText, network: &Network, note: &Note)
    requires range { IsInRange network.now }
    requires of_network { IsNoteOf network.now note.now }
    requires in_range { IsNoteInRange note.now }
    requires room { length line.old + title_room ≤ line_limit }
    ensures text { line.new ≡ line.old ++ note_text network.now note.now }
    ensures grows { length line.new ≤ length line.old + title_room }
{
    let mut own = LineText::new();
    make_note_line(&mut own, network, note);
    let own = own.as_slice();
    line.append(&own[..own.len() - 1]);
}

/// Makes the first part of the line: the record's number and its own line.
#[tactic(auto, unfolding(crate::specs::Marking::head_text))]
fn make_head(line: &mut LineText, network: &Network, note: &Note)
    requires range { IsInRange network.now }
    requires of_network { IsNoteOf network.now note.now }
    requires in_range { IsNoteInRange note.now }
    ensures text { line.new ≡ head_text network.now note.now }
    ensures short { length line.new ≤ title_room + 50 }
{
    line.clear();
    line.push("<g id=\"r");
    line.push_decimal(note.number);
    line.push("\"><title>");
    push_title(line, network, note);
    line.push("</title>");
}

/// Adds the beginning of a link to the mark of the record of this number: at most 40 octets.
#[tactic(auto, unfolding(crate::specs::Marking::link_to))]
fn push_link_to(line: &mut LineText, number: u64)
    requires { length line.old + 40 ≤ line_limit }
    ensures text { line.new ≡ line.old ++ link_to number }
    ensures grows { length line.new ≤ length line.old + 40 }
{
    line.push("<a xlink:href=\"#r");
    line.push_decimal(number);
    line.push("\">");
}

/// Adds the beginning of the link to the mark of the record that it comes from, where that is drawn: at most 40 octets.
fn push_link(line: &mut LineText, mark: &Mark)
    requires { length line.old + 40 ≤ line_limit }
    ensures text { line.new ≡ line.old ++ link_text mark.now }
    ensures grows { length line.new ≤ length line.old + 40 }
{
    if mark.linked {
        push_link_to(line, mark.cause);
    }
}

/// The end of the link to the mark of the record that it comes from.
fn link_end(mark: &Mark) -> &'static str
    ensures text { result.now ≡ link_end mark.now }
    ensures short { length result.now ≤ 4 }
{
    if mark.linked { "</a>" } else { "" }
}

/// Adds where a mark is: at most 68 octets.
#[tactic(auto, unfolding(crate::specs::Marking::place_text))]
fn push_place(line: &mut LineText, x: u64, y: u64)
    requires { length line.old + 68 ≤ line_limit }
    ensures text { line.new ≡ line.old ++ place_text x y }
    ensures grows { length line.new ≤ length line.old + 68 }
{
    line.push("<g transform=\"translate(");
    line.push_decimal(x);
    line.push(" ");
    line.push_decimal(y);
    line.push(")\">");
}

/// Adds the sign of a record, and its label: at most 160 octets.
#[tactic(auto, unfolding(crate::specs::Marking::label_part))]
fn push_sign(line: &mut LineText, network: &Network, body: &NoteBody)
    requires range { IsInRange network.now }
    requires of_network { IsBodyOf network.now body.now }
    requires room { length line.old + 160 ≤ line_limit }
    ensures text { line.new ≡ line.old ++ label_part network.now body.now }
    ensures grows { length line.new ≤ length line.old + 160 }
{
    line.push(glyph_text(body));
    push_label(line, network, body);
    line.push("</text></g>");
}

/// Makes the line of the mark of a record, ended by LF.
pub fn make_mark_line(line: &mut LineText, network: &Network, mark: &Mark, note: &Note)
    requires range { IsInRange network.now }
    requires of_network { IsNoteOf network.now note.now }
    requires in_range { IsNoteInRange note.now }
    ensures { line.new ≡ mark_line network.now mark.now note.now }
{
    make_head(line, network, note);
    push_link(line, mark);
    push_place(line, mark.x, height_of(mark));
    push_sign(line, network, &note.body);
    line.push(link_end(mark));
    line.push("</g>\n");
}
