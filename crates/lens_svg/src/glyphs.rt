//! The mark of a record: its sign and its label.
ghost use Rattle.std.specs.Prelude.{◌≡◌, ◌≤◌, length};
ghost use Rattle.lens_svg.specs.Glyphs.{dropped_glyph, glyph_text, verdict_glyph};

use run_law::{Judgement, NoteBody, Reason};

/// The sign of a frame that is permanent, and the beginning of its label.
fn verdict_glyph(verdict: Judgement) -> &'static str
    ensures text { result.now ≡ verdict_glyph verdict }
    ensures short { length result.now ≤ 90 }
{
    match verdict {
        Judgement::Opened | Judgement::Joined =>
            "<use xlink:href=\"#joined\"/><text class=\"label\">",
        Judgement::Within => "<use xlink:href=\"#within\"/><text class=\"label\">",
        Judgement::Outside =>
            "<use xlink:href=\"#outside\"/><text class=\"label outside\" x=\"4\" y=\"-8\">",
        Judgement::Repeat | Judgement::Ignored =>
            "<use xlink:href=\"#ignored\"/><text class=\"label\" x=\"4\" y=\"-8\">",
        Judgement::Integrates =>
            "<use xlink:href=\"#integrates\"/><text class=\"label corrected\" x=\"4\" y=\"16\">",
    }
}

/// The sign of a frame that is dropped, and the beginning of its label: a second copy is not wanted, a device that is
/// off or not synchronised takes none, and else the frame is refused.
fn dropped_glyph(reason: Reason) -> &'static str
    ensures text { result.now ≡ dropped_glyph reason }
    ensures short { length result.now ≤ 100 }
{
    match reason {
        Reason::Repeat => "<use xlink:href=\"#second\"/><text class=\"label\">",
        Reason::Off | Reason::Unsynchronised =>
            "<use xlink:href=\"#untaken\"/><text class=\"label untaken\" x=\"12\" y=\"14\" transform=\"rotate(30)\">",
        Reason::ColdStart
        | Reason::Domain
        | Reason::Member
        | Reason::Old
        | Reason::Gate
        | Reason::Cycle
        | Reason::Unknown
        | Reason::Length
        | Reason::Early
        | Reason::Late
        | Reason::RefusedLength(_)
        | Reason::RefusedEtherType
        | Reason::RefusedReserved(_)
        | Reason::RefusedKind(_) =>
            "<use xlink:href=\"#dropped\"/><text class=\"label dropped\" x=\"12\" y=\"14\" transform=\"rotate(30)\">",
    }
}

/// The sign of a record, and the beginning of its label.
pub(crate) fn glyph_text(body: &NoteBody) -> &'static str
    ensures text { result.now ≡ glyph_text body.now }
    ensures short { length result.now ≤ 100 }
{
    match body {
        NoteBody::Event { .. } =>
            "<use xlink:href=\"#event\"/><text class=\"label event\" x=\"4\" y=\"-4\" transform=\"rotate(-40)\">",
        NoteBody::Arrived { .. } | NoteBody::Left { .. } | NoteBody::Clock { .. } =>
            "<use xlink:href=\"#dot\"/><text class=\"label\">",
        NoteBody::Permanent { verdict, .. } => verdict_glyph(*verdict),
        NoteBody::Compressed { .. } =>
            "<use xlink:href=\"#compressed\"/><text class=\"label compressed\" x=\"10\" y=\"-3\">",
        NoteBody::Sent { .. } => "<use xlink:href=\"#sent\"/><text class=\"label\">",
        NoteBody::Corrected { .. } =>
            "<use xlink:href=\"#corrected\"/><text class=\"label corrected\" x=\"6\" y=\"16\">",
        NoteBody::State { .. } =>
            "<use xlink:href=\"#state\"/><text class=\"label state\" x=\"5\" y=\"-12\">",
        NoteBody::Lost { .. } =>
            "<use xlink:href=\"#lost\"/><text class=\"label lost\" x=\"13\" y=\"14\" transform=\"rotate(30)\">",
        NoteBody::TtSent { .. } =>
            "<use xlink:href=\"#ttsent\"/><text class=\"label stream\" x=\"5\" y=\"-3\" transform=\"rotate(-40)\">",
        NoteBody::Accepted { .. } =>
            "<use xlink:href=\"#accepted\"/><text class=\"label stream\" x=\"7\" y=\"-3\" transform=\"rotate(-40)\">",
        NoteBody::Delivered { .. } =>
            "<use xlink:href=\"#delivered\"/><text class=\"label delivered\" x=\"7\" y=\"-3\" transform=\"rotate(-40)\">",
        NoteBody::Dropped { reason, .. } => dropped_glyph(*reason),
    }
}
