//! What each picture has: its colours, and what they mean.
ghost use Rattle.std.specs.Prelude.{◌≡◌, ◌≤◌, length};
ghost use Rattle.lens_overview.specs.Signs.{sign_line};

/// A line that each picture has.
#[derive(Clone, Copy)]
pub enum OverviewSign {
    /// The colours.
    Style,
    /// The background.
    Backdrop,
    /// What the colours of frames mean.
    FrameKey,
    /// What the other colours mean.
    StateKey,
    /// The last line.
    Close,
}

const STYLE: &str = "\
    <style type=\"text/css\">text{font-family:sans-serif;font-size:9px;fill:#374151}\
    .top{font-size:15px;font-weight:bold}.note,.time,.title{fill:#6b7280}.note{font-size:11px}.key{font-size:10px}\
    .name{text-anchor:end}.name.lane,.name.flow{font-size:10px}.name.passage{font-size:8px}\
    path.tick{stroke:#e5e7eb}path.bar{fill:#0a8a83}path.lane{stroke-width:10}path.passage{stroke-width:5}\
    path.flow{stroke-width:9}path.one{stroke-width:3}path.two{stroke-width:5}path.three{stroke-width:7}\
    path.many{stroke-width:9}path.both{stroke:#8fcf9f}path.alone_a{stroke:#3b82f6}path.alone_b{stroke:#8b5cf6}\
    path.missing{stroke:#dc2626}path.event{stroke:#7c3aed}path.refused{stroke:#c81e1e}path.spared{stroke:#9ca3af}\
    path.synchronised{stroke:#bfe3c8}path.joining{stroke:#ffe08a}path.integrating{stroke:#f9a65a}\
    path.off{stroke:#cfcfcf}path.broken{stroke:#4b5563}path.cut{stroke:#a16207}\
    path.rail{stroke:#e5e7eb;stroke-width:1}path.rail.title{stroke:none}</style>\n";

const BACKDROP: &str = "<rect width=\"100%\" height=\"100%\" fill=\"#fafafa\"/>\n";

const FRAME_KEY: &str = "\
    <g><g transform=\"translate(200 50)\"><path class=\"flow both\" d=\"M0 0 H12\"/>\
    <text class=\"key\" x=\"17\" y=\"4\">by both channels</text></g><g transform=\"translate(320 50)\">\
    <path class=\"flow alone_a\" d=\"M0 0 H12\"/><text class=\"key\" x=\"17\" y=\"4\">by a alone</text></g>\
    <g transform=\"translate(410 50)\"><path class=\"flow alone_b\" d=\"M0 0 H12\"/>\
    <text class=\"key\" x=\"17\" y=\"4\">by b alone</text></g><g transform=\"translate(500 50)\">\
    <path class=\"flow missing\" d=\"M0 0 H12\"/><text class=\"key\" x=\"17\" y=\"4\">owed and by none</text></g>\
    <g transform=\"translate(626 50)\"><path class=\"refused many\" d=\"M0 0 H12\"/>\
    <text class=\"key\" x=\"17\" y=\"4\">lost or refused</text></g><g transform=\"translate(728 50)\">\
    <path class=\"spared many\" d=\"M0 0 H12\"/><text class=\"key\" x=\"17\" y=\"4\">second copy or not taken</text>\
    </g></g>\n";

const STATE_KEY: &str = "\
    <g><g transform=\"translate(200 66)\"><path class=\"lane synchronised\" d=\"M0 0 H12\"/>\
    <text class=\"key\" x=\"17\" y=\"4\">synchronised</text></g><g transform=\"translate(320 66)\">\
    <path class=\"lane joining\" d=\"M0 0 H12\"/><text class=\"key\" x=\"17\" y=\"4\">joining</text></g>\
    <g transform=\"translate(410 66)\"><path class=\"lane integrating\" d=\"M0 0 H12\"/>\
    <text class=\"key\" x=\"17\" y=\"4\">integrating</text></g><g transform=\"translate(500 66)\">\
    <path class=\"lane off\" d=\"M0 0 H12\"/><text class=\"key\" x=\"17\" y=\"4\">off</text></g>\
    <g transform=\"translate(562 66)\"><path class=\"lane broken\" d=\"M0 0 H12\"/>\
    <text class=\"key\" x=\"17\" y=\"4\">broken</text></g><g transform=\"translate(626 66)\">\
    <path class=\"passage cut\" d=\"M0 0 H12\"/><text class=\"key\" x=\"17\" y=\"4\">cut</text></g>\
    <g transform=\"translate(728 66)\"><path class=\"event many\" d=\"M0 0 H12\"/>\
    <text class=\"key\" x=\"17\" y=\"4\">events</text></g></g>\n";

const CLOSE: &str = "</svg>\n";

impl OverviewSign {
    /// The line, ended by LF. It has at most 4,096 octets.
    #[tactic(auto, unfolding(crate::specs::Signs::sign_line))]
    pub(crate) fn line(self) -> &'static str
        ensures text { result.now ≡ sign_line self }
        ensures short { length result.now ≤ 4096 }
    {
        match self {
            OverviewSign::Style => STYLE,
            OverviewSign::Backdrop => BACKDROP,
            OverviewSign::FrameKey => FRAME_KEY,
            OverviewSign::StateKey => STATE_KEY,
            OverviewSign::Close => CLOSE,
        }
    }
}
