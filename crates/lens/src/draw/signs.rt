//! What each picture has: its colours, its signs, and what they mean.
ghost use Rattle.std.specs.Prelude.{◌≡◌};
ghost use Rattle.lens.specs.draw.Signs.{sign_line};

/// A line that each picture has.
#[derive(Clone, Copy)]
pub(crate) enum Sign {
    /// The colours.
    Style,
    /// The heads of arrows, and the ground of what is broken.
    Arrows,
    /// The signs.
    Shapes,
    /// The background.
    Backdrop,
    /// What the signs mean.
    MarkKey,
    /// What the arrows and the grounds mean.
    WayKey,
}

const STYLE: &str = "\
    <style type=\"text/css\">text{font-family:sans-serif;font-size:9px}.top{font-size:15px;font-weight:bold}\
    .note,.time,.role{fill:#6b7280}.note{font-size:11px}.name{font-size:13px;font-weight:bold;text-anchor:end}\
    .role{text-anchor:end}.key{font-size:10px;fill:#374151}.ground{stroke-width:38}.synchronised{stroke:#ffffff}\
    .joining{stroke:#fff3c4}.integrating{stroke:#fdc48e}.off{stroke:#dcdcdc}.broken{stroke:url(#hatch)}\
    .small{stroke-width:10}.rail{stroke:#c9ced6}.tick{stroke:#e3e7ee}.wait{stroke-width:6}.way{fill:none}\
    .frame{stroke:#e5e7eb;stroke-width:8}.clock{stroke:#15803d;stroke-width:8}\
    .window{fill:none;stroke:#d97706;stroke-dasharray:3 2}.came{stroke-dasharray:none;stroke-width:2}\
    .gone{stroke-dasharray:4 3}.way.control{stroke:#1f5fbf;marker-end:url(#to-control)}\
    .way.summary{stroke:#0a8a83;marker-end:url(#to-summary)}.way.stream{stroke:#d97706;marker-end:url(#to-stream)}\
    .way.forged{stroke:#c81e1e;marker-end:url(#to-forged)}.wait.control{stroke:#b5cbec}.wait.summary{stroke:#a9d8d5}\
    .wait.stream{stroke:#f3d3a8}.wait.forged{stroke:#efb0b0}.label{fill:#374151}.label.event{fill:#7c3aed}\
    .label.compressed{fill:#0a8a83}.label.corrected,.label.state{fill:#15803d}\
    .label.stream,.label.delivered{fill:#b45309}.label.delivered{font-weight:bold}.label.outside{fill:#92400e}\
    .label.untaken{fill:#6b7280}.label.dropped,.label.lost{fill:#c81e1e}g:target{filter:drop-shadow(0 0 4px #f59e0b)}\
    </style>\n";

const ARROWS: &str = "\
    <defs><pattern id=\"hatch\" width=\"8\" height=\"8\" patternUnits=\"userSpaceOnUse\">\
    <rect width=\"8\" height=\"8\" fill=\"#dcdcdc\"/><path d=\"M0 8 L8 0\" stroke=\"#9ca3af\"/></pattern><marker \
    id=\"to-control\" viewBox=\"0 0 8 8\" refX=\"8\" refY=\"4\" markerWidth=\"8\" markerHeight=\"8\" orient=\"auto\">\
    <path d=\"M0 0 L8 4 L0 8 z\" fill=\"#1f5fbf\"/></marker><marker id=\"to-summary\" viewBox=\"0 0 8 8\" refX=\"8\" \
    refY=\"4\" markerWidth=\"8\" markerHeight=\"8\" orient=\"auto\"><path d=\"M0 0 L8 4 L0 8 z\" fill=\"#0a8a83\"/>\
    </marker><marker id=\"to-stream\" viewBox=\"0 0 8 8\" refX=\"8\" refY=\"4\" markerWidth=\"8\" markerHeight=\"8\" \
    orient=\"auto\"><path d=\"M0 0 L8 4 L0 8 z\" fill=\"#d97706\"/></marker><marker id=\"to-forged\" viewBox=\"0 0 8 \
    8\" refX=\"8\" refY=\"4\" markerWidth=\"8\" markerHeight=\"8\" orient=\"auto\">\
    <path d=\"M0 0 L8 4 L0 8 z\" fill=\"#c81e1e\"/></marker></defs>\n";

const SHAPES: &str = "\
    <defs><circle id=\"sent\" r=\"4\" fill=\"#1f5fbf\"/><circle id=\"dot\" r=\"1\" fill=\"#6b7280\"/>\
    <circle id=\"ttsent\" r=\"3\" fill=\"#d97706\"/>\
    <path id=\"joined\" d=\"M0 -9 V9\" stroke=\"#1f5fbf\" stroke-width=\"2\"/>\
    <path id=\"within\" d=\"M0 -9 V9\" stroke=\"#0a8a83\" stroke-width=\"2\"/>\
    <path id=\"outside\" d=\"M0 -9 V9\" stroke=\"#92400e\" stroke-width=\"2\"/>\
    <path id=\"ignored\" d=\"M0 -9 V9\" stroke=\"#6b7280\" stroke-width=\"2\"/>\
    <path id=\"integrates\" d=\"M0 -9 V9\" stroke=\"#15803d\" stroke-width=\"2\"/>\
    <path id=\"compressed\" d=\"M0 -7 L7 0 L0 7 L-7 0 z\" fill=\"#0a8a83\"/>\
    <path id=\"corrected\" d=\"M0 -6 L5 5 L-5 5 z\" fill=\"#15803d\"/>\
    <path id=\"state\" d=\"M0 -17 V17\" stroke=\"#15803d\" stroke-width=\"4\"/>\
    <path id=\"lost\" d=\"M0 0 L6 10 M2 13 L10 7\" stroke=\"#c81e1e\" stroke-width=\"2\" fill=\"none\"/>\
    <circle id=\"accepted\" r=\"4\" fill=\"#ffffff\" stroke=\"#d97706\" stroke-width=\"2\"/>\
    <circle id=\"delivered\" r=\"5\" fill=\"#d97706\"/><circle id=\"second\" r=\"2.5\" fill=\"#9ca3af\"/>\
    <path id=\"untaken\" d=\"M-4 -4 L4 4 M-4 4 L4 -4\" stroke=\"#9ca3af\" stroke-width=\"2\"/>\
    <path id=\"dropped\" d=\"M-4 -4 L4 4 M-4 4 L4 -4\" stroke=\"#c81e1e\" stroke-width=\"2\"/>\
    <path id=\"event\" d=\"M0 0 V12\" stroke=\"#7c3aed\" stroke-width=\"2\"/></defs>\n";

const BACKDROP: &str = "<rect width=\"100%\" height=\"100%\" fill=\"#f6f7f9\"/>\n";

const MARK_KEY: &str = "\
    <g><g transform=\"translate(20 62)\"><use xlink:href=\"#sent\"/><text class=\"key\" x=\"10\" y=\"4\">sent</text>\
    </g><g transform=\"translate(72 62)\"><use xlink:href=\"#joined\"/><text class=\"key\" x=\"10\" y=\"4\">\
    permanent</text></g><g transform=\"translate(160 62)\"><use xlink:href=\"#compressed\"/>\
    <text class=\"key\" x=\"10\" y=\"4\">compressed</text></g><g transform=\"translate(246 62)\">\
    <use xlink:href=\"#corrected\"/><text class=\"key\" x=\"10\" y=\"4\">corrected</text></g>\
    <g transform=\"translate(324 62)\"><use xlink:href=\"#ttsent\"/><text class=\"key\" x=\"10\" y=\"4\">\
    dispatched</text></g><g transform=\"translate(404 62)\"><use xlink:href=\"#accepted\"/>\
    <text class=\"key\" x=\"10\" y=\"4\">accepted</text></g><g transform=\"translate(480 62)\">\
    <use xlink:href=\"#delivered\"/><text class=\"key\" x=\"10\" y=\"4\">delivered</text></g>\
    <g transform=\"translate(556 62)\"><use xlink:href=\"#second\"/><text class=\"key\" x=\"10\" y=\"4\">\
    second copy</text></g><g transform=\"translate(644 62)\"><use xlink:href=\"#untaken\"/>\
    <text class=\"key\" x=\"10\" y=\"4\">not taken</text></g><g transform=\"translate(718 62)\">\
    <use xlink:href=\"#dropped\"/><text class=\"key\" x=\"10\" y=\"4\">refused</text></g>\
    <g transform=\"translate(783 57)\"><use xlink:href=\"#lost\"/><text class=\"key\" x=\"14\" y=\"9\">lost</text>\
    </g><g transform=\"translate(848 62)\"><g class=\"window\"><path d=\"M-12 -8 h24 v16 h-24 z\"/>\
    <path class=\"came\" d=\"M0 -8 v16\"/></g><text class=\"key\" x=\"18\" y=\"4\">window</text></g></g>\n";

const WAY_KEY: &str = "\
    <g><g transform=\"translate(36 82)\"><path class=\"way control\" d=\"M-24 0 H-2\"/>\
    <text class=\"key\" x=\"4\" y=\"4\">control frame</text></g><g transform=\"translate(142 82)\">\
    <path class=\"way summary\" d=\"M-24 0 H-2\"/><text class=\"key\" x=\"4\" y=\"4\">compressed frame</text></g>\
    <g transform=\"translate(272 82)\"><path class=\"way stream\" d=\"M-24 0 H-2\"/>\
    <text class=\"key\" x=\"4\" y=\"4\">scheduled frame</text></g><g transform=\"translate(390 82)\">\
    <path class=\"way forged\" d=\"M-24 0 H-2\"/><text class=\"key\" x=\"4\" y=\"4\">forged</text></g>\
    <g transform=\"translate(462 82)\"><path class=\"wait control\" d=\"M-24 0 H-2\"/>\
    <text class=\"key\" x=\"4\" y=\"4\">waits</text></g><g transform=\"translate(536 82)\">\
    <path class=\"ground small joining\" d=\"M-24 0 H-2\"/><text class=\"key\" x=\"4\" y=\"4\">joining</text></g>\
    <g transform=\"translate(614 82)\"><path class=\"ground small integrating\" d=\"M-24 0 H-2\"/>\
    <text class=\"key\" x=\"4\" y=\"4\">integrating</text></g><g transform=\"translate(708 82)\">\
    <path class=\"ground small off\" d=\"M-24 0 H-2\"/><text class=\"key\" x=\"4\" y=\"4\">off</text></g>\
    <g transform=\"translate(762 82)\"><path class=\"ground small broken\" d=\"M-24 0 H-2\"/>\
    <text class=\"key\" x=\"4\" y=\"4\">broken</text></g></g>\n";

/// The last line.
pub(crate) const CLOSE: &str = "</svg>\n";

impl Sign {
    /// The line, ended by LF. It has at most 4,096 octets.
    #[tactic(auto, unfolding(crate::specs::draw::Signs::sign_line))]
    pub(crate) fn line(self) -> &'static str
        ensures { result.now ≡ sign_line self }
    {
        match self {
            Sign::Style => STYLE,
            Sign::Arrows => ARROWS,
            Sign::Shapes => SHAPES,
            Sign::Backdrop => BACKDROP,
            Sign::MarkKey => MARK_KEY,
            Sign::WayKey => WAY_KEY,
        }
    }
}
