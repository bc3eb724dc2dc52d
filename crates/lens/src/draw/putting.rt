//! The lines below the marks.
ghost use Rattle.std.specs.Prelude.{◌≡◌, ◌<◌, ◌∷◌, [], IfSome, MatchResult, length};
ghost use Rattle.lens.specs.draw.Picture.{front_lines, gauges_lines, lanes_lines, layer_lines, marks_lines, some_line};
ghost use Rattle.{lens.specs.draw.{Picture.windows_lines, Signs.sign_line}, lens_svg.specs.Elements.HasNames};
ghost use Rattle.{net_plan.specs.Ranges.IsInRange, tte_forms.specs.Faults.PutFailed};
ghost use Rattle.{lens_svg.specs.Titles.{heading_line, title_line}, tte_forms.specs.Putting.{Over, Puts}};

use crate::draw::signs::Sign;
use lens_svg::{
    Came, Clocks, Element, LaneLayer, MarkLayer, Sketch, gauge_of, lack_of, make_element_line,
    make_heading_line, make_title_line, on_lane, on_mark, opening_of, spread_of,
};
use net_plan::Network;
use tte_io::{LineText, Sink, SinkFailed};

/// A part of a picture.
#[derive(Clone, Copy)]
pub(crate) enum Layer {
    /// The beginning of the picture.
    Opening,
    /// The name of the picture.
    Title,
    /// A line that each picture has.
    Shared(Sign),
    /// The same at the head of the picture.
    Heading,
    /// Which part of the run is drawn, how many records that are, and the precision.
    Caption,
    /// Something of each device.
    Lanes(LaneLayer),
    /// Something of each record that is drawn.
    Marks(MarkLayer),
    /// Where in their windows frames came.
    Windows,
    /// The clocks at the end of the run.
    Gauges,
    /// How far they are apart.
    Spread,
    /// That no record is drawn.
    Lack,
}

/// The parts below the marks, in their order.
pub(crate) const LAYERS: [Layer; 20] = [
    Layer::Opening,
    Layer::Title,
    Layer::Shared(Sign::Style),
    Layer::Shared(Sign::Arrows),
    Layer::Shared(Sign::Shapes),
    Layer::Shared(Sign::Backdrop),
    Layer::Heading,
    Layer::Shared(Sign::MarkKey),
    Layer::Shared(Sign::WayKey),
    Layer::Caption,
    Layer::Lanes(LaneLayer::Grounds),
    Layer::Marks(MarkLayer::Turns),
    Layer::Marks(MarkLayer::Ticks),
    Layer::Lanes(LaneLayer::Rails),
    Layer::Marks(MarkLayer::Waits),
    Layer::Marks(MarkLayer::Ways),
    Layer::Windows,
    Layer::Gauges,
    Layer::Spread,
    Layer::Lack,
];

/// Puts the line of something that is drawn, if there is anything.
fn put_some<K: Sink>(
    network: &Network,
    element: Option<Element>,
    line: &mut LineText,
    out: &mut K,
) -> Result<(), SinkFailed>
    requires range { IsInRange network.now }
    requires names { IfSome element (HasNames network.now) }
    ensures draws { Over K.Sink out.old out.new (Puts (some_line network.now element) result) }
    ensures faults { MatchResult result (λ _. K.faults out.new ≡ K.faults out.old)
        (λ _. PutFailed K.Sink out.old out.new) }
{
    match element {
        Some(element) => {
            make_element_line(line, network, element);
            out.put(line.as_slice())
        }
        None => Ok(()),
    }
}

/// Puts a line that each picture has.
fn put_shared<K: Sink>(sign: Sign, out: &mut K) -> Result<(), SinkFailed>
    ensures draws { Over K.Sink out.old out.new (Puts (sign_line sign ∷ []) result) }
    ensures faults { MatchResult result (λ _. K.faults out.new ≡ K.faults out.old)
        (λ _. PutFailed K.Sink out.old out.new) }
{
    out.put(sign.line().as_bytes())
}

/// Puts the line by which the picture is named.
fn put_title<K: Sink>(sketch: &Sketch, line: &mut LineText, out: &mut K) -> Result<(), SinkFailed>
    ensures draws { Over K.Sink out.old out.new (Puts (title_line sketch.now.view.title ∷ []) result) }
    ensures faults { MatchResult result (λ _. K.faults out.new ≡ K.faults out.old)
        (λ _. PutFailed K.Sink out.old out.new) }
{
    make_title_line(line, sketch.title());
    out.put(line.as_slice())
}

/// Puts the name of the picture at its head.
fn put_heading<K: Sink>(sketch: &Sketch, line: &mut LineText, out: &mut K) -> Result<(), SinkFailed>
    ensures draws { Over K.Sink out.old out.new (Puts (heading_line sketch.now.view.title ∷ []) result) }
    ensures faults { MatchResult result (λ _. K.faults out.new ≡ K.faults out.old)
        (λ _. PutFailed K.Sink out.old out.new) }
{
    make_heading_line(line, sketch.title());
    out.put(line.as_slice())
}

/// Puts something of each device.
fn put_lanes<K: Sink>(
    network: &Network,
    sketch: &Sketch,
    layer: LaneLayer,
    line: &mut LineText,
    out: &mut K,
) -> Result<(), SinkFailed>
    requires { IsInRange network.now }
    ensures draws { Over K.Sink out.old out.new (Puts (lanes_lines network.now sketch.now layer) result) }
    ensures faults { MatchResult result (λ _. K.faults out.new ≡ K.faults out.old)
        (λ _. PutFailed K.Sink out.old out.new) }
{
    'lanes: for place in 0..network.device.as_slice().len() {
        let element = on_lane(layer, network, sketch, place);
        match put_some(network, element, line, out) {
            Ok(()) => (),
            Err(cause) => return Err(cause),
        }
    }
    Ok(())
}

/// Puts something of each record that is drawn.
fn put_marks<K: Sink>(
    network: &Network,
    sketch: &Sketch,
    layer: MarkLayer,
    line: &mut LineText,
    out: &mut K,
) -> Result<(), SinkFailed>
    requires { IsInRange network.now }
    ensures draws { Over K.Sink out.old out.new (Puts (marks_lines network.now sketch.now layer) result) }
    ensures faults { MatchResult result (λ _. K.faults out.new ≡ K.faults out.old)
        (λ _. PutFailed K.Sink out.old out.new) }
{
    let marks = sketch.marks();
    'drawn: for mark in marks {
        let element = on_mark(layer, network, sketch, mark);
        match put_some(network, element, line, out) {
            Ok(()) => (),
            Err(cause) => return Err(cause),
        }
    }
    Ok(())
}

/// Puts where in its window each of these frames came.
fn put_windows<K: Sink>(
    network: &Network,
    windows: &[Came],
    line: &mut LineText,
    out: &mut K,
) -> Result<(), SinkFailed>
    requires { IsInRange network.now }
    ensures draws { Over K.Sink out.old out.new (Puts (windows_lines network.now windows.now) result) }
    ensures faults { MatchResult result (λ _. K.faults out.new ≡ K.faults out.old)
        (λ _. PutFailed K.Sink out.old out.new) }
{
    'frames: for came in windows {
        let element = Element::Window(came.place, came.tick);
        match put_some(network, Some(element), line, out) {
            Ok(()) => (),
            Err(cause) => return Err(cause),
        }
    }
    Ok(())
}

/// Puts each clock that is told.
fn put_gauges<K: Sink>(
    network: &Network,
    sketch: &Sketch,
    clocks: &Clocks,
    line: &mut LineText,
    out: &mut K,
) -> Result<(), SinkFailed>
    requires { IsInRange network.now }
    ensures draws { Over K.Sink out.old out.new (Puts (gauges_lines network.now sketch.now clocks.now) result) }
    ensures faults { MatchResult result (λ _. K.faults out.new ≡ K.faults out.old)
        (λ _. PutFailed K.Sink out.old out.new) }
{
    let told = clocks.told();
    'clocks: for clock in told {
        let element = gauge_of(network, sketch, clocks, *clock);
        match put_some(network, element, line, out) {
            Ok(()) => (),
            Err(cause) => return Err(cause),
        }
    }
    Ok(())
}

/// Puts a part of the picture.
fn put_layer<K: Sink>(
    network: &Network,
    sketch: &Sketch,
    windows: &[Came],
    clocks: &Clocks,
    layer: Layer,
    line: &mut LineText,
    out: &mut K,
) -> Result<(), SinkFailed>
    requires { IsInRange network.now }
    ensures draws { Over K.Sink out.old out.new
        (Puts (layer_lines network.now sketch.now windows.now clocks.now layer) result) }
    ensures faults { MatchResult result (λ _. K.faults out.new ≡ K.faults out.old)
        (λ _. PutFailed K.Sink out.old out.new) }
{
    match layer {
        Layer::Opening => put_some(network, Some(opening_of(network, sketch)), line, out),
        Layer::Title => put_title(sketch, line, out),
        Layer::Shared(sign) => put_shared(sign, out),
        Layer::Heading => put_heading(sketch, line, out),
        Layer::Caption => {
            let records = sketch.marks().len() as u64;
            let caption = Element::Caption(sketch.span(), records);
            put_some(network, Some(caption), line, out)
        }
        Layer::Lanes(layer) => put_lanes(network, sketch, layer, line, out),
        Layer::Marks(layer) => put_marks(network, sketch, layer, line, out),
        Layer::Windows => put_windows(network, windows, line, out),
        Layer::Gauges => put_gauges(network, sketch, clocks, line, out),
        Layer::Spread => put_some(network, spread_of(network, sketch, clocks), line, out),
        Layer::Lack => put_some(network, lack_of(sketch), line, out),
    }
}

/// Puts all that is below the marks.
pub(crate) fn put_front<K: Sink>(
    network: &Network,
    sketch: &Sketch,
    windows: &[Came],
    clocks: &Clocks,
    line: &mut LineText,
    out: &mut K,
) -> Result<(), SinkFailed>
    requires { IsInRange network.now }
    ensures draws { Over K.Sink out.old out.new
        (Puts (front_lines network.now sketch.now windows.now clocks.now) result) }
    ensures faults { MatchResult result (λ _. K.faults out.new ≡ K.faults out.old)
        (λ _. PutFailed K.Sink out.old out.new) }
{
    'layers: for layer in &LAYERS {
        match put_layer(network, sketch, windows, clocks, *layer, line, out) {
            Ok(()) => (),
            Err(cause) => return Err(cause),
        }
    }
    Ok(())
}
