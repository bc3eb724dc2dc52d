//! The layers of a picture below its marks.
ghost use Rattle.std.specs.Prelude.{◌≡◌, ◌<◌, IfSome, length};
ghost use Rattle.{lens_svg.specs.Elements.HasNames, net_plan.specs.Ranges.IsInRange};
ghost use Rattle.net_plan.specs.declared.network.Network.{Network as NetworkValue};
ghost use Rattle.lens_svg.specs.Layers.{height_at, is_gone, lack_of, may_wait, of_lane, on_lane, on_mark, opening_of};
ghost use Rattle.lens_svg.specs.Layers.{tick_of, turn_of, wait_between, wait_of, way_of};

use crate::element::{Band, Element, PicturePoint};
use crate::lanes::{bottom_of, y_of};
use crate::{Look, Mark, Sketch};
use net_plan::{DeviceId, Network};

/// What is drawn of each device.
#[derive(Clone, Copy)]
pub enum LaneLayer {
    /// The ground of its lane where the picture begins.
    Grounds,
    /// Its name, and the line of its lane.
    Rails,
}

/// What is drawn of each record that is drawn.
#[derive(Clone, Copy)]
pub enum MarkLayer {
    /// The ground of a lane, from the record on that changes it.
    Turns,
    /// The instants.
    Ticks,
    /// How long each frame waited until it was permanent, or was dropped.
    Waits,
    /// The ways of frames from device to device.
    Ways,
}

/// The beginning of the picture.
pub fn opening_of(network: &Network, sketch: &Sketch) -> Element
    requires { IsInRange network.now }
    ensures { result ≡ opening_of network.now sketch.now }
{
    Element::Opening(
        sketch.pen().right() + 20,
        bottom_of(network, sketch.kept()) + 70,
    )
}

/// That no record is drawn, where that is so.
pub fn lack_of(sketch: &Sketch) -> Option<Element>
    ensures value { result ≡ lack_of sketch.now }
    ensures names { (network : NetworkValue) → IfSome result (HasNames network) }
{
    if sketch.marks().is_empty() {
        Some(Element::Lack)
    } else {
        None
    }
}

/// How far down the lane of the device at this place is.
fn height_at(network: &Network, sketch: &Sketch, place: usize) -> u64
    requires range { IsInRange network.now }
    requires within { place < length network.now.device }
    ensures { result ≡ height_at network.now sketch.now place }
{
    y_of(network, sketch.kept(), DeviceId(place as u32))
}

/// The ground or the line of the lane of the device at this place.
fn of_lane(layer: LaneLayer, network: &Network, sketch: &Sketch, place: usize) -> Option<Element>
    requires range { IsInRange network.now }
    requires within { place < length network.now.device }
    ensures value { result ≡ of_lane layer network.now sketch.now place }
    ensures names { IfSome result (HasNames network.now) }
{
    let y = height_at(network, sketch, place);
    let right = sketch.pen().right();
    match layer {
        LaneLayer::Grounds => match sketch.ground_at(place) {
            Some(ground) => Some(Element::Bar(
                Band::Ground(ground),
                PicturePoint { x: 140, y },
                right,
            )),
            None => None,
        },
        LaneLayer::Rails => Some(Element::Rail(DeviceId(place as u32), y, right)),
    }
}

/// What is drawn of the device at this place: nothing where it has no lane.
pub fn on_lane(
    layer: LaneLayer,
    network: &Network,
    sketch: &Sketch,
    place: usize,
) -> Option<Element>
    requires range { IsInRange network.now }
    requires within { place < length network.now.device }
    ensures value { result ≡ on_lane layer network.now sketch.now place }
    ensures names { IfSome result (HasNames network.now) }
{
    if sketch.kept().shows(place) {
        of_lane(layer, network, sketch, place)
    } else {
        None
    }
}

/// The lane's ground from the mark on, where that changes.
fn turn_of(sketch: &Sketch, mark: &Mark) -> Option<Element>
    ensures { result ≡ turn_of sketch.now mark.now }
{
    match mark.look {
        Look::Turned(ground) => Some(Element::Bar(
            Band::Ground(ground),
            PicturePoint {
                x: mark.x,
                y: mark.y,
            },
            sketch.pen().right(),
        )),
        Look::Plain | Look::Waited | Look::Gone | Look::Taken(_, _) => None,
    }
}

/// The instant of the mark, where that is its first.
fn tick_of(network: &Network, sketch: &Sketch, mark: &Mark) -> Option<Element>
    requires { IsInRange network.now }
    ensures { result ≡ tick_of network.now sketch.now mark.now }
{
    if mark.first {
        let place = PicturePoint {
            x: mark.x,
            y: bottom_of(network, sketch.kept()),
        };
        Some(Element::Tick(place, mark.time))
    } else {
        None
    }
}

/// May the frame of the mark have waited at its device?
fn may_wait(look: Look) -> bool
    ensures { result ≡ may_wait look }
{
    match look {
        Look::Waited | Look::Gone => true,
        Look::Plain | Look::Turned(_) | Look::Taken(_, _) => false,
    }
}

/// The wait of a frame from one mark to a later one at the same device.
fn wait_between(cause: &Mark, mark: &Mark) -> Option<Element>
    ensures { result ≡ wait_between cause.now mark.now }
{
    if cause.device.0 == mark.device.0 && cause.time < mark.time {
        let place = PicturePoint {
            x: cause.x,
            y: cause.y,
        };
        Some(Element::Bar(Band::Wait(mark.hue), place, mark.x))
    } else {
        None
    }
}

/// How long the frame waited that is permanent with the mark, or that is dropped with it.
fn wait_of(sketch: &Sketch, mark: &Mark) -> Option<Element>
    ensures { result ≡ wait_of sketch.now mark.now }
{
    if !may_wait(mark.look) {
        return None;
    }
    match sketch.mark_at(mark.cause) {
        Some(cause) => wait_between(&cause, mark),
        None => None,
    }
}

/// Does the frame of the mark end with it?
fn is_gone(look: Look) -> bool
    ensures { result ≡ is_gone look }
{
    match look {
        Look::Gone => true,
        Look::Plain | Look::Waited | Look::Turned(_) | Look::Taken(_, _) => false,
    }
}

/// The way of a frame to the mark, where it comes from another device.
fn way_of(sketch: &Sketch, mark: &Mark) -> Option<Element>
    ensures { result ≡ way_of sketch.now mark.now }
{
    let cause = match sketch.mark_at(mark.cause) {
        Some(cause) => cause,
        None => return None,
    };
    if cause.device.0 == mark.device.0 {
        return None;
    }
    Some(Element::Way(
        mark.hue,
        is_gone(mark.look),
        PicturePoint {
            x: cause.x,
            y: cause.y,
        },
        PicturePoint {
            x: mark.x,
            y: mark.y,
        },
    ))
}

/// What is drawn of the record of the mark.
pub fn on_mark(layer: MarkLayer, network: &Network, sketch: &Sketch, mark: &Mark) -> Option<Element>
    requires { IsInRange network.now }
    ensures value { result ≡ on_mark layer network.now sketch.now mark.now }
    ensures names { IfSome result (HasNames network.now) }
{
    match layer {
        MarkLayer::Turns => turn_of(sketch, mark),
        MarkLayer::Ticks => tick_of(network, sketch, mark),
        MarkLayer::Waits => wait_of(sketch, mark),
        MarkLayer::Ways => way_of(sketch, mark),
    }
}
