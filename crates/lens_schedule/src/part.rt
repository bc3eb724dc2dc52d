//! What is drawn, each as a line.

use crate::{Frame, Lane, Twig, Zone};
use lens_svg::PicturePoint;

/// Something that is drawn.
#[derive(Clone, Copy)]
pub enum SchedulePart {
    /// The beginning of the picture: how wide and how high it is.
    Opening(u64, u64),
    /// The name of the picture.
    Title,
    /// The colours, the background and the names of the channels.
    Head,
    /// The title at the head.
    Heading,
    /// The numbers of the network, with the count of its rows.
    Caption(u64),
    /// A device in the tree of a channel: its place, and how far down its parent's is.
    Twig(Twig, PicturePoint, u64),
    /// That there are no rows, so far down.
    Bare(u64),
    /// A stretch of the cycle.
    Zone(Zone),
    /// A port with its lane.
    Lane(Lane, PicturePoint),
    /// A row's frame in the lane of its port.
    Frame(Frame),
    /// The end of the picture.
    Close,
}
