//! A picture of records as lines of SVG: what is drawn, and where.
#![tactic(auto)]

mod bodies;
mod clock;
mod element;
mod glance;
mod glyphs;
mod kept;
mod labels;
mod lanes;
mod laws;
mod layer;
mod layout;
mod mark;
mod marking;
mod naming;
mod numbers;
mod sketch;
mod title;
mod window;

pub use bodies::{scene_of, seat_of};
pub use clock::{Clocks, Ends, Told, gauge_of, spread_of};
pub use element::{Band, Element, PicturePoint, make_element_line, role_word};
pub use glance::Glance;
pub use kept::{DrawnRecords, Flags, flag_at};
pub use lanes::rank_in;
pub use laws::{arrows_law, hues_law, lanes_law, order_law, title_law};
pub use layer::{LaneLayer, MarkLayer, lack_of, on_lane, on_mark, opening_of};
pub use layout::{Pen, Span};
pub use mark::{Ground, Hue, Look, Mark};
pub use marking::make_mark_line;
pub use naming::{push_device, push_link, push_vl};
pub use numbers::push_micros;
pub use sketch::Sketch;
pub use title::{Title, make_heading_line, make_title_line};
pub use window::{Came, came_of};
