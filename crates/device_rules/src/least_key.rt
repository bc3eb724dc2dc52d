//! Keys by place, of which the least is at hand.

mod key;
mod keys;

pub use key::{NO_KEY, key_of, order_of, time_of};
pub use keys::Keys;
