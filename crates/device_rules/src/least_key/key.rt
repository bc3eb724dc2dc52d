//! Keys that are a time and, where times are one, an order.

ghost use Rattle.std.specs.Prelude.{◌%◌, ◌*◌, ◌+◌, ◌/◌, ◌<◌, ◌^◌, ◌≡◌};

/// The key of a place that has none.
pub const NO_KEY: u128 = u128::MAX;

/// The key of this time and, among those of one time, this order.
pub fn key_of(time: u64, order: u64) -> u128
    ensures { result ≡ time * 2 ^ 64 + order }
{
    u128::from(time) * 0x1_0000_0000_0000_0000 + u128::from(order)
}

/// The time of the key.
pub fn time_of(key: u128) -> u64
    ensures { result ≡ key / 2 ^ 64 }
{
    (key >> 64) as u64
}

/// The order of the key among those of its time.
pub fn order_of(key: u128) -> u64
    ensures { result ≡ key % 2 ^ 64 }
{
    (key % 0x1_0000_0000_0000_0000) as u64
}
