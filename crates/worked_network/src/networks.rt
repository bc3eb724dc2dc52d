use std::alloc::{AllocError, Global};

/// The worked network: four masters and a client, a relay and a compression master on each channel, and one virtual
/// link.
pub const WORKED: &str = "version = 1
cycle = 131072000000
rho = 50000
dmax = 3276800000
calc = 65536000
settled = 345000000
precision = 1048576000
correction = 18350080000
tt_start = 26542080000
sync_threshold = 3
priority = 0
domain = 0
pcf_destination = \"030000000001\"
marker = \"03040506\"
device = [
 {name=\"m1\", role=\"master\", mac=\"020000000011\", member=0, start=0},
 {name=\"m2\", role=\"master\", mac=\"020000000012\", member=1, start=0},
 {name=\"m3\", role=\"master\", mac=\"020000000013\", member=2, start=0},
 {name=\"m4\", role=\"master\", mac=\"020000000014\", member=3, start=0},
 {name=\"c1\", role=\"client\", mac=\"020000000015\", start=0},
 {name=\"ra\", role=\"relay\", mac=\"020000000021\", channel=\"a\", start=0},
 {name=\"ca\", role=\"cm\", mac=\"020000000022\", channel=\"a\", start=0},
 {name=\"rb\", role=\"relay\", mac=\"020000000023\", channel=\"b\", start=0},
 {name=\"cb\", role=\"cm\", mac=\"020000000024\", channel=\"b\", start=0},
]
link = [
 {name=\"m1_a\", child=\"m1\", parent=\"ra\", wire=32768000, jitter=1310720, hold=1310720000, speed=100},
 {name=\"m2_a\", child=\"m2\", parent=\"ra\", wire=32768000, jitter=1310720, hold=1310720000, speed=100},
 {name=\"m3_a\", child=\"m3\", parent=\"ra\", wire=32768000, jitter=1310720, hold=1310720000, speed=100},
 {name=\"m4_a\", child=\"m4\", parent=\"ra\", wire=32768000, jitter=1310720, hold=1310720000, speed=100},
 {name=\"c1_a\", child=\"c1\", parent=\"ra\", wire=32768000, jitter=1310720, hold=1310720000, speed=100},
 {name=\"ra_ca\", child=\"ra\", parent=\"ca\", wire=32768000, jitter=1310720, hold=1310720000, speed=100},
 {name=\"m1_b\", child=\"m1\", parent=\"rb\", wire=32768000, jitter=1310720, hold=1310720000, speed=100},
 {name=\"m2_b\", child=\"m2\", parent=\"rb\", wire=32768000, jitter=1310720, hold=1310720000, speed=100},
 {name=\"m3_b\", child=\"m3\", parent=\"rb\", wire=32768000, jitter=1310720, hold=1310720000, speed=100},
 {name=\"m4_b\", child=\"m4\", parent=\"rb\", wire=32768000, jitter=1310720, hold=1310720000, speed=100},
 {name=\"c1_b\", child=\"c1\", parent=\"rb\", wire=32768000, jitter=1310720, hold=1310720000, speed=100},
 {name=\"rb_cb\", child=\"rb\", parent=\"cb\", wire=32768000, jitter=1310720, hold=1310720000, speed=100},
]
vl = [
 {name=\"v1\", id=1, length=60, ethertype=2048, sender=\"m1\", period=1, phase=0},
]
row = [
 {vl=\"v1\", link=\"m1_a\", way=\"up\", offset=26542080000},
 {vl=\"v1\", link=\"m1_b\", way=\"up\", offset=26542080000},
 {vl=\"v1\", link=\"c1_a\", way=\"down\", offset=28180480000},
 {vl=\"v1\", link=\"c1_b\", way=\"down\", offset=28180480000},
]
";

/// The numbers of the worked network, with no device yet.
pub fn numbers() -> &'static str {
    before("device = [")
}

/// The worked network without its schedule.
pub fn silent() -> &'static str {
    before("vl = [")
}

/// What stands in the worked network before this text.
fn before(text: &str) -> &'static str {
    match WORKED.split_once(text) {
        Some((front, _)) => front,
        None => WORKED,
    }
}

/// A network of the same numbers and of these devices, those of these names below one switch of each channel.
pub fn star(alloc: Global, devices: &str, names: &[&str]) -> Result<String, AllocError> {
    let mut text = String::from_str(alloc, numbers())?;
    push_all(&mut text, &["device = [\n", devices, "]\nlink = [\n"])?;
    for channel in ["a", "b"] {
        for name in names {
            push_link(&mut text, name, channel)?;
        }
    }
    text.push_str("]\n")?;
    Ok(text)
}

// The line of a device's link below the switch of a channel.
fn push_link(text: &mut String, name: &str, channel: &str) -> Result<(), AllocError> {
    push_all(
        text,
        &[" {name=\"", name, "_", channel, "\", child=\"", name],
    )?;
    push_all(text, &["\", parent=\"c", channel, WIRE])
}

const WIRE: &str = "\", wire=32768000, jitter=1310720, hold=1310720000, speed=100},\n";

// These texts, one after another.
pub(crate) fn joined(alloc: Global, parts: &[&str]) -> Result<String, AllocError> {
    let mut text = String::new(alloc);
    push_all(&mut text, parts)?;
    Ok(text)
}

fn push_all(text: &mut String, parts: &[&str]) -> Result<(), AllocError> {
    for part in parts {
        text.push_str(part)?;
    }
    Ok(())
}
