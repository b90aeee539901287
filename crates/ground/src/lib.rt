// What every room stands on: the two axes of document 001, both counted in sub-ticks; and numbers as bytes.
#![tactic(auto)]

ghost use Rattle.std.specs.Prelude.{◌+◌, ◌-◌, ◌≤◌, ◌<◌, ◌^◌, ◌≡◌, length, take, drop};
ghost use Rattle.ground.specs.Bytes.{le, number, pasted};

// A point on the time axis. A key is an instant.
#[derive(Clone, Copy, PartialEq, Eq, PartialOrd, Ord)]
pub struct Instant(pub u64);

// A length on the axis of work.
#[derive(Clone, Copy, PartialEq, Eq, PartialOrd, Ord)]
pub struct Amount(pub u64);

// The instant that lies an amount after another.
pub fn later(at: Instant, by: Amount) -> Instant
    requires fits { at.0 + by.0 < 18446744073709551616 }
    ensures is { result ≡ record { 0 = at.0 + by.0 } }
{
    Instant(at.0 + by.0)
}

// The instant that lies an amount before another.
pub fn sooner(at: Instant, by: Amount) -> Instant
    requires fits { by.0 ≤ at.0 }
    ensures is { result ≡ record { 0 = at.0 - by.0 } }
{
    Instant(at.0 - by.0)
}

// The amount that fits between two instants.
pub fn between(from: Instant, to: Instant) -> Amount
    requires ordered { from.0 ≤ to.0 }
    ensures is { result ≡ record { 0 = to.0 - from.0 } }
{
    Amount(to.0 - from.0)
}

// A number's least bytes, as many as the width says, least byte first.
pub fn put(bytes: &mut [u8], at: usize, x: u64, width: usize)
    requires fits { at + width ≤ length bytes.old }
    ensures is { bytes.new ≡ pasted bytes.old at (le width x) }
{
    let mut rest = x;
    for byte in &mut bytes[at..at + width] {
        *byte = (rest % 256) as u8;
        rest /= 256;
    }
}

// The number that the bytes at a place spell, least byte first.
pub fn get(bytes: &[u8], at: usize, width: usize) -> u64
    requires fits { (at + width ≤ length bytes.now) × (width ≤ 8) }
    ensures is { (result ≡ number (take width (drop at bytes.now))) × (result < 256 ^ width) }
{
    let mut r: u64 = 0;
    for i in (0..width).rev() {
        r = 256 * r + u64::from(bytes[at + i]);
    }
    r
}
