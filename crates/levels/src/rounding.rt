//! A whole number as the nearest `f32`, worked out on whole numbers. What is public here serves the target sizes, which stay below 2^48.
ghost use Rattle.std.specs.Prelude.{◌≡◌, ◌-◌, ◌*◌, ◌^◌, ◌<◌, ◌≤◌};
ghost use Rattle.std.specs.Float.Ieee as Ieee;
ghost use Rattle.std.specs.Float.Ieee.Nearest.{closest};
ghost use Rattle.levels.specs.Rounding.{single, rounded};

use std::cmp::Ordering;

/// A number of at most 24 binary digits, times a power of two.
#[derive(Clone, Copy)]
pub struct Rounded {
    /// At most 2^24.
    pub digits: u32,
    /// The power of two.
    pub unit: u32,
}

/// The nearest `f32`. Both factors are exact, and so is their product.
pub fn nearest_f32(x: u64) -> f32
    requires { (0 < x) × (x < 2 ^ 48) }
    ensures { result ≡ single x }
{
    let r = round_to_24_bits(x);
    r.digits as f32 * r.unit as f32
}

/// The nearest number of 24 binary digits, at a tie the one whose last digit is even.
pub fn round_to_24_bits(x: u64) -> Rounded
    requires { x < 2 ^ 48 }
    ensures unit { result.unit ≡ 2 ^ (Ieee.size x - 24) }
    ensures value { result.digits * result.unit ≡ rounded x }
    ensures same { single (result.digits * result.unit) ≡ single x }
    ensures small { (result.digits ≤ 2 ^ 24) × (result.unit ≤ 2 ^ 24) × (0 < result.unit) × (0 < x → 0 < result.digits) }
{
    let unit = unit_of(x);
    let digits = nearest_multiple(x, unit);
    Rounded {
        digits: digits as u32,
        unit: unit as u32,
    }
}

// The weight of the last of the first 24 binary digits, and 1 if there are no more than 24.
fn unit_of(x: u64) -> u64
    ensures { result ≡ 2 ^ (Ieee.size x - 24) }
{
    1 << (64 - x.leading_zeros()).saturating_sub(24)
}

// x / unit to the nearest whole number, and at a tie to the even one.
fn nearest_multiple(x: u64, unit: u64) -> u64
    requires { (0 < unit) × ((unit ≤ 2 ^ 40) × (x < 2 ^ 63)) }
    ensures { result ≡ closest x unit }
{
    let whole = x / unit;
    let twice = x % unit * 2;
    match twice.cmp(&unit) {
        Ordering::Less => whole,
        Ordering::Equal => whole + whole % 2,
        Ordering::Greater => whole + 1,
    }
}
