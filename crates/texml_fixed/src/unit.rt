//! Units of dimensions, and the dimensions that are written in them.

ghost use Rattle.std.specs.Prelude.{◌≡◌, ◌<◌, ◌≤◌, ◌+◌, ◌*◌, ◌/◌, ◌^◌, pos, neg_ℤ, ◌≤ℤ◌, unsigned_abs, IfOk};
ghost use Rattle.texml_fixed.specs.Arithmetic.{IsWithin};
ghost use Rattle.texml_fixed.specs.Units.{ratio, measured, turned};
ghost use Rattle.texml_fixed.specs.Decimals.{fraction};

use crate::decimals::fraction;
use crate::fault::NumFault;
use crate::scaled::Scaled;

// The least amount that is too large: 16384pt.
const TOO_LARGE: u64 = 1_073_741_824;

/// A unit of dimensions (The TeXbook, chapter 10), or a dimension that stands for one.
#[derive(Clone, Copy, Debug, PartialEq, Eq)]
pub enum Unit {
    Pt,
    In,
    Pc,
    Cm,
    Mm,
    Bp,
    Dd,
    Cc,
    Sp,
    Em,
    Ex,
    Own(Scaled),
}

/// A whole number and the decimal digits behind its point, each 0 to 9, in a unit: to the greatest number of
/// scaled points whose amount isn't above it. Only the first 17 digits count, and those of `sp` don't count.
///
/// # Errors
///
/// `TooLarge` exactly where the amount would be 16384pt or more.
pub fn of_decimal(int: i32, digits: &[u8], unit: Unit) -> Result<Scaled, NumFault>
    requires { pos 0 ≤ℤ int }
    ensures value { result ≡ measured (unsigned_abs int) digits.now unit }
    ensures within { IfOk result (λ dimension. IsWithin dimension.0) }
{
    let whole = u64::from(int.unsigned_abs());
    let amount = match unit {
        Unit::Sp => whole,
        _ => converted(whole, fraction(digits), ratio(unit)),
    };
    if amount >= TOO_LARGE {
        return Err(NumFault::TooLarge);
    }
    Ok(Scaled(turned(unit, amount as i32)))
}

// So many points, and so many 65536ths of one, times a ratio, in scaled points.
fn converted(whole: u64, fraction: u64, ratio: (u64, u64)) -> u64
    requires whole { whole < 2 ^ 32 }
    requires fraction { fraction < 2 ^ 25 }
    requires numerator { ratio.0 < 2 ^ 32 }
    requires low { 0 < ratio.1 }
    requires high { ratio.1 ≤ 65536 }
    requires bounded { ratio.0 ≤ 32768 * ratio.1 }
    ensures { result ≡ (65536 * whole + fraction) * ratio.0 / ratio.1 }
{
    let (numerator, denominator) = ratio;
    let product = whole * numerator;
    let points = product / denominator;
    let rest = fraction * numerator + 65536 * (product % denominator);
    65536 * points + rest / denominator
}

// A unit in points, as a fraction.
fn ratio(unit: Unit) -> (u64, u64)
    ensures value { result ≡ ratio unit }
    ensures numerator { result.0 < 2 ^ 32 }
    ensures low { 0 < result.1 }
    ensures high { result.1 ≤ 65536 }
    ensures bounded { result.0 ≤ 32768 * result.1 }
{
    match unit {
        Unit::Pt => (1, 1),
        Unit::In => (7227, 100),
        Unit::Pc => (12, 1),
        Unit::Cm => (7227, 254),
        Unit::Mm => (7227, 2540),
        Unit::Bp => (7227, 7200),
        Unit::Dd => (1238, 1157),
        Unit::Cc => (14856, 1157),
        Unit::Sp => (1, 65536),
        Unit::Em => (655_360, 65536),
        Unit::Ex => (282_168, 65536),
        Unit::Own(Scaled(own)) => (u64::from(own.unsigned_abs()), 65536),
    }
}

// So many scaled points, with the sign of a unit.
fn turned(unit: Unit, amount: i32) -> i32
    requires { pos 0 ≤ℤ amount }
    ensures value { result ≡ turned unit (unsigned_abs amount) }
    ensures within { IsWithin result }
{
    match unit {
        Unit::Own(Scaled(own)) if own < 0 => -amount,
        _ => amount,
    }
}
