//! Sums, products and quotients of numbers, within their bounds.

ghost use Rattle.std.specs.Prelude.{◌≡◌, ◌≤◌, ◌^◌, ◌+ℤ◌, ◌*ℤ◌, IfOk, unsigned_abs};
ghost use Rattle.texml_fixed.specs.Arithmetic.{bounded, divided, IsWithin};

use crate::fault::NumFault;

/// The greatest number, without its sign.
pub const MAX_NUMBER: i32 = 2_147_483_647;

/// The greatest dimension that can be written, in scaled points and without its sign: one less than 16384pt.
pub const MAX_DIMENSION: i32 = 1_073_741_823;

// The bounds are promised to users.
const _: () = prove!(MAX_NUMBER == 2_147_483_647);

const _: () = prove!(MAX_DIMENSION == 1_073_741_823);

/// The sum.
///
/// # Errors
///
/// `Overflow` exactly where it passes ±2147483647.
pub fn add(a: i32, b: i32) -> Result<i32, NumFault>
    ensures value { result ≡ bounded NumFault.Overflow MAX_NUMBER (a +ℤ b) }
    ensures within { IfOk result IsWithin }
{
    within(NumFault::Overflow, MAX_NUMBER, i64::from(a) + i64::from(b))
}

/// The product.
///
/// # Errors
///
/// `Overflow` exactly where it passes ±`bound`.
pub fn times(a: i32, n: i32, bound: i32) -> Result<i32, NumFault>
    ensures value { result ≡ bounded NumFault.Overflow bound (a *ℤ n) }
    ensures within { IfOk result IsWithin }
{
    within(NumFault::Overflow, bound, product(a, n))
}

/// The quotient, rounded towards 0.
///
/// # Errors
///
/// `Overflow` exactly where `n` is 0, or the quotient passes ±2147483647.
pub fn over(a: i32, n: i32) -> Result<i32, NumFault>
    ensures value { result ≡ divided a n }
    ensures within { IfOk result IsWithin }
{
    if n == 0 {
        return Err(NumFault::Overflow);
    }
    within(NumFault::Overflow, MAX_NUMBER, i64::from(a) / i64::from(n))
}

/// A number with one more digit behind it.
///
/// # Errors
///
/// `TooBig` exactly where it passes ±2147483647.
pub fn add_digit(a: i32, radix: i32, digit: i32) -> Result<i32, NumFault>
    ensures value { result ≡ bounded NumFault.TooBig MAX_NUMBER (a *ℤ radix +ℤ digit) }
    ensures within { IfOk result IsWithin }
{
    within(
        NumFault::TooBig,
        MAX_NUMBER,
        product(a, radix) + i64::from(digit),
    )
}

// The product, which no bound cuts.
fn product(a: i32, b: i32) -> i64
    ensures value { result ≡ a *ℤ b }
    ensures bound { unsigned_abs result ≤ 2 ^ 62 }
{
    i64::from(a) * i64::from(b)
}

// A value that doesn't pass the bound, or this fault.
fn within(fault: NumFault, bound: i32, value: i64) -> Result<i32, NumFault>
    ensures value { result ≡ bounded fault bound value }
    ensures within { IfOk result IsWithin }
{
    let bound = i64::from(bound);
    if -bound <= value && value <= bound {
        Ok(value as i32)
    } else {
        Err(fault)
    }
}
