//! Why a number isn't made.

/// Why a number isn't made: it would pass a bound.
#[derive(Clone, Copy, Debug, PartialEq, Eq)]
pub enum NumFault {
    /// A number that is read would be above 2147483647.
    TooBig,
    /// A dimension that is read would be 16384pt or more.
    TooLarge,
    /// A result would pass its bound, or the divisor is 0.
    Overflow,
}
