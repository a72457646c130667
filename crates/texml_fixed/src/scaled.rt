//! Dimensions, and how they are printed.

ghost use Rattle.std.specs.Prelude.{◌≡◌, ◌≤◌, ◌%◌, take, drop, length, unsigned_abs, neg_ℤ};
ghost use Rattle.texml_fixed.specs.Arithmetic.{IsWithin};
ghost use Rattle.texml_fixed.specs.Printing.{printed, decimals};
ghost use Rattle.texml_fixed.specs.Decimals.{fraction};

use crate::decimals::{places, to_decimals};
use crate::digits::{put_byte, put_decimal, put_last_digits, put_sign};

/// A dimension, in scaled points: a point is 65536 of them.
#[derive(Clone, Copy, Debug, PartialEq, Eq, PartialOrd, Ord)]
pub struct Scaled(pub i32);

impl Scaled {
    /// The dimension with the other sign.
    pub fn negated(self) -> Scaled
        requires { IsWithin self.0 }
        ensures value { result ≡ record { 0 = neg_ℤ self.0 } }
        ensures within { IsWithin result.0 }
    {
        Scaled(-self.0)
    }

    /// Prints it in points, without the unit: the bytes from the start of `into` up to the answer. A sign only
    /// where it is negative, at least one digit before the point and one behind it, and behind it the fewest
    /// that read back as the same number of scaled points.
    pub fn print(self, into: &mut [u8; 16]) -> usize
        ensures text { take result into.new ≡ printed self.0 }
        ensures rest { drop result into.new ≡ drop result into.old }
        ensures length { result ≡ length (printed self.0) }
        ensures bound { result ≤ 16 }
        ensures exact { fraction (decimals (unsigned_abs self.0 % 65536)) ≡ unsigned_abs self.0 % 65536 }
    {
        let amount = self.0.unsigned_abs();
        let start = put_sign(self.0 < 0, into);
        let point = put_decimal(amount / 65536, into, start);
        let behind = put_byte(b'.', into, point);
        let part = amount % 65536;
        let count = places(part);
        put_last_digits(to_decimals(count, part), count, into, behind)
    }
}
