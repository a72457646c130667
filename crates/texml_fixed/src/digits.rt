//! Bytes and digits, put into a text of fixed length one behind the other.

ghost use Rattle.std.specs.Prelude.{◌≡◌, ◌≤◌, ◌<◌, ◌+◌, ◌^◌, [], ◌∷◌, map, length};
ghost use Rattle.std.specs.Fmt.{decimal, sign_text};
ghost use Rattle.texml_fixed.specs.Decimals.{last_digits};
ghost use Rattle.texml_fixed.specs.Putting.{Puts};

/// Puts a minus sign into the text where it is wanted, and answers the place behind it.
pub(crate) fn put_sign(negative: bool, into: &mut [u8; 16]) -> usize
    ensures { Puts into.old into.new 0 result (sign_text negative) }
{
    if negative { put_byte(b'-', into, 0) } else { 0 }
}

/// Puts a byte into the text at a place, and answers the place behind it.
pub(crate) fn put_byte(byte: u8, into: &mut [u8; 16], at: usize) -> usize
    requires { at < 16 }
    ensures { Puts into.old into.new at result (byte ∷ []) }
{
    into[at] = byte;
    at + 1
}

/// Puts a number into the text, from a place on, and answers the place behind it.
pub(crate) fn put_decimal(number: u32, into: &mut [u8; 16], at: usize) -> usize
    requires { at + length (decimal number) ≤ 16 }
    ensures { Puts into.old into.new at result (decimal number) }
{
    if number < 10 {
        return put_byte(b'0' + number as u8, into, at);
    }
    let last = put_decimal(number / 10, into, at);
    put_byte(b'0' + (number % 10) as u8, into, last)
}

/// Puts the last so many digits of a number into the text, from a place on, and answers the place behind them.
pub(crate) fn put_last_digits(number: u32, count: usize, into: &mut [u8; 16], at: usize) -> usize
    requires { at + count ≤ 16 }
    ensures { Puts into.old into.new at result (map (λ d. 48 + d) (last_digits count number)) }
{
    if count == 0 {
        return at;
    }
    let last = put_last_digits(number / 10, count - 1, into, at);
    put_byte(b'0' + (number % 10) as u8, into, last)
}
