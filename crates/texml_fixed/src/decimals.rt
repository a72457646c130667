//! Decimals and 65536ths.

ghost use Rattle.std.specs.Prelude.{◌≡◌, ◌≤◌, ◌<◌, ◌^◌, ◌*◌, ◌/◌, length, true};
ghost use Rattle.std.specs.Int.Digits.{number_from_digits};
ghost use Rattle.texml_fixed.specs.Decimals.{nearest, fraction, to_decimals, places, reads_back};

// How many decimals count.
const COUNTED: usize = 17;

// `a / b`, to the nearest whole number.
fn nearest(a: u64, b: u64) -> u64
    requires low { 0 < b }
    requires small { b < 2 ^ 32 }
    requires bounded { a < 2 ^ 60 }
    ensures { result ≡ nearest a b }
{
    (2 * a + b) / (2 * b)
}

/// Decimal digits behind a point, of which only 17 count, in 65536ths: to the nearest one.
pub(crate) fn fraction(digits: &[u8]) -> u64
    ensures value { result ≡ fraction digits.now }
    ensures bound { result < 2 ^ 25 }
{
    let counted = &digits[..digits.len().min(COUNTED)];
    halves(counted).div_ceil(2)
}

// Decimal digits behind a point, in halves of 65536ths, rounded down.
fn halves(digits: &[u8]) -> u64
    ensures value { result ≡ 131072 * number_from_digits 10 digits.now / 10 ^ length digits.now }
    ensures bound { result < 2 ^ 25 }
{
    match digits {
        [] => 0,
        [digit, behind @ ..] => (halves(behind) + 131072 * u64::from(*digit)) / 10,
    }
}

/// So many 65536ths, in units of this decimal place: to the nearest one.
pub(crate) fn to_decimals(place: usize, fraction: u32) -> u32
    requires place { place ≤ 5 }
    requires fraction { fraction < 65536 }
    ensures { result ≡ to_decimals place fraction }
{
    nearest(scale(place) * u64::from(fraction), 65536) as u32
}

/// The fewest decimals that read back as so many 65536ths, but at least one.
pub(crate) fn places(fraction: u32) -> usize
    requires { fraction < 65536 }
    ensures value { result ≡ places fraction }
    ensures bound { result ≤ 5 }
    ensures exact { reads_back fraction result ≡ true }
{
    for place in 1..5 {
        if reads_back(fraction, place) {
            return place;
        }
    }
    5
}

// So many decimals of a number of 65536ths read back as it.
fn reads_back(fraction: u32, place: usize) -> bool
    requires fraction { fraction < 65536 }
    requires place { place ≤ 5 }
    ensures { result ≡ reads_back fraction place }
{
    let decimals = to_decimals(place, fraction);
    nearest(65536 * u64::from(decimals), scale(place)) == u64::from(fraction)
}

// How many units of a decimal place are a whole one.
fn scale(place: usize) -> u64
    requires { place ≤ 5 }
    ensures value { result ≡ 10 ^ place }
    ensures some { 0 < result }
    ensures bound { result ≤ 100000 }
{
    10_u64.pow(place as u32)
}
