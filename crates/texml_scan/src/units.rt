//! What dimensions begin with, and their units.

ghost use Rattle.std.specs.Prelude.{◌≡◌, ◌≤◌};
ghost use Rattle.texml_scan.specs.Measure.{opening_of, is_point, letter_of, begins_true_unit, unit_of, mark_of, mark_letter, with_sign, fil_turn, small};
ghost use Rattle.texml_fixed.specs.Units.{measured};

use crate::characters::{
    BACKQUOTE, CAPITAL_A, CAPITAL_Z, COMMA, DOUBLE_QUOTE, NINE, POINT, SINGLE_QUOTE, SMALL_A,
    SMALL_Z, ZERO,
};
use crate::int::signed;
use crate::keyword::is_letter;
use crate::looks::{Look, Quantity, Turn, is_space};
use crate::steps::ScanFault;
use texml_fixed::{Order, Scaled, Unit, of_decimal};
use texml_token::category::OTHER;

/// What a dimension begins with, behind its signs.
#[derive(Clone, Copy, Debug, PartialEq, Eq)]
pub(crate) enum Opening {
    Digit(u8),
    Point,
    Number,
    Factor(i32),
    Length(Scaled),
    Unread,
    Other,
}

/// What a unit begins with.
#[derive(Clone, Copy, Debug, PartialEq, Eq)]
pub(crate) enum Mark {
    True,
    Fil,
    Letter(u8),
    Own(Scaled),
    Unread,
    Other,
}

// What a dimension begins with.
pub(crate) fn opening_of(look: Look) -> Opening
    ensures { result ≡ opening_of look }
{
    match look {
        Look::End => Opening::Other,
        Look::Character(code, category) => {
            if category != OTHER {
                Opening::Other
            } else if code == POINT || code == COMMA {
                Opening::Point
            } else if code == SINGLE_QUOTE || code == DOUBLE_QUOTE || code == BACKQUOTE {
                Opening::Number
            } else if ZERO <= code && code <= NINE {
                Opening::Digit((code - ZERO) as u8)
            } else {
                Opening::Other
            }
        }
        Look::Other(_, Quantity::Plain) => Opening::Other,
        Look::Other(_, Quantity::Unread) => Opening::Unread,
        Look::Other(_, Quantity::Int(value)) => Opening::Factor(value),
        Look::Other(_, Quantity::Dimen(value)) => Opening::Length(value),
        Look::Other(_, Quantity::Glue(value)) => Opening::Length(value.width),
    }
}

// A decimal point, or a comma.
pub(crate) fn is_point(look: Look) -> bool
    ensures { result ≡ is_point look }
{
    match look {
        Look::Character(code, category) => category == OTHER && (code == POINT || code == COMMA),
        _ => false,
    }
}

// An ASCII letter in either case, as the small one; 0 where it is none.
fn small(code: u32) -> u8
    ensures { result ≡ small code }
{
    if SMALL_A <= code && code <= SMALL_Z {
        code as u8
    } else if CAPITAL_A <= code && code <= CAPITAL_Z {
        code as u8 + 32
    } else {
        0
    }
}

// A look as a small letter; 0 where it is none.
pub(crate) fn letter_of(look: Look) -> u8
    ensures { result ≡ letter_of look }
{
    match look {
        Look::Character(code, _) => small(code),
        _ => 0,
    }
}

// Whether a unit that may stand behind `true` begins with this letter.
pub(crate) fn begins_true_unit(letter: u8) -> bool
    ensures { result ≡ begins_true_unit letter }
{
    matches!(letter, b'p' | b'i' | b'c' | b'm' | b'b' | b'd' | b's')
}

// The unit of two letters.
pub(crate) fn unit_of(first: u8, second: u8) -> Option<Unit>
    ensures { result ≡ unit_of first second }
{
    match (first, second) {
        (b'e', b'm') => Some(Unit::Em),
        (b'e', b'x') => Some(Unit::Ex),
        (b'p', b't') => Some(Unit::Pt),
        (b'i', b'n') => Some(Unit::In),
        (b'p', b'c') => Some(Unit::Pc),
        (b'c', b'm') => Some(Unit::Cm),
        (b'm', b'm') => Some(Unit::Mm),
        (b'b', b'p') => Some(Unit::Bp),
        (b'd', b'd') => Some(Unit::Dd),
        (b'c', b'c') => Some(Unit::Cc),
        (b's', b'p') => Some(Unit::Sp),
        _ => None,
    }
}

// What a unit begins with.
pub(crate) fn mark_of(fil: bool, look: Look) -> Mark
    ensures { result ≡ mark_of fil look }
{
    match look {
        Look::End => Mark::Other,
        Look::Character(code, _) => mark_letter(fil, small(code)),
        Look::Other(_, Quantity::Plain) => Mark::Other,
        Look::Other(_, Quantity::Unread) => Mark::Unread,
        Look::Other(_, Quantity::Int(value)) => Mark::Own(Scaled(value)),
        Look::Other(_, Quantity::Dimen(value)) => Mark::Own(value),
        Look::Other(_, Quantity::Glue(value)) => Mark::Own(value.width),
    }
}

// What a unit begins with, by its first letter.
fn mark_letter(fil: bool, letter: u8) -> Mark
    ensures { result ≡ mark_letter fil letter }
{
    if letter == b't' {
        Mark::True
    } else if fil && letter == b'f' {
        Mark::Fil
    } else if letter == b'e' || begins_true_unit(letter) {
        Mark::Letter(letter)
    } else {
        Mark::Other
    }
}

// A further l behind fil.
pub(crate) fn fil_turn(order: Order, look: Look) -> Turn<Order>
    ensures { result ≡ fil_turn order look }
{
    if is_space(look) {
        Turn::On(order)
    } else if is_letter(b'l', look) {
        match order {
            Order::Pt => Turn::On(Order::Fil),
            Order::Fil => Turn::On(Order::Fill),
            Order::Fill => Turn::On(Order::Filll),
            Order::Filll => Turn::Bad(ScanFault::IllegalUnit),
        }
    } else {
        Turn::Stop
    }
}

// A number without sign and its digits behind the point, in a unit, with a sign.
pub(crate) fn in_unit(
    negative: bool,
    whole: u32,
    decimals: &[u8],
    unit: Unit,
) -> Result<Scaled, ScanFault>
    requires { whole ≤ 2147483647 }
    ensures { result ≡ with_sign negative (measured whole decimals.now unit) }
{
    match of_decimal(whole as i32, decimals, unit) {
        Ok(value) => Ok(Scaled(signed(negative, value.0))),
        Err(_) => Err(ScanFault::TooLarge),
    }
}
