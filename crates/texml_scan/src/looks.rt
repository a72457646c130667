//! What is looked at, and what it may begin.

ghost use Rattle.std.specs.Prelude.{◌≡◌};
ghost use Rattle.texml_scan.specs.Looks.{is_space, digit_of, sign_turn, start_of, code_of};

use crate::characters::{
    BACKQUOTE, CAPITAL_A, CAPITAL_F, DOUBLE_QUOTE, MINUS_SIGN, NINE, PLUS_SIGN, SINGLE_QUOTE, ZERO,
};
use crate::steps::ScanFault;
use texml_fixed::{Glue, Scaled};
use texml_token::category::{LETTER, OTHER, SPACE};

/// The internal quantity that was read for a token, where one was asked for.
#[derive(Clone, Copy, Debug, PartialEq, Eq)]
pub enum Held {
    Nothing,
    Int(i32),
    Dimen(Scaled),
    Glue(Glue),
}

/// A token as a quantity: it begins none, one that isn't read yet, or one that is.
#[derive(Clone, Copy, Debug, PartialEq, Eq)]
pub enum Quantity {
    Plain,
    Unread,
    Int(i32),
    Dimen(Scaled),
    Glue(Glue),
}

/// What is looked at: the end, a character with its category, or another token: with the code that a backquote
/// before it gives, where it gives one, and as a quantity.
#[derive(Clone, Copy, Debug, PartialEq, Eq)]
pub enum Look {
    End,
    Character(u32, u8),
    Other(Option<u32>, Quantity),
}

/// What a number begins with.
#[derive(Clone, Copy, Debug, PartialEq, Eq)]
pub(crate) enum Start {
    Digit(u8),
    Radix(u8),
    Quote,
    Known(i32),
    Unread,
    Other,
}

/// What a repetition does with what is looked at: it takes it and goes on, it leaves it, or it is a fault.
#[derive(Clone, Copy, Debug, PartialEq, Eq)]
pub enum Turn<S> {
    On(S),
    Stop,
    Bad(ScanFault),
}

// A space.
pub(crate) fn is_space(look: Look) -> bool
    ensures { result ≡ is_space look }
{
    match look {
        Look::Character(_, category) => category == SPACE,
        _ => false,
    }
}

// The value of a digit to this radix.
pub(crate) fn digit_of(radix: u8, look: Look) -> Option<u8>
    ensures { result ≡ digit_of radix look }
{
    match look {
        Look::Character(code, category) => {
            if category == OTHER && ZERO <= code && code <= NINE && code - ZERO < u32::from(radix) {
                Some((code - ZERO) as u8)
            } else if radix == 16
                && (category == LETTER || category == OTHER)
                && CAPITAL_A <= code
                && code <= CAPITAL_F
            {
                Some((code - CAPITAL_A + 10) as u8)
            } else {
                None
            }
        }
        _ => None,
    }
}

// Signs and spaces: whether they are negative so far.
pub(crate) fn sign_turn(negative: bool, look: Look) -> Turn<bool>
    ensures { result ≡ sign_turn negative look }
{
    match look {
        Look::Character(code, category) => {
            if category == SPACE || (category == OTHER && code == PLUS_SIGN) {
                Turn::On(negative)
            } else if category == OTHER && code == MINUS_SIGN {
                Turn::On(!negative)
            } else {
                Turn::Stop
            }
        }
        _ => Turn::Stop,
    }
}

// What a number begins with.
pub(crate) fn start_of(look: Look) -> Start
    ensures { result ≡ start_of look }
{
    match look {
        Look::End => Start::Other,
        Look::Character(code, category) => {
            if category != OTHER {
                Start::Other
            } else if code == SINGLE_QUOTE {
                Start::Radix(8)
            } else if code == DOUBLE_QUOTE {
                Start::Radix(16)
            } else if code == BACKQUOTE {
                Start::Quote
            } else if ZERO <= code && code <= NINE {
                Start::Digit((code - ZERO) as u8)
            } else {
                Start::Other
            }
        }
        Look::Other(_, Quantity::Plain) => Start::Other,
        Look::Other(_, Quantity::Unread) => Start::Unread,
        Look::Other(_, Quantity::Int(value)) => Start::Known(value),
        Look::Other(_, Quantity::Dimen(value)) => Start::Known(value.0),
        Look::Other(_, Quantity::Glue(value)) => Start::Known(value.width.0),
    }
}

// The code behind a backquote.
pub(crate) fn code_of(look: Look) -> Option<u32>
    ensures { result ≡ code_of look }
{
    match look {
        Look::Character(code, _) => Some(code),
        Look::Other(code, _) => code,
        Look::End => None,
    }
}
