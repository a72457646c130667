//! The values that keys have before anything is set.

ghost use Rattle.std.specs.Prelude.{◌≡◌, ◌<◌, ℕ, pos, slice_index};
ghost use Rattle.texml_scope.specs.Values.{number_in};
ghost use Rattle.texml_token.specs.declared.tokens.Token.{Token as TokenCode};
ghost use Rattle.texml_scope.specs.Starting.{starting, initial_category, initial_lower, initial_upper};

use crate::values::{Key, Meaning, Value};
use std::alloc::Global;
use texml_fixed::{Glue, Order, Scaled};
use texml_token::{Tokens, category};

/// The value of a key that was never set (The TeXbook, chapters 7, 8 and 24).
pub fn start(alloc: Global, key: Key) -> Value
    ensures { result ≡ starting key }
{
    match key {
        Key::Name(_) | Key::Active(_) => Value::Means(Meaning::Undefined),
        Key::Skip(_) => Value::Glue(NO_GLUE),
        Key::Toks(_) | Key::CurrentLabel => Value::List(Tokens::new(alloc)),
        Key::Counter(_) => Value::Absent,
        Key::Within(_) => Value::Parent(None),
        Key::Cat(_)
        | Key::Lower(_)
        | Key::Upper(_)
        | Key::Count(_)
        | Key::Dimen(_)
        | Key::EscapeChar
        | Key::EndLineChar => {
            match start_number(key) {
                Some(number) => Value::Number(number),
                None => Value::Absent,
            }
        }
    }
}

/// The number of a key that was never set, if it has one.
pub fn start_number(key: Key) -> Option<i32>
    ensures { result ≡ number_in {T = TokenCode} (starting key) }
{
    match key {
        Key::Cat(code) => Some(i32::from(category_of(code))),
        Key::Lower(code) => Some(lower_of(code)),
        Key::Upper(code) => Some(upper_of(code)),
        Key::Count(_) | Key::Dimen(_) => Some(0),
        Key::EscapeChar => Some(92),
        Key::EndLineChar => Some(13),
        _ => None,
    }
}

/// The categories of the characters below 128 at the start.
pub fn first_categories() -> [u8; 128]
    ensures { (code : ℕ) → code < 128 → slice_index result code ≡ initial_category code }
{
    let mut categories = [0; 128];
    for code in 0..128 {
        categories[code as usize] = category_of(code);
    }
    categories
}

const NO_GLUE: Glue = Glue {
    width: Scaled(0),
    stretch: Scaled(0),
    stretch_order: Order::Pt,
    shrink: Scaled(0),
    shrink_order: Order::Pt,
};

// The category of a character at the start.
fn category_of(code: u32) -> u8
    ensures { result ≡ initial_category code }
{
    match code {
        0x41..=0x5a | 0x61..=0x7a => category::LETTER,
        0x5c => category::ESCAPE,
        0x7b => category::BEGIN_GROUP,
        0x7d => category::END_GROUP,
        0x24 => category::MATH_SHIFT,
        0x26 => category::ALIGNMENT,
        0x0d => category::END_OF_LINE,
        0x23 => category::PARAMETER,
        0x5e => category::SUPERSCRIPT,
        0x5f => category::SUBSCRIPT,
        0x00 => category::IGNORED,
        0x20 | 0x09 => category::SPACE,
        0x7e => category::ACTIVE,
        0x25 => category::COMMENT,
        0x7f => category::INVALID,
        _ => category::OTHER,
    }
}

// The lowercase code of a character at the start.
fn lower_of(code: u32) -> i32
    ensures { result ≡ pos (initial_lower code) }
{
    match code {
        0x41..=0x5a => code as i32 + 32,
        0x61..=0x7a => code as i32,
        _ => 0,
    }
}

// The uppercase code of a character at the start.
fn upper_of(code: u32) -> i32
    ensures { result ≡ pos (initial_upper code) }
{
    match code {
        0x61..=0x7a => code as i32 - 32,
        0x41..=0x5a => code as i32,
        _ => 0,
    }
}
