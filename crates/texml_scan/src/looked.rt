//! The look of a token, from what it means and what is held for it.

ghost use Rattle.std.specs.Prelude.{◌≡◌, length};
ghost use Rattle.texml_token.specs.Numbers.{TokenWithin, token_at};
ghost use Rattle.texml_scan.specs.Looked.{look_of, begins_quantity, quantity_of, one_character};

use crate::looks::{Held, Look, Quantity};
use texml_scope::builtins::{
    CATCODE, COUNT, DIMEN, ENDLINECHAR, ESCAPECHAR, LCCODE, SKIP, UCCODE, VALUE,
};
use texml_scope::{Key, Meaning};
use texml_token::{Names, Token};

/// A token as it is looked at, by what it means and what is held for it.
///
/// `held` is `Nothing` but where a scanner has asked for the quantity that this token begins: then it is that one.
pub fn looked_at(names: &Names, token: Token, meaning: &Meaning, held: Held) -> Look
    requires { TokenWithin (length names.now) token }
    ensures { result ≡ look_of (token_at names.now token) meaning.now held }
{
    let quantity = quantity_of(meaning, held);
    match token {
        Token::Char(code, category) => Look::Character(code, category),
        Token::Active(code) => Look::Other(Some(code), quantity),
        Token::Named(name) => Look::Other(one_character(names.text(name)), quantity),
        Token::Param(_) => unreachable!(),
    }
}

// The character of a text that has just one.
fn one_character(text: &[u32]) -> Option<u32>
    ensures { result ≡ one_character text.now }
{
    match text {
        [code] => Some(*code),
        _ => None,
    }
}

// What is held, or whether a meaning begins a quantity.
fn quantity_of(meaning: &Meaning, held: Held) -> Quantity
    ensures { result ≡ quantity_of meaning.now held }
{
    match held {
        Held::Nothing if begins_quantity(meaning) => Quantity::Unread,
        Held::Nothing => Quantity::Plain,
        Held::Int(value) => Quantity::Int(value),
        Held::Dimen(value) => Quantity::Dimen(value),
        Held::Glue(value) => Quantity::Glue(value),
    }
}

// Whether a meaning begins an internal number, dimension or glue. A list of tokens is none.
fn begins_quantity(meaning: &Meaning) -> bool
    ensures { result ≡ begins_quantity meaning.now }
{
    match meaning {
        Meaning::Number(_) => true,
        Meaning::Quantity(Key::Toks(_)) => false,
        Meaning::Quantity(_) => true,
        Meaning::Builtin(place) => matches!(
            *place,
            CATCODE | LCCODE | UCCODE | ESCAPECHAR | ENDLINECHAR | COUNT | DIMEN | SKIP | VALUE
        ),
        _ => false,
    }
}
