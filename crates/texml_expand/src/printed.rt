//! What `\the`, `\number`, `\romannumeral`, `\string` and `\jobname` write: characters of category 12, but spaces of category 10.

ghost use Rattle.std.specs.Prelude.{◌≡◌, ◌++◌, ◌<◌, ℕ, IfOk, OnOk, replicate};
ghost use Rattle.std.specs.Fmt.{signed_decimal};
ghost use Rattle.texml_token.specs.Numbers.{Table, token_at, tokens_at, TokenWithin, TokensWithin};
ghost use Rattle.texml_expand.specs.Printed.{printed_char as spec_printed_char, printed_tokens, printed_measure, printed_dimension as spec_printed_dimension, printed_glue as spec_printed_glue, printed_order, printed_amount, roman, roman_digit, roman_text};

use std::alloc::{AllocError, Global};
use texml_fixed::{Glue, Order, Scaled};
use texml_token::{Bytes, Token, Tokens, category};

/// A number.
pub(crate) fn printed_number(alloc: Global, value: i32) -> Result<Tokens, AllocError>
    ensures is { IfOk result (λ list. (texts : Table) → tokens_at texts list ≡ printed_tokens (signed_decimal value)) }
    ensures within { IfOk result (λ list. (count : ℕ) → TokensWithin count list) }
{
    let text = format!(in alloc; "{value}")?;
    tokens_of(alloc, text.as_bytes())
}

/// A number in roman numerals, of which a number below 1 has none.
pub(crate) fn printed_roman(alloc: Global, value: i32) -> Result<Tokens, AllocError>
    ensures is { IfOk result (λ list. (texts : Table) → tokens_at texts list ≡ printed_tokens (roman_text value)) }
    ensures within { IfOk result (λ list. (count : ℕ) → TokensWithin count list) }
{
    if value < 0 {
        return Ok(Tokens::new(alloc));
    }
    let mut text = Bytes::new(alloc);
    put_roman(&mut text, value.unsigned_abs())?;
    tokens_of(alloc, text.as_slice())
}

/// A dimension, in points.
pub(crate) fn printed_dimension(alloc: Global, value: Scaled) -> Result<Tokens, AllocError>
    ensures is { IfOk result (λ list. (texts : Table) → tokens_at texts list ≡ printed_tokens (spec_printed_dimension value)) }
    ensures within { IfOk result (λ list. (count : ℕ) → TokensWithin count list) }
{
    let mut text = Bytes::new(alloc);
    put_measure(&mut text, value, Order::Pt)?;
    tokens_of(alloc, text.as_slice())
}

/// Glue: its width, and what it may stretch and shrink by unless that is 0.
pub(crate) fn printed_glue(alloc: Global, value: Glue) -> Result<Tokens, AllocError>
    ensures is { IfOk result (λ list. (texts : Table) → tokens_at texts list ≡ printed_tokens (spec_printed_glue value)) }
    ensures within { IfOk result (λ list. (count : ℕ) → TokensWithin count list) }
{
    let mut text = Bytes::new(alloc);
    put_measure(&mut text, value.width, Order::Pt)?;
    put_amount(&mut text, b" plus ", value.stretch, value.stretch_order)?;
    put_amount(&mut text, b" minus ", value.shrink, value.shrink_order)?;
    tokens_of(alloc, text.as_slice())
}

/// A text.
pub(crate) fn printed_text(alloc: Global, text: &[char]) -> Result<Tokens, AllocError>
    ensures is { IfOk result (λ list. (texts : Table) → tokens_at texts list ≡ printed_tokens text.now) }
    ensures within { IfOk result (λ list. (count : ℕ) → TokensWithin count list) }
{
    let mut list = Tokens::new(alloc);
    for c in text {
        list.push(printed_char(*c))?;
    }
    Ok(list)
}

// The characters of a text in ASCII.
fn tokens_of(alloc: Global, text: &[u8]) -> Result<Tokens, AllocError>
    ensures is { IfOk result (λ list. (texts : Table) → tokens_at texts list ≡ printed_tokens text.now) }
    ensures within { IfOk result (λ list. (count : ℕ) → TokensWithin count list) }
{
    let mut list = Tokens::new(alloc);
    for code in text {
        list.push(printed_char(char::from(*code)))?;
    }
    Ok(list)
}

// A character of a text.
fn printed_char(c: char) -> Token
    ensures is { (texts : Table) → token_at texts result ≡ spec_printed_char c }
    ensures within { (count : ℕ) → TokenWithin count result }
{
    if c == ' ' {
        Token::Char(u32::from(c), category::SPACE)
    } else {
        Token::Char(u32::from(c), category::OTHER)
    }
}

// A measure with its unit.
fn put_measure(text: &mut Bytes, value: Scaled, order: Order) -> Result<(), AllocError>
    ensures { OnOk result (text.new ≡ text.old ++ printed_measure value order) }
{
    let mut digits = [0u8; 16];
    let count = value.print(&mut digits);
    text.extend(&digits[..count])?;
    text.extend(unit_of(order))
}

// An amount behind its word, unless it is 0.
fn put_amount(text: &mut Bytes, word: &[u8], value: Scaled, order: Order) -> Result<(), AllocError>
    ensures { OnOk result (text.new ≡ text.old ++ printed_amount word.now value order) }
{
    if value.0 == 0 {
        return Ok(());
    }
    text.extend(word)?;
    put_measure(text, value, order)
}

// The unit of an order.
fn unit_of(order: Order) -> &'static [u8]
    ensures { result.now ≡ printed_order order }
{
    match order {
        Order::Pt => b"pt",
        Order::Fil => b"fil",
        Order::Fill => b"fill",
        Order::Filll => b"filll",
    }
}

// A roman numeral.
fn put_roman(text: &mut Bytes, number: u32) -> Result<(), AllocError>
    ensures { OnOk result (text.new ≡ text.old ++ roman number) }
{
    put_thousands(text, number / 1000)?;
    put_digit(text, (b'c', b'd', b'm'), number / 100 % 10)?;
    put_digit(text, (b'x', b'l', b'c'), number / 10 % 10)?;
    put_digit(text, (b'i', b'v', b'x'), number % 10)
}

// An m for each thousand.
fn put_thousands(text: &mut Bytes, count: u32) -> Result<(), AllocError>
    ensures { OnOk result (text.new ≡ text.old ++ replicate count 109) }
{
    for _ in 0..count {
        text.push(b'm')?;
    }
    Ok(())
}

// A digit of a roman numeral, by the letters for 1, 5 and 10.
fn put_digit(text: &mut Bytes, letters: (u8, u8, u8), digit: u32) -> Result<(), AllocError>
    requires { digit < 10 }
    ensures { OnOk result (text.new ≡ text.old ++ roman_digit letters.0 letters.1 letters.2 digit) }
{
    let (one, five, ten) = letters;
    match digit {
        1 => text.extend(&[one]),
        2 => text.extend(&[one, one]),
        3 => text.extend(&[one, one, one]),
        4 => text.extend(&[one, five]),
        5 => text.extend(&[five]),
        6 => text.extend(&[five, one]),
        7 => text.extend(&[five, one, one]),
        8 => text.extend(&[five, one, one, one]),
        9 => text.extend(&[one, ten]),
        _ => Ok(()),
    }
}
