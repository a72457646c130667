//! How tokens are written as characters.

ghost use Rattle.std.specs.Prelude.{◌≡◌, [], ◌∷◌, ◌++◌, if◌then◌else◌, length, encode_utf8_all, OnOk, OnErr};
ghost use Rattle.std.specs.List.{All};
ghost use Rattle.std.specs.Char.{IsScalar, encode_utf8};
ghost use Rattle.texml_token.specs.Spelling.{escape_codes, name_end, shown, shown_code, shown_name, shown_token, spelled, spelled_name};
ghost use Rattle.texml_token.specs.Numbers.{token_at, tokens_at, TokenWithin, TokensWithin};

use crate::bytes::Bytes;
use crate::names::Names;
use crate::tokens::{Token, Tokens};
use std::alloc::AllocError;

/// Appends how a token is spelled, in UTF-8, as `\string` spells it (The TeXbook, chapter 7): a
/// character itself, also an active one; a name with the escape character before it, where `escape` is
/// the code of a character. The empty name is the words `csname` and `endcsname`, the escape character
/// before both. The fixed `\relax` is spelled as the name `relax`.
///
/// # Errors
///
/// `AllocError` where there is no memory. Then nothing is appended.
pub fn spell(token: Token, escape: i32, names: &Names, into: &mut Bytes) -> Result<(), AllocError>
    requires { TokenWithin (length names.now) token }
    ensures ok { OnOk result (into.new ≡ into.old ++ encode_utf8_all (spelled escape (token_at names.now token))) }
    ensures err { OnErr result (into.new ≡ into.old) }
{
    let mut text = into.aside();
    match token {
        Token::Char(code, _) => push_code(code, &mut text)?,
        Token::Active(code) => push_code(code, &mut text)?,
        Token::Named(name) => spell_name(names.text(name), escape, &mut text)?,
        Token::Param(_) => unreachable!(),
    }
    into.extend(text.as_slice())
}

/// Appends how a list of tokens is shown, in UTF-8 (The TeXbook, chapters 7 and 8): each character
/// itself, but a control character as `^^` and the character whose code is greater or less by 64,
/// in names too. Each name has `\` before it, and a space after it where it is longer than one
/// character or is one ASCII letter.
///
/// # Errors
///
/// `AllocError` where there is no memory. Then nothing is appended.
pub fn show(list: &Tokens, names: &Names, into: &mut Bytes) -> Result<(), AllocError>
    requires { TokensWithin (length names.now) list.now }
    ensures ok { OnOk result (into.new ≡ into.old ++ encode_utf8_all (shown (tokens_at names.now list.now))) }
    ensures err { OnErr result (into.new ≡ into.old) }
{
    let mut text = into.aside();
    for token in list.as_slice() {
        show_token(*token, names, &mut text)?;
    }
    into.extend(text.as_slice())
}

// Appends a character.
fn push_code(code: u32, into: &mut Bytes) -> Result<(), AllocError>
    requires { IsScalar code }
    ensures { OnOk result (into.new ≡ into.old ++ encode_utf8 code) }
{
    match char::from_u32(code) {
        None => unreachable!(),
        Some(character) => {
            let mut buffer = [0; 4];
            into.extend(character.encode_utf8(&mut buffer).as_bytes())
        }
    }
}

// Appends the escape character, if there is one.
fn push_escape(escape: i32, into: &mut Bytes) -> Result<(), AllocError>
    ensures { OnOk result (into.new ≡ into.old ++ encode_utf8_all (escape_codes escape)) }
{
    if escape < 0 {
        return Ok(());
    }
    match char::from_u32(escape as u32) {
        None => Ok(()),
        Some(character) => push_code(character as u32, into),
    }
}

// Appends how a name is spelled.
fn spell_name(text: &[u32], escape: i32, into: &mut Bytes) -> Result<(), AllocError>
    requires { All IsScalar text.now }
    ensures { OnOk result (into.new ≡ into.old ++ encode_utf8_all (spelled_name escape text.now)) }
{
    push_escape(escape, into)?;
    if text.is_empty() {
        into.extend(b"csname")?;
        push_escape(escape, into)?;
        return into.extend(b"endcsname");
    }
    for code in text {
        push_code(*code, into)?;
    }
    Ok(())
}

// Appends how a token is shown.
fn show_token(token: Token, names: &Names, into: &mut Bytes) -> Result<(), AllocError>
    requires { TokenWithin (length names.now) token }
    ensures { OnOk result (into.new ≡ into.old ++ encode_utf8_all (shown_token (token_at names.now token))) }
{
    match token {
        Token::Char(code, _) => show_code(code, into),
        Token::Active(code) => show_code(code, into),
        Token::Named(name) => show_name(names.text(name), into),
        Token::Param(_) => unreachable!(),
    }
}

// Appends how a character is shown.
fn show_code(code: u32, into: &mut Bytes) -> Result<(), AllocError>
    requires { IsScalar code }
    ensures { OnOk result (into.new ≡ into.old ++ encode_utf8_all (shown_code code)) }
{
    if code < 32 {
        into.extend(b"^^")?;
        return into.push(code as u8 + 64);
    }
    if code == 127 {
        return into.extend(b"^^?");
    }
    push_code(code, into)
}

// Appends how a name is shown.
fn show_name(text: &[u32], into: &mut Bytes) -> Result<(), AllocError>
    requires { All IsScalar text.now }
    ensures { OnOk result (into.new ≡ into.old ++ encode_utf8_all (shown_name text.now)) }
{
    into.push(b'\\')?;
    for code in text {
        show_code(*code, into)?;
    }
    if ends_with_space(text) {
        into.push(b' ')?;
    }
    Ok(())
}

// Whether a shown name has a space after it.
fn ends_with_space(text: &[u32]) -> bool
    ensures { name_end text.now ≡ (if result then 32 ∷ [] else []) }
{
    match text {
        [] => false,
        [code] => char::from_u32(*code).is_some_and(|character| character.is_ascii_alphabetic()),
        _ => true,
    }
}
