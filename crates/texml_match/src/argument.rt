//! What the tokens of an argument decide.

ghost use Rattle.std.specs.Prelude.{◌≡◌, ◌&&◌, not, ℕ, length, Some, IfSome, option_map};
ghost use Rattle.std.specs.List.{list_any};
ghost use Rattle.texml_token.specs.Numbers.{Table, token_at, tokens_at, Numbered, TokenWithin, TokensWithin};
ghost use Rattle.texml_match.specs.Groups.{open_behind};
ghost use Rattle.texml_match.specs.Arguments.{undelimited, delimited, argument_in, is_par, lets_par};

use crate::groups::{inside, open_in, unbraced};
use texml_token::{Names, Token};

// The text of `\par`.
const PAR: [u32; 3] = [112, 97, 114];

/// Whether a token is `\par`.
pub fn is_par(token: Token, names: &Names) -> bool
    requires { TokenWithin (length names.now) token }
    ensures { result ≡ is_par (token_at names.now token) }
{
    match token {
        Token::Named(name) => name.0 > 0 && names.text(name) == PAR.as_slice(),
        _ => false,
    }
}

/// Whether a token is `\par` where it may not stand: in an argument of a short macro whose delimiter doesn't
/// have it.
pub fn runs_away(long: bool, delimiter: &[Token], token: Token, names: &Names) -> bool
    requires delimiter { TokensWithin (length names.now) delimiter.now }
    requires token { TokenWithin (length names.now) token }
    ensures { result ≡ (is_par (token_at names.now token) && not (lets_par long (tokens_at names.now delimiter.now))) }
{
    is_par(token, names) && !lets_par(long, delimiter, names)
}

// Whether `\par` may stand in an argument with this delimiter.
fn lets_par(long: bool, delimiter: &[Token], names: &Names) -> bool
    requires { TokensWithin (length names.now) delimiter.now }
    ensures { result ≡ lets_par long (tokens_at names.now delimiter.now) }
{
    if long {
        return true;
    }
    has_par(delimiter, names)
}

// Whether `\par` is in a list.
fn has_par(list: &[Token], names: &Names) -> bool
    requires { TokensWithin (length names.now) list.now }
    ensures { result ≡ list_any is_par (tokens_at names.now list.now) }
{
    let mut rest = list;
    while let Some((token, behind)) = rest.split_first() {
        if is_par(*token, names) {
            return true;
        }
        rest = behind;
    }
    false
}

/// The argument that these tokens are with its delimiter, if they are one; behind them so many groups are open.
pub fn argument_in<'a>(list: &'a [Token], depth: usize, delimiter: &[Token]) -> Option<&'a [Token]>
    ensures is { (texts : Table) → Numbered texts → TokensWithin (length texts) delimiter.now → TokensWithin (length texts) list.now → open_behind 0 (tokens_at texts list.now) ≡ Some depth
        → option_map (λ argument. tokens_at texts argument.now) result ≡ argument_in (tokens_at texts delimiter.now) (tokens_at texts list.now) }
    ensures within { (count : ℕ) → TokensWithin count list.now → IfSome result (λ argument. TokensWithin count argument.now) }
{
    if delimiter.is_empty() {
        undelimited(list, depth)
    } else {
        delimited(list, depth, delimiter)
    }
}

// An argument without a delimiter.
fn undelimited(list: &[Token], depth: usize) -> Option<&[Token]>
    ensures is { (texts : Table) → open_behind 0 (tokens_at texts list.now) ≡ Some depth
        → option_map (λ argument. tokens_at texts argument.now) result ≡ undelimited (tokens_at texts list.now) }
    ensures within { (count : ℕ) → TokensWithin count list.now → IfSome result (λ argument. TokensWithin count argument.now) }
{
    if depth > 0 {
        return None;
    }
    if list.len() == 1 {
        return Some(list);
    }
    inside(list)
}

// An argument before its delimiter.
fn delimited<'a>(list: &'a [Token], depth: usize, delimiter: &[Token]) -> Option<&'a [Token]>
    ensures is { (texts : Table) → Numbered texts → TokensWithin (length texts) delimiter.now → TokensWithin (length texts) list.now → open_behind 0 (tokens_at texts list.now) ≡ Some depth
        → option_map (λ argument. tokens_at texts argument.now) result ≡ delimited (tokens_at texts delimiter.now) (tokens_at texts list.now) }
    ensures within { (count : ℕ) → TokensWithin count list.now → IfSome result (λ argument. TokensWithin count argument.now) }
{
    if !list.ends_with(delimiter) {
        return None;
    }
    let Some(opens) = open_in(delimiter) else {
        return None;
    };
    if opens != depth {
        return None;
    }
    Some(unbraced(&list[..list.len() - delimiter.len()]))
}
