//! Groups in lists of tokens.

ghost use Rattle.std.specs.Prelude.{◌≡◌, ◌<◌, ◌≤◌, ◌+◌, ◌&&◌, ℕ, IfSome, option_map};
ghost use Rattle.texml_token.specs.Token.{has_category};
ghost use Rattle.texml_token.specs.Numbers.{Table, token_at, tokens_at, TokensWithin};
ghost use Rattle.texml_token.specs.declared.category.TheConstants.{BEGIN_GROUP, END_GROUP};
ghost use Rattle.texml_match.specs.Groups.{behind_token, open_behind, inside, is_balanced, unbraced};

use texml_token::{Token, category};

/// How many groups are open behind a token, where so many are before it; none where it ends a group that hasn't begun.
pub fn behind_token(depth: usize, token: Token) -> Option<usize>
    requires { depth < usize.MAX }
    ensures depth { (texts : Table) → result ≡ behind_token depth (token_at texts token) }
    ensures few { IfSome result (λ n. n ≤ depth + 1) }
{
    if token.has_category(category::BEGIN_GROUP) {
        return Some(depth + 1);
    }
    if token.has_category(category::END_GROUP) {
        return depth.checked_sub(1);
    }
    Some(depth)
}

/// How many groups are open behind tokens; none where a group ends that hasn't begun.
pub fn open_in(list: &[Token]) -> Option<usize>
    ensures { (texts : Table) → result ≡ open_behind 0 (tokens_at texts list.now) }
{
    let mut depth = 0;
    let mut rest = list;
    while let Some((token, behind)) = rest.split_first() {
        depth = behind_token(depth, *token)?;
        rest = behind;
    }
    Some(depth)
}

/// What is inside a list that is exactly one group.
pub fn inside(list: &[Token]) -> Option<&[Token]>
    ensures is { (texts : Table) → option_map (λ inner. tokens_at texts inner.now) result ≡ inside (tokens_at texts list.now) }
    ensures within { (count : ℕ) → TokensWithin count list.now → IfSome result (λ argument. TokensWithin count argument.now) }
{
    let (first, behind) = list.split_first()?;
    let (last, inner) = behind.split_last()?;
    if is_group(*first, inner, *last) {
        return Some(inner);
    }
    None
}

// Whether these are exactly one group: its begin, a balanced list, and its end.
fn is_group(first: Token, inner: &[Token], last: Token) -> bool
    ensures { (texts : Table) → result ≡ (has_category BEGIN_GROUP (token_at texts first) && (has_category END_GROUP (token_at texts last) && is_balanced (tokens_at texts inner.now))) }
{
    if !first.has_category(category::BEGIN_GROUP) {
        return false;
    }
    if !last.has_category(category::END_GROUP) {
        return false;
    }
    is_balanced(inner)
}

// Whether each group that begins in a list ends in it, and none else ends.
fn is_balanced(list: &[Token]) -> bool
    ensures { (texts : Table) → result ≡ is_balanced (tokens_at texts list.now) }
{
    match open_in(list) {
        Some(depth) => depth == 0,
        None => false,
    }
}

/// A list without its braces, where it is exactly one group.
pub fn unbraced(list: &[Token]) -> &[Token]
    ensures is { (texts : Table) → tokens_at texts result.now ≡ unbraced (tokens_at texts list.now) }
    ensures within { (count : ℕ) → TokensWithin count list.now → TokensWithin count result.now }
{
    match inside(list) {
        Some(inner) => inner,
        None => list,
    }
}
