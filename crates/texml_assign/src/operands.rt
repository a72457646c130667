//! What commands read behind them.

ghost use Rattle.std.specs.Prelude.{◌≡◌, length, None, IfOk, OnOk, option_map, option_to_list};
ghost use Rattle.texml_token.specs.Numbers.{Table, token_at, TokenWithin, OptionWithin};
ghost use Rattle.texml_scope.specs.declared.values.ValueOf.TheVariants.{Means};
ghost use Rattle.texml_scope.specs.World.{MaySet};
ghost use Rattle.texml_scope.specs.Numbers.{MeaningCode, key_at, meaning_at, KeyWithin, MeaningWithin};
ghost use Rattle.texml_expand.specs.Contract.{Local, outside, stop_after};
ghost use Rattle.texml_expand.specs.Hearing.{hears, hears_part};
ghost use Rattle.texml_expand.specs.Held.{Sound, Kept, ok_at, world_in, Owns, Shrinks};
ghost use Rattle.texml_expand.specs.Arguments.{means_space as spec_means_space};
ghost use Rattle.texml_assign.specs.Doing.{Does};
ghost use Rattle.texml_expand.specs.Take.{means};
ghost use Rattle.texml_assign.specs.Operands.{token_or_end as spec_token_or_end, next_token as spec_next_token, key_of as spec_key_of, next_key as spec_next_key, behind_spaces as spec_behind_spaces, is_equals as spec_is_equals, behind_space as spec_behind_space, behind_equals as spec_behind_equals, meant as spec_meant};

use crate::sets::put_back;
use std::alloc::AllocError;
use texml_base::Files;
use texml_expand::{Engine, Stop, means_space};
use texml_scope::{Key, Meaning};
use texml_token::{Name, Token, category, fault_code};
use texml_watch::Teller;

// The code of the equals sign.
const EQUALS: u32 = 61;

/// The next token, unexpanded, or `None` at the end of what is to be read.
///
/// # Errors
///
/// The stops of the engine.
pub fn token_or_end<F: Files, T: Teller>(
    engine: &mut Engine,
    files: &mut F,
    tell: &mut T,
) -> Result<Option<Token>, Stop>
    requires running { engine.old.stop ≡ None }
    requires sound { Sound engine.old }
    requires owns { Owns (F.shelf files.old) engine.old }
    ensures does { Does (hears T.wanting T.heard) (hears_part T.wanting T.part) (λ n. spec_token_or_end) (ok_at (option_map (token_at engine.new.names)) result) engine.old engine.new
        (outside (F.shelf files.old) (F.faults files.old) (T.faults tell.old) (T.loan tell.old)) (outside (F.shelf files.new) (F.faults files.new) (T.faults tell.new) (T.loan tell.new)) tell.old tell.new }
    ensures takes { IfOk result (λ o. Shrinks (length (option_to_list o)) (F.shelf files.old) engine.old (F.shelf files.new) engine.new) }
    ensures begun { engine.new.begun ≡ engine.old.begun }
    ensures within { IfOk result (OptionWithin (TokenWithin (length engine.new.names))) }
{
    let taken = engine.take(files, tell)?;
    match taken {
        Some(read) => Ok(Some(read.token)),
        None => Ok(None),
    }
}

/// The next token, unexpanded. There must be one.
///
/// # Errors
///
/// `Tex` with fault 4 at the end of what is to be read, and the stops of the engine.
pub fn next_token<F: Files, T: Teller>(
    engine: &mut Engine,
    files: &mut F,
    tell: &mut T,
) -> Result<Token, Stop>
    requires running { engine.old.stop ≡ None }
    requires sound { Sound engine.old }
    requires owns { Owns (F.shelf files.old) engine.old }
    ensures does { Does (hears T.wanting T.heard) (hears_part T.wanting T.part) (λ n. spec_next_token) (ok_at (token_at engine.new.names) result) engine.old engine.new
        (outside (F.shelf files.old) (F.faults files.old) (T.faults tell.old) (T.loan tell.old)) (outside (F.shelf files.new) (F.faults files.new) (T.faults tell.new) (T.loan tell.new)) tell.old tell.new }
    ensures takes { OnOk result (Shrinks 1 (F.shelf files.old) engine.old (F.shelf files.new) engine.new) }
    ensures within { IfOk result (TokenWithin (length engine.new.names)) }
{
    let next = token_or_end(engine, files, tell)?;
    match next {
        Some(token) => Ok(token),
        None => Err(engine.bare_fault(fault_code::FILE_ENDED)),
    }
}

/// The name or active character that comes next.
///
/// # Errors
///
/// `Tex` with fault 18 where another token comes, and those of `next_token`.
pub fn next_key<F: Files, T: Teller>(
    engine: &mut Engine,
    files: &mut F,
    tell: &mut T,
) -> Result<Key, Stop>
    requires running { engine.old.stop ≡ None }
    requires sound { Sound engine.old }
    requires owns { Owns (F.shelf files.old) engine.old }
    ensures does { Does (hears T.wanting T.heard) (hears_part T.wanting T.part) (λ n. spec_next_key) (ok_at (key_at engine.new.names) result) engine.old engine.new
        (outside (F.shelf files.old) (F.faults files.old) (T.faults tell.old) (T.loan tell.old)) (outside (F.shelf files.new) (F.faults files.new) (T.faults tell.new) (T.loan tell.new)) tell.old tell.new }
    ensures within { IfOk result (KeyWithin (length engine.new.names)) }
    ensures may { IfOk result (λ key. (meaning : MeaningCode) → MaySet key (Means meaning)) }
{
    let token = next_token(engine, files, tell)?;
    key_of(engine, token)
}

/// What a token names that may be defined: a name or an active character.
///
/// # Errors
///
/// `Tex` with fault 18 where it is another token.
pub fn key_of(engine: &mut Engine, token: Token) -> Result<Key, Stop>
    requires running { engine.old.stop ≡ None }
    requires sound { Sound engine.old }
    requires token { TokenWithin (length engine.old.names) token }
    ensures key { Local (spec_key_of (token_at engine.old.names token)) (ok_at (key_at engine.new.names) result) engine.old engine.new }
    ensures kept { engine.new.stop ≡ stop_after result }
    ensures keeps { OnOk result (Kept engine.old engine.new) }
    ensures is { engine.new ≡ record engine.old { stop = engine.new.stop } }
    ensures within { IfOk result (KeyWithin (length engine.new.names)) }
    ensures may { IfOk result (λ key. (meaning : MeaningCode) → MaySet key (Means meaning)) }
{
    match token {
        Token::Active(code) => Ok(Key::Active(code)),
        Token::Named(Name(0)) => Err(engine.bare_fault(fault_code::MISPLACED)),
        Token::Named(name) => Ok(Key::Name(name)),
        _ => Err(engine.bare_fault(fault_code::MISPLACED)),
    }
}

// Whether a token means a space.
fn token_is_space(engine: &Engine, token: Token) -> Result<bool, AllocError>
    requires sound { Sound engine.now }
    requires token { TokenWithin (length engine.now.names) token }
    ensures { IfOk result (λ b. b ≡ spec_means_space (means (world_in engine.now) (token_at engine.now.names token))) }
{
    let meaning = engine.means(token)?;
    Ok(means_space(&meaning))
}

/// The first token that isn't a space.
///
/// # Errors
///
/// Those of `next_token`.
pub fn behind_spaces<F: Files, T: Teller>(
    engine: &mut Engine,
    files: &mut F,
    tell: &mut T,
) -> Result<Token, Stop>
    requires running { engine.old.stop ≡ None }
    requires sound { Sound engine.old }
    requires owns { Owns (F.shelf files.old) engine.old }
    ensures does { Does (hears T.wanting T.heard) (hears_part T.wanting T.part) spec_behind_spaces (ok_at (token_at engine.new.names) result) engine.old engine.new
        (outside (F.shelf files.old) (F.faults files.old) (T.faults tell.old) (T.loan tell.old)) (outside (F.shelf files.new) (F.faults files.new) (T.faults tell.new) (T.loan tell.new)) tell.old tell.new }
    ensures within { IfOk result (TokenWithin (length engine.new.names)) }
{
    'spaces: loop {
        let token = match token_or_end(engine, files, tell)? {
            Some(token) => token,
            None => return Err(engine.bare_fault(fault_code::FILE_ENDED)),
        };
        let space = match token_is_space(engine, token) {
            Ok(space) => space,
            Err(_) => return Err(engine.no_memory()),
        };
        if !space {
            return Ok(token);
        }
    }
}

// The token itself, or where it is a space the next one.
fn behind_space<F: Files, T: Teller>(
    engine: &mut Engine,
    files: &mut F,
    tell: &mut T,
    token: Token,
) -> Result<Token, Stop>
    requires running { engine.old.stop ≡ None }
    requires sound { Sound engine.old }
    requires owns { Owns (F.shelf files.old) engine.old }
    requires token { TokenWithin (length engine.old.names) token }
    ensures does { Does (hears T.wanting T.heard) (hears_part T.wanting T.part) (λ n. spec_behind_space (token_at engine.old.names token)) (ok_at (token_at engine.new.names) result) engine.old engine.new
        (outside (F.shelf files.old) (F.faults files.old) (T.faults tell.old) (T.loan tell.old)) (outside (F.shelf files.new) (F.faults files.new) (T.faults tell.new) (T.loan tell.new)) tell.old tell.new }
    ensures within { IfOk result (TokenWithin (length engine.new.names)) }
{
    let space = match token_is_space(engine, token) {
        Ok(space) => space,
        Err(_) => return Err(engine.no_memory()),
    };
    if space {
        return next_token(engine, files, tell);
    }
    Ok(token)
}

// The token itself, or where it is an equals sign the one behind it and one space.
fn behind_equals<F: Files, T: Teller>(
    engine: &mut Engine,
    files: &mut F,
    tell: &mut T,
    token: Token,
) -> Result<Token, Stop>
    requires running { engine.old.stop ≡ None }
    requires sound { Sound engine.old }
    requires owns { Owns (F.shelf files.old) engine.old }
    requires token { TokenWithin (length engine.old.names) token }
    ensures does { Does (hears T.wanting T.heard) (hears_part T.wanting T.part) (λ n. spec_behind_equals (token_at engine.old.names token)) (ok_at (token_at engine.new.names) result) engine.old engine.new
        (outside (F.shelf files.old) (F.faults files.old) (T.faults tell.old) (T.loan tell.old)) (outside (F.shelf files.new) (F.faults files.new) (T.faults tell.new) (T.loan tell.new)) tell.old tell.new }
    ensures within { IfOk result (TokenWithin (length engine.new.names)) }
{
    if !is_equals(token) {
        return Ok(token);
    }
    let next = next_token(engine, files, tell)?;
    behind_space(engine, files, tell, next)
}

/// Whether a token is the character `=` of category 12.
pub fn is_equals(token: Token) -> bool
    ensures { (texts : Table) → result ≡ spec_is_equals (token_at texts token) }
{
    match token {
        Token::Char(code, found) => code == EQUALS && found == category::OTHER,
        _ => false,
    }
}

/// The meaning of a token behind spaces, an equals sign and one space, each of which may be missing.
///
/// # Errors
///
/// Those of `next_token`.
pub fn meant<F: Files, T: Teller>(
    engine: &mut Engine,
    files: &mut F,
    tell: &mut T,
) -> Result<Meaning, Stop>
    requires running { engine.old.stop ≡ None }
    requires sound { Sound engine.old }
    requires owns { Owns (F.shelf files.old) engine.old }
    ensures does { Does (hears T.wanting T.heard) (hears_part T.wanting T.part) spec_meant (ok_at (meaning_at engine.new.names) result) engine.old engine.new
        (outside (F.shelf files.old) (F.faults files.old) (T.faults tell.old) (T.loan tell.old)) (outside (F.shelf files.new) (F.faults files.new) (T.faults tell.new) (T.loan tell.new)) tell.old tell.new }
    ensures within { IfOk result (MeaningWithin (length engine.new.names)) }
{
    let first = behind_spaces(engine, files, tell)?;
    let token = behind_equals(engine, files, tell, first)?;
    match engine.means(token) {
        Ok(meaning) => Ok(meaning),
        Err(_) => Err(engine.no_memory()),
    }
}
