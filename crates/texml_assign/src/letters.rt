//! Small letters and capitals.

ghost use Rattle.std.specs.Prelude.{◌≡◌, ℕ, length, map, None, IfOk, OnOk, option_map};
ghost use Rattle.std.specs.Char.{IsScalar};
ghost use Rattle.texml_token.specs.Numbers.{Table, token_at, tokens_at, TokenWithin, TokensWithin, OptionWithin};
ghost use Rattle.texml_scope.specs.Numbers.{key_at, KeyWithin};
ghost use Rattle.texml_scope.specs.Values.{number_in};
ghost use Rattle.texml_scope.specs.World.{IsNumber, IsCode, IsOfKind};
ghost use Rattle.texml_scope.specs.Shown.{ValueCode};
ghost use Rattle.texml_expand.specs.State.{change};
ghost use Rattle.texml_expand.specs.Contract.{Local, outside, stop_after};
ghost use Rattle.texml_expand.specs.Fronts.{looked_at, LookedWithin};
ghost use Rattle.texml_expand.specs.Hearing.{hears, hears_part};
ghost use Rattle.texml_expand.specs.Held.{Sound, Kept, ok_at, world_in, Owns, SameFiles, Shrinks, Puts, Progress};
ghost use Rattle.texml_assign.specs.Doing.{Does};
ghost use Rattle.texml_assign.specs.Letters.{group_from as spec_group_from, group_by as spec_group_by, next_group as spec_next_group, case_key as spec_case_key, code_or as spec_code_or, code_in as spec_code_in, token_in as spec_token_in, put_in_case as spec_put_in_case, change_case as spec_change_case};

use crate::assignments::{ListStart, list_start};
use crate::fillers::{Filler, first_behind};
use std::alloc::{AllocError, Global};
use texml_base::Files;
use texml_expand::{Engine, Looked, Stop};
use texml_scope::{Key, Value};
use texml_token::{Token, Tokens, fault_code};
use texml_watch::Teller;

/// Small letters, or capitals.
#[derive(Clone, Copy, Debug, PartialEq, Eq)]
pub enum Case {
    Small,
    Capital,
}

/// Puts the list of tokens that comes next in braces back, with the codes that its characters have in this case: those of
/// `\lccode` or `\uccode`, where they aren't 0. Categories and names stay (The TeXbook, chapter 7).
///
/// # Errors
///
/// `Tex` with fault 22 where no list in braces comes, with fault 4 where a text ends before the list does, and the faults of
/// tokens that are expanded before it. The stops of the engine.
pub fn change_case<F: Files, T: Teller>(
    alloc: Global,
    engine: &mut Engine,
    files: &mut F,
    tell: &mut T,
    case: Case,
) -> Result<(), Stop>
    requires running { engine.old.stop ≡ None }
    requires sound { Sound engine.old }
    requires owns { Owns (F.shelf files.old) engine.old }
    ensures does { Does (hears T.wanting T.heard) (hears_part T.wanting T.part) (spec_change_case case) result engine.old engine.new
        (outside (F.shelf files.old) (F.faults files.old) (T.faults tell.old) (T.loan tell.old)) (outside (F.shelf files.new) (F.faults files.new) (T.faults tell.new) (T.loan tell.new)) tell.old tell.new }
{
    let list = next_group(engine, files, tell)?;
    put_in_case(alloc, engine, case, &list)
}

// The tokens in braces that come next, unexpanded, behind spaces and `\relax`.
fn next_group<F: Files, T: Teller>(
    engine: &mut Engine,
    files: &mut F,
    tell: &mut T,
) -> Result<Tokens, Stop>
    requires running { engine.old.stop ≡ None }
    requires sound { Sound engine.old }
    requires owns { Owns (F.shelf files.old) engine.old }
    ensures does { Does (hears T.wanting T.heard) (hears_part T.wanting T.part) spec_next_group (ok_at (tokens_at engine.new.names) result) engine.old engine.new
        (outside (F.shelf files.old) (F.faults files.old) (T.faults tell.old) (T.loan tell.old)) (outside (F.shelf files.new) (F.faults files.new) (T.faults tell.new) (T.loan tell.new)) tell.old tell.new }
    ensures takes { IfOk result (λ list. Shrinks (length list) (F.shelf files.old) engine.old (F.shelf files.new) engine.new) }
    ensures within { IfOk result (TokensWithin (length engine.new.names)) }
{
    let first = first_behind(engine, files, tell, Filler::SpacesAndRelax)?;
    group_by(engine, files, tell, first)
}

// The tokens behind the brace that a token must be.
fn group_by<F: Files, T: Teller>(
    engine: &mut Engine,
    files: &mut F,
    tell: &mut T,
    first: Option<Looked>,
) -> Result<Tokens, Stop>
    requires running { engine.old.stop ≡ None }
    requires sound { Sound engine.old }
    requires owns { Owns (F.shelf files.old) engine.old }
    requires first { OptionWithin (LookedWithin (length engine.old.names)) first }
    ensures does { Does (hears T.wanting T.heard) (hears_part T.wanting T.part) (spec_group_by (option_map (looked_at engine.old.names) first)) (ok_at (tokens_at engine.new.names) result) engine.old engine.new
        (outside (F.shelf files.old) (F.faults files.old) (T.faults tell.old) (T.loan tell.old)) (outside (F.shelf files.new) (F.faults files.new) (T.faults tell.new) (T.loan tell.new)) tell.old tell.new }
    ensures takes { IfOk result (λ list. Shrinks (length list) (F.shelf files.old) engine.old (F.shelf files.new) engine.new) }
    ensures within { IfOk result (TokensWithin (length engine.new.names)) }
{
    let start = list_start(engine, first)?;
    group_from(engine, files, tell, start)
}

// The tokens behind a brace, which what begins a list must be.
fn group_from<F: Files, T: Teller>(
    engine: &mut Engine,
    files: &mut F,
    tell: &mut T,
    start: ListStart,
) -> Result<Tokens, Stop>
    requires running { engine.old.stop ≡ None }
    requires sound { Sound engine.old }
    requires owns { Owns (F.shelf files.old) engine.old }
    ensures does { Does (hears T.wanting T.heard) (hears_part T.wanting T.part) (spec_group_from start) (ok_at (tokens_at engine.new.names) result) engine.old engine.new
        (outside (F.shelf files.old) (F.faults files.old) (T.faults tell.old) (T.loan tell.old)) (outside (F.shelf files.new) (F.faults files.new) (T.faults tell.new) (T.loan tell.new)) tell.old tell.new }
    ensures takes { IfOk result (λ list. Shrinks (length list) (F.shelf files.old) engine.old (F.shelf files.new) engine.new) }
    ensures within { IfOk result (TokensWithin (length engine.new.names)) }
{
    match start {
        ListStart::Group => engine.absorb(files, tell, false),
        ListStart::Register(_) => Err(engine.bare_fault(fault_code::MISSING_BRACE)),
    }
}

// Puts tokens back in this case.
fn put_in_case(alloc: Global, engine: &mut Engine, case: Case, list: &Tokens) -> Result<(), Stop>
    requires running { engine.old.stop ≡ None }
    requires sound { Sound engine.old }
    requires list { TokensWithin (length engine.old.names) list.now }
    ensures changes { Local (change (spec_put_in_case case (tokens_at engine.old.names list.now))) result engine.old engine.new }
    ensures kept { engine.new.stop ≡ stop_after result }
    ensures keeps { OnOk result (Kept engine.old engine.new) }
    ensures advances { Progress engine.old engine.new }
    ensures files { SameFiles engine.old engine.new }
    ensures puts { OnOk result (Puts (length list.now) engine.old engine.new) }
{
    match tokens_in(alloc, engine, case, list) {
        Ok(changed) => engine.put(&changed),
        Err(_) => Err(engine.no_memory()),
    }
}

// Tokens in this case.
fn tokens_in(
    alloc: Global,
    engine: &Engine,
    case: Case,
    list: &Tokens,
) -> Result<Tokens, AllocError>
    requires sound { Sound engine.now }
    requires list { TokensWithin (length engine.now.names) list.now }
    ensures are { IfOk result (λ changed. tokens_at engine.now.names changed ≡ map (spec_token_in case (world_in engine.now)) (tokens_at engine.now.names list.now)) }
    ensures within { IfOk result (TokensWithin (length engine.now.names)) }
{
    let mut changed = Tokens::new(alloc);
    for token in list.as_slice() {
        changed.push(token_in(engine, case, *token)?)?;
    }
    Ok(changed)
}

// A token in this case.
fn token_in(engine: &Engine, case: Case, token: Token) -> Result<Token, AllocError>
    requires sound { Sound engine.now }
    requires token { TokenWithin (length engine.now.names) token }
    ensures is { IfOk result (λ changed. token_at engine.now.names changed ≡ spec_token_in case (world_in engine.now) (token_at engine.now.names token)) }
    ensures within { IfOk result (TokenWithin (length engine.now.names)) }
{
    match token {
        Token::Char(code, category) => Ok(Token::Char(code_in(engine, case, code)?, category)),
        Token::Active(code) => Ok(Token::Active(code_in(engine, case, code)?)),
        _ => Ok(token),
    }
}

// The code of a character in this case.
fn code_in(engine: &Engine, case: Case, code: u32) -> Result<u32, AllocError>
    requires sound { Sound engine.now }
    requires code { IsScalar code }
    ensures is { IfOk result (λ changed. changed ≡ spec_code_in case (world_in engine.now) code) }
    ensures scalar { IfOk result IsScalar }
{
    let value = engine.value(&case_key(case, code))?;
    Ok(code_or(code, &value))
}

// The key of the code that a character has in this case.
fn case_key(case: Case, code: u32) -> Key
    ensures is { (texts : Table) → key_at texts result ≡ spec_case_key case code }
    ensures within { (count : ℕ) → IsScalar code → KeyWithin count result }
    ensures code { (v : ValueCode) → IsOfKind result v → IsNumber IsCode v }
{
    match case {
        Case::Small => Key::Lower(code),
        Case::Capital => Key::Upper(code),
    }
}

// The code that a value is, or this one where that is 0.
fn code_or(code: u32, value: &Value) -> u32
    requires number { IsNumber IsCode value.now }
    requires code { IsScalar code }
    ensures is { result ≡ spec_code_or code (number_in value.now) }
    ensures scalar { IsScalar result }
{
    match value {
        Value::Number(number) if *number > 0 => *number as u32,
        _ => code,
    }
}
