//! New commands: names whose macros are given by the number of their parameters (Lamport's LaTeX manual, section C.8).

ghost use Rattle.std.specs.Prelude.{◌≡◌, ◌≤◌, ℕ, length, None, Some, IfOk, IfSome, OnOk, option_map};
ghost use Rattle.texml_token.specs.Numbers.{Table, token_at, tokens_at, TokenWithin, TokensWithin, BodyWithin, OptionWithin};
ghost use Rattle.texml_scope.specs.declared.values.ValueOf.TheVariants.{Means};
ghost use Rattle.texml_scope.specs.World.{MaySet};
ghost use Rattle.texml_scope.specs.Numbers.{MeaningCode, key_at, meaning_at, KeyWithin, MeaningWithin};
ghost use Rattle.texml_token.specs.declared.fault_code.TheConstants.{NAME_TAKEN};
ghost use Rattle.texml_expand.specs.Contract.{IsFaultAt, outside, stop_after, Local};
ghost use Rattle.texml_expand.specs.Expand.{spelling};
ghost use Rattle.texml_expand.specs.Hearing.{hears, hears_part};
ghost use Rattle.texml_expand.specs.Held.{Sound, Kept, ok_at, place_of, Owns};
ghost use Rattle.texml_assign.specs.Doing.{Does};
ghost use Rattle.texml_token.specs.Token.{Token as TokenText};
ghost use Rattle.texml_expand.specs.State.{State};
ghost use Rattle.texml_assign.specs.Allowing.{allowed_as};
ghost use Rattle.texml_assign.specs.NewCommand.{starred as spec_starred, only_token as spec_only_token, is_undefined as spec_is_undefined, is_free as spec_is_free, defines as spec_defines, defines_now as spec_defines_now, key_of_name as spec_key_of_name, command_key as spec_command_key, only_digit as spec_only_digit, number_said as spec_number_said, parameter_count as spec_parameter_count, fitting as spec_fitting, first_default as spec_first_default, argument_body as spec_argument_body, numbered as spec_numbered, command_of as spec_command_of, command_macro as spec_command_macro, new_command as spec_new_command};

use crate::define::body_said;
use crate::operands::key_of;
use crate::parameters::digit;
use crate::sets::assign;
use crate::table::Naming;
use std::alloc::{AllocError, Global};
use texml_base::Files;
use texml_expand::{ESCAPE, Engine, Stop};
use texml_scope::builtins::RELAX;
use texml_scope::{Key, Macro, Meaning};
use texml_token::{Bytes, Params, Piece, Pieces, Token, Tokens, category, fault_code, spell};
use texml_watch::Teller;

// The code of the star.
const STAR: u32 = 42;

// Whether a name is to be defined: it is, it stays as it is, it has a meaning already, or it has none.
#[derive(Clone, Copy, Debug, PartialEq, Eq)]
enum Allowed {
    Defines,
    Stays,
    Taken,
    Missing,
}

/// Reads a new command, and defines it where it is to be defined.
///
/// # Errors
///
/// `Tex` with fault 18 where no name comes, with fault 23 where a new name has a meaning, with fault 1 where one that is to
/// be renewed has none, with fault 14 where the number of parameters, the default or the body doesn't fit, and the faults of
/// `Engine::read_argument`. The stops of the engine.
pub fn new_command<F: Files, T: Teller>(
    alloc: Global,
    engine: &mut Engine,
    files: &mut F,
    tell: &mut T,
    naming: Naming,
) -> Result<(), Stop>
    requires running { engine.old.stop ≡ None }
    requires sound { Sound engine.old }
    requires owns { Owns (F.shelf files.old) engine.old }
    ensures does { Does (hears T.wanting T.heard) (hears_part T.wanting T.part) (spec_new_command naming) result engine.old engine.new
        (outside (F.shelf files.old) (F.faults files.old) (T.faults tell.old) (T.loan tell.old)) (outside (F.shelf files.new) (F.faults files.new) (T.faults tell.new) (T.loan tell.new)) tell.old tell.new }
{
    let star = starred(engine, files, tell)?;
    let key = command_key(alloc, engine, files, tell, naming)?;
    let meaning = command_macro(alloc, engine, files, tell, !star)?;
    match key {
        Some(key) => assign(engine, false, key, meaning),
        None => Ok(()),
    }
}

// Whether a star comes behind spaces, which is taken with them.
fn starred<F: Files, T: Teller>(
    engine: &mut Engine,
    files: &mut F,
    tell: &mut T,
) -> Result<bool, Stop>
    requires running { engine.old.stop ≡ None }
    requires sound { Sound engine.old }
    requires owns { Owns (F.shelf files.old) engine.old }
    ensures does { Does (hears T.wanting T.heard) (hears_part T.wanting T.part) (λ n. spec_starred) result engine.old engine.new
        (outside (F.shelf files.old) (F.faults files.old) (T.faults tell.old) (T.loan tell.old)) (outside (F.shelf files.new) (F.faults files.new) (T.faults tell.new) (T.loan tell.new)) tell.old tell.new }
{
    engine.read_sign(files, tell, STAR)
}

// The key of the name that comes next, if it is to be defined.
fn command_key<F: Files, T: Teller>(
    alloc: Global,
    engine: &mut Engine,
    files: &mut F,
    tell: &mut T,
    naming: Naming,
) -> Result<Option<Key>, Stop>
    requires running { engine.old.stop ≡ None }
    requires sound { Sound engine.old }
    requires owns { Owns (F.shelf files.old) engine.old }
    ensures does { Does (hears T.wanting T.heard) (hears_part T.wanting T.part) (λ n. spec_command_key naming) (ok_at (option_map (key_at engine.new.names)) result) engine.old engine.new
        (outside (F.shelf files.old) (F.faults files.old) (T.faults tell.old) (T.loan tell.old)) (outside (F.shelf files.new) (F.faults files.new) (T.faults tell.new) (T.loan tell.new)) tell.old tell.new }
    ensures within { IfOk result (OptionWithin (KeyWithin (length engine.new.names))) }
    ensures may { IfOk result (λ key. IfSome key (λ k. (meaning : MeaningCode) → MaySet k (Means meaning))) }
{
    let list = engine.read_argument(files, tell)?;
    key_of_name(alloc, engine, naming, only_token(&list))
}

// The only token of a list, spaces aside.
fn only_token(list: &Tokens) -> Option<Token>
    ensures is { (texts : Table) → option_map (token_at texts) result ≡ spec_only_token (tokens_at texts list.now) }
    ensures within { (count : ℕ) → TokensWithin count list.now → OptionWithin (TokenWithin count) result }
{
    let mut only = None;
    for token in list.as_slice() {
        if !token.has_category(category::SPACE) {
            if only.is_some() {
                return None;
            }
            only = Some(*token);
        }
    }
    only
}

// The key of a name, if it is to be defined.
fn key_of_name(
    alloc: Global,
    engine: &mut Engine,
    naming: Naming,
    name: Option<Token>,
) -> Result<Option<Key>, Stop>
    requires running { engine.old.stop ≡ None }
    requires sound { Sound engine.old }
    requires name { OptionWithin (TokenWithin (length engine.old.names)) name }
    ensures needs { Local (spec_key_of_name naming (option_map (token_at engine.old.names) name)) (ok_at (option_map (key_at engine.new.names)) result) engine.old engine.new }
    ensures kept { engine.new.stop ≡ stop_after result }
    ensures keeps { OnOk result (Kept engine.old engine.new) }
    ensures is { engine.new ≡ record engine.old { stop = engine.new.stop } }
    ensures within { IfOk result (OptionWithin (KeyWithin (length engine.new.names))) }
    ensures may { IfOk result (λ key. IfSome key (λ k. (meaning : MeaningCode) → MaySet k (Means meaning))) }
{
    let token = match name {
        Some(token) => token,
        None => return Err(engine.bare_fault(fault_code::MISPLACED)),
    };
    let key = key_of(engine, token)?;
    if defines(alloc, engine, naming, token)? {
        return Ok(Some(key));
    }
    Ok(None)
}

// Whether a name is to be defined, by its meaning.
fn defines(alloc: Global, engine: &mut Engine, naming: Naming, token: Token) -> Result<bool, Stop>
    requires running { engine.old.stop ≡ None }
    requires sound { Sound engine.old }
    requires token { TokenWithin (length engine.old.names) token }
    ensures defines { Local (spec_defines_now naming (token_at engine.old.names token)) result engine.old engine.new }
    ensures kept { engine.new.stop ≡ stop_after result }
    ensures keeps { OnOk result (Kept engine.old engine.new) }
    ensures is { engine.new ≡ record engine.old { stop = engine.new.stop } }
{
    let meaning = match engine.means(token) {
        Ok(meaning) => meaning,
        Err(_) => return Err(engine.no_memory()),
    };
    match judged(naming, &meaning) {
        Allowed::Defines => Ok(true),
        Allowed::Stays => Ok(false),
        Allowed::Taken => Err(name_taken(alloc, engine, token)),
        Allowed::Missing => Err(engine.undefined(token)),
    }
}

// Whether a name of this meaning is to be defined.
fn judged(naming: Naming, meaning: &Meaning) -> Allowed
    ensures { (texts : Table) → (t : TokenText) → (s : State) → spec_defines naming t (meaning_at texts meaning.now) s ≡ allowed_as result t s }
{
    match naming {
        Naming::New => {
            if is_free(meaning) {
                Allowed::Defines
            } else {
                Allowed::Taken
            }
        }
        Naming::Renew => {
            if is_undefined(meaning) {
                Allowed::Missing
            } else {
                Allowed::Defines
            }
        }
        Naming::Provide => {
            if is_undefined(meaning) {
                Allowed::Defines
            } else {
                Allowed::Stays
            }
        }
    }
}

// Stops with the fault of a name that has a meaning.
fn name_taken(alloc: Global, engine: &mut Engine, token: Token) -> Stop
    requires running { engine.old.stop ≡ None }
    requires token { TokenWithin (length engine.old.names) token }
    ensures is { IsFaultAt NAME_TAKEN (spelling (token_at engine.old.names token)) (place_of engine.old) result }
    ensures kept { engine.new ≡ record engine.old { stop = Some result } }
{
    let mut about = Bytes::new(alloc);
    match spell(token, ESCAPE, engine.names(), &mut about) {
        Ok(()) => engine.fault(fault_code::NAME_TAKEN, &about),
        Err(_) => engine.no_memory(),
    }
}

// Whether nothing is meant.
fn is_undefined(meaning: &Meaning) -> bool
    ensures { (texts : Table) → result ≡ spec_is_undefined (meaning_at texts meaning.now) }
{
    match meaning {
        Meaning::Undefined => true,
        _ => false,
    }
}

// Whether nothing is meant, or nothing but `\relax`.
fn is_free(meaning: &Meaning) -> bool
    ensures { (texts : Table) → result ≡ spec_is_free (meaning_at texts meaning.now) }
{
    match meaning {
        Meaning::Builtin(place) => *place == RELAX,
        Meaning::Undefined => true,
        _ => false,
    }
}

// The macro of a command: the number of its parameters, the default of the first, and its body.
fn command_macro<F: Files, T: Teller>(
    alloc: Global,
    engine: &mut Engine,
    files: &mut F,
    tell: &mut T,
    long: bool,
) -> Result<Meaning, Stop>
    requires running { engine.old.stop ≡ None }
    requires sound { Sound engine.old }
    requires owns { Owns (F.shelf files.old) engine.old }
    ensures does { Does (hears T.wanting T.heard) (hears_part T.wanting T.part) (λ n. spec_command_macro long) (ok_at (meaning_at engine.new.names) result) engine.old engine.new
        (outside (F.shelf files.old) (F.faults files.old) (T.faults tell.old) (T.loan tell.old)) (outside (F.shelf files.new) (F.faults files.new) (T.faults tell.new) (T.loan tell.new)) tell.old tell.new }
    ensures within { IfOk result (MeaningWithin (length engine.new.names)) }
{
    let slots = parameter_count(engine, files, tell)?;
    let default = first_default(engine, files, tell, slots)?;
    let body = argument_body(alloc, engine, files, tell, slots)?;
    match command_of(alloc, long, slots, default, body) {
        Ok(made) => Ok(Meaning::Macro(made)),
        Err(_) => Err(engine.no_memory()),
    }
}

// The number of parameters, where one is said in brackets.
fn parameter_count<F: Files, T: Teller>(
    engine: &mut Engine,
    files: &mut F,
    tell: &mut T,
) -> Result<u8, Stop>
    requires running { engine.old.stop ≡ None }
    requires sound { Sound engine.old }
    requires owns { Owns (F.shelf files.old) engine.old }
    ensures does { Does (hears T.wanting T.heard) (hears_part T.wanting T.part) (λ n. spec_parameter_count) result engine.old engine.new
        (outside (F.shelf files.old) (F.faults files.old) (T.faults tell.old) (T.loan tell.old)) (outside (F.shelf files.new) (F.faults files.new) (T.faults tell.new) (T.loan tell.new)) tell.old tell.new }
    ensures few { IfOk result (λ slots. slots ≤ 9) }
{
    let said = engine.read_optional(files, tell)?;
    number_said(engine, &said)
}

// The number of parameters that tokens say.
fn number_said(engine: &mut Engine, said: &Option<Tokens>) -> Result<u8, Stop>
    requires running { engine.old.stop ≡ None }
    requires sound { Sound engine.old }
    ensures needs { Local (spec_number_said (option_map (tokens_at engine.old.names) said.now)) result engine.old engine.new }
    ensures kept { engine.new.stop ≡ stop_after result }
    ensures keeps { OnOk result (Kept engine.old engine.new) }
    ensures is { engine.new ≡ record engine.old { stop = engine.new.stop } }
    ensures few { IfOk result (λ slots. slots ≤ 9) }
{
    let list = match said {
        Some(list) => list,
        None => return Ok(0),
    };
    match only_digit(list) {
        Some(slots) => Ok(slots),
        None => Err(engine.bare_fault(fault_code::BAD_PARAMETER)),
    }
}

// The digit that tokens are, spaces aside.
fn only_digit(list: &Tokens) -> Option<u8>
    ensures is { (texts : Table) → result ≡ spec_only_digit (tokens_at texts list.now) }
    ensures few { IfSome result (λ number. number ≤ 9) }
{
    match only_token(list) {
        Some(token) => digit(token),
        None => None,
    }
}

// The default of the first parameter, where one stands in brackets.
fn first_default<F: Files, T: Teller>(
    engine: &mut Engine,
    files: &mut F,
    tell: &mut T,
    slots: u8,
) -> Result<Option<Tokens>, Stop>
    requires running { engine.old.stop ≡ None }
    requires sound { Sound engine.old }
    requires owns { Owns (F.shelf files.old) engine.old }
    ensures does { Does (hears T.wanting T.heard) (hears_part T.wanting T.part) (λ n. spec_first_default slots) (ok_at (option_map (tokens_at engine.new.names)) result) engine.old engine.new
        (outside (F.shelf files.old) (F.faults files.old) (T.faults tell.old) (T.loan tell.old)) (outside (F.shelf files.new) (F.faults files.new) (T.faults tell.new) (T.loan tell.new)) tell.old tell.new }
    ensures within { IfOk result (OptionWithin (TokensWithin (length engine.new.names))) }
    ensures fits { IfOk result (λ default. IfSome default (λ list. 1 ≤ slots)) }
{
    let default = engine.read_optional(files, tell)?;
    fitting(engine, slots, default)
}

// A default, which must have a parameter.
fn fitting(engine: &mut Engine, slots: u8, default: Option<Tokens>) -> Result<Option<Tokens>, Stop>
    requires running { engine.old.stop ≡ None }
    requires sound { Sound engine.old }
    requires default { OptionWithin (TokensWithin (length engine.old.names)) default }
    ensures needs { Local (spec_fitting slots (option_map (tokens_at engine.old.names) default)) (ok_at (option_map (tokens_at engine.new.names)) result) engine.old engine.new }
    ensures kept { engine.new.stop ≡ stop_after result }
    ensures keeps { OnOk result (Kept engine.old engine.new) }
    ensures is { engine.new ≡ record engine.old { stop = engine.new.stop } }
    ensures within { IfOk result (OptionWithin (TokensWithin (length engine.new.names))) }
    ensures fits { IfOk result (λ default. IfSome default (λ list. 1 ≤ slots)) }
{
    match default {
        Some(_) if slots == 0 => Err(engine.bare_fault(fault_code::BAD_PARAMETER)),
        Some(list) => Ok(Some(list)),
        None => Ok(None),
    }
}

// The body of a command with so many parameters, which is an argument.
fn argument_body<F: Files, T: Teller>(
    alloc: Global,
    engine: &mut Engine,
    files: &mut F,
    tell: &mut T,
    slots: u8,
) -> Result<Tokens, Stop>
    requires running { engine.old.stop ≡ None }
    requires sound { Sound engine.old }
    requires owns { Owns (F.shelf files.old) engine.old }
    ensures does { Does (hears T.wanting T.heard) (hears_part T.wanting T.part) (λ n. spec_argument_body slots) (ok_at (tokens_at engine.new.names) result) engine.old engine.new
        (outside (F.shelf files.old) (F.faults files.old) (T.faults tell.old) (T.loan tell.old)) (outside (F.shelf files.new) (F.faults files.new) (T.faults tell.new) (T.loan tell.new)) tell.old tell.new }
    ensures within { IfOk result (BodyWithin (length engine.new.names) slots) }
{
    let list = engine.read_argument(files, tell)?;
    body_said(alloc, engine, slots, &list)
}

// A macro with so many parameters, one behind the other, long or not.
fn command_of(
    alloc: Global,
    long: bool,
    slots: u8,
    default: Option<Tokens>,
    body: Tokens,
) -> Result<Macro, AllocError>
    ensures { IfOk result (λ made. made ≡ spec_command_of long slots default body) }
{
    let pieces = numbered(alloc, slots)?;
    let params = Params { default, pieces };
    Ok(Macro { long, params, body })
}

// So many parameters, one behind the other.
fn numbered(alloc: Global, slots: u8) -> Result<Pieces, AllocError>
    ensures { IfOk result (λ pieces. pieces ≡ spec_numbered slots) }
{
    let mut pieces = Pieces::new(alloc);
    for before in 0..slots {
        pieces.push(Piece::Slot(before + 1))?;
    }
    Ok(pieces)
}
