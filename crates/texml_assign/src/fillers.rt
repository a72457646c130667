//! What may stand before a value.

ghost use Rattle.std.specs.Prelude.{◌≡◌, length, None, IfOk, OnOk, option_map, option_to_list};
ghost use Rattle.texml_token.specs.Numbers.{Table, token_at, TokenWithin, OptionWithin};
ghost use Rattle.texml_expand.specs.Take.{means};
ghost use Rattle.texml_scope.specs.Numbers.{meaning_at};
ghost use Rattle.texml_expand.specs.Contract.{Local, outside, stop_after};
ghost use Rattle.texml_expand.specs.Hearing.{hears, hears_part};
ghost use Rattle.texml_expand.specs.Held.{Sound, Kept, ok_at, world_in, Owns, SameFiles, Shrinks, Puts, Progress};
ghost use Rattle.texml_expand.specs.Fronts.{looked_at, LookedWithin};
ghost use Rattle.texml_assign.specs.Doing.{Does};
ghost use Rattle.texml_assign.specs.Fillers.{is_relax as spec_is_relax, fills as spec_fills, first_behind as spec_first_behind, past_equals as spec_past_equals, optional_equals as spec_optional_equals, put_looked as spec_put_looked, ignore_spaces as spec_ignore_spaces};

use crate::operands::is_equals;
use crate::sets::put_back;
use std::alloc::AllocError;
use texml_base::Files;
use texml_expand::{Engine, Looked, Stop, means_space};
use texml_scope::Meaning;
use texml_scope::builtins::RELAX;
use texml_token::Token;
use texml_watch::Teller;

/// What may stand before something: spaces, or spaces and `\relax`.
#[derive(Clone, Copy, Debug, PartialEq, Eq)]
pub enum Filler {
    Spaces,
    SpacesAndRelax,
}

// Whether a meaning is `\relax`.
fn is_relax(meaning: &Meaning) -> bool
    ensures { (texts : Table) → result ≡ spec_is_relax (meaning_at texts meaning.now) }
{
    match meaning {
        Meaning::Builtin(place) => *place == RELAX,
        _ => false,
    }
}

// Whether a meaning may stand there.
fn fills(filler: Filler, meaning: &Meaning) -> bool
    ensures { (texts : Table) → result ≡ spec_fills filler (meaning_at texts meaning.now) }
{
    match filler {
        Filler::Spaces => means_space(meaning),
        Filler::SpacesAndRelax => means_space(meaning) || is_relax(meaning),
    }
}

/// The first token behind those that may stand before it, or `None` at the end of what is to be read. Tokens are expanded as
/// they are looked at.
///
/// # Errors
///
/// The stops of the engine.
pub fn first_behind<F: Files, T: Teller>(
    engine: &mut Engine,
    files: &mut F,
    tell: &mut T,
    filler: Filler,
) -> Result<Option<Looked>, Stop>
    requires running { engine.old.stop ≡ None }
    requires sound { Sound engine.old }
    requires owns { Owns (F.shelf files.old) engine.old }
    ensures does { Does (hears T.wanting T.heard) (hears_part T.wanting T.part) (spec_first_behind filler) (ok_at (option_map (looked_at engine.new.names)) result) engine.old engine.new
        (outside (F.shelf files.old) (F.faults files.old) (T.faults tell.old) (T.loan tell.old)) (outside (F.shelf files.new) (F.faults files.new) (T.faults tell.new) (T.loan tell.new)) tell.old tell.new }
    ensures takes { IfOk result (λ o. Shrinks (length (option_to_list o)) (F.shelf files.old) engine.old (F.shelf files.new) engine.new) }
    ensures within { IfOk result (OptionWithin (LookedWithin (length engine.new.names))) }
{
    'rounds: loop {
        let begun = engine.begun();
        'tokens: loop {
            let looked = match engine.look(files, tell)? {
                Some(looked) => looked,
                None => return Ok(None),
            };
            let passes = match may_fill(engine, filler, looked.counts) {
                Ok(passes) => passes,
                Err(_) => return Err(engine.no_memory()),
            };
            if !passes {
                return Ok(Some(looked));
            }
            if engine.begun() != begun {
                break;
            }
        }
    }
}

// Whether a token may stand there.
fn may_fill(engine: &Engine, filler: Filler, token: Token) -> Result<bool, AllocError>
    requires sound { Sound engine.now }
    requires token { TokenWithin (length engine.now.names) token }
    ensures { IfOk result (λ b. b ≡ spec_fills filler (means (world_in engine.now) (token_at engine.now.names token))) }
{
    let meaning = engine.means(token)?;
    Ok(fills(filler, &meaning))
}

/// Passes over spaces and an equals sign, which may be missing. Tokens are expanded as they are looked at, and another one
/// goes back.
///
/// # Errors
///
/// The stops of the engine.
pub fn optional_equals<F: Files, T: Teller>(
    engine: &mut Engine,
    files: &mut F,
    tell: &mut T,
) -> Result<(), Stop>
    requires running { engine.old.stop ≡ None }
    requires sound { Sound engine.old }
    requires owns { Owns (F.shelf files.old) engine.old }
    ensures does { Does (hears T.wanting T.heard) (hears_part T.wanting T.part) spec_optional_equals result engine.old engine.new
        (outside (F.shelf files.old) (F.faults files.old) (T.faults tell.old) (T.loan tell.old)) (outside (F.shelf files.new) (F.faults files.new) (T.faults tell.new) (T.loan tell.new)) tell.old tell.new }
{
    let first = first_behind(engine, files, tell, Filler::Spaces)?;
    past_equals(engine, first)
}

// Puts a token that is no equals sign back.
fn past_equals(engine: &mut Engine, first: Option<Looked>) -> Result<(), Stop>
    requires running { engine.old.stop ≡ None }
    requires sound { Sound engine.old }
    requires first { OptionWithin (LookedWithin (length engine.old.names)) first }
    ensures is { Local (spec_past_equals (option_map (looked_at engine.old.names) first)) result engine.old engine.new }
    ensures kept { engine.new.stop ≡ stop_after result }
    ensures keeps { OnOk result (Kept engine.old engine.new) }
    ensures advances { Progress engine.old engine.new }
    ensures files { SameFiles engine.old engine.new }
    ensures puts { OnOk result (Puts (length (option_to_list first)) engine.old engine.new) }
{
    let Some(looked) = first else {
        return Ok(());
    };
    if is_equals(looked.counts) {
        return Ok(());
    }
    put_back(engine, looked.token)
}

/// Passes over spaces. Tokens are expanded as they are looked at, and the one behind the spaces goes back, from then on not kept
/// from being expanded (The TeXbook, chapter 24).
///
/// # Errors
///
/// The stops of the engine.
pub fn ignore_spaces<F: Files, T: Teller>(
    engine: &mut Engine,
    files: &mut F,
    tell: &mut T,
) -> Result<(), Stop>
    requires running { engine.old.stop ≡ None }
    requires sound { Sound engine.old }
    requires owns { Owns (F.shelf files.old) engine.old }
    ensures does { Does (hears T.wanting T.heard) (hears_part T.wanting T.part) spec_ignore_spaces result engine.old engine.new
        (outside (F.shelf files.old) (F.faults files.old) (T.faults tell.old) (T.loan tell.old)) (outside (F.shelf files.new) (F.faults files.new) (T.faults tell.new) (T.loan tell.new)) tell.old tell.new }
{
    let first = first_behind(engine, files, tell, Filler::Spaces)?;
    put_looked(engine, first)
}

// Puts a token that was looked at back, if there is one.
fn put_looked(engine: &mut Engine, looked: Option<Looked>) -> Result<(), Stop>
    requires running { engine.old.stop ≡ None }
    requires sound { Sound engine.old }
    requires looked { OptionWithin (LookedWithin (length engine.old.names)) looked }
    ensures is { Local (spec_put_looked (option_map (looked_at engine.old.names) looked)) result engine.old engine.new }
    ensures kept { engine.new.stop ≡ stop_after result }
    ensures keeps { OnOk result (Kept engine.old engine.new) }
    ensures advances { Progress engine.old engine.new }
    ensures files { SameFiles engine.old engine.new }
    ensures puts { OnOk result (Puts (length (option_to_list looked)) engine.old engine.new) }
{
    match looked {
        Some(looked) => put_back(engine, looked.token),
        None => Ok(()),
    }
}
