//! Definitions, and names that are let to mean something.

ghost use Rattle.std.specs.Prelude.{◌≡◌, length, None, IfOk, OnOk};
ghost use Rattle.texml_token.specs.Numbers.{Table, token_at, tokens_at, TokensWithin, BodyWithin};
ghost use Rattle.texml_scope.specs.Numbers.{meaning_at, MeaningWithin};
ghost use Rattle.texml_expand.specs.Contract.{Local, outside, stop_after};
ghost use Rattle.texml_expand.specs.Hearing.{hears, hears_part};
ghost use Rattle.texml_expand.specs.Held.{Sound, Kept, ok_at, Owns};
ghost use Rattle.texml_assign.specs.Doing.{Does};
ghost use Rattle.texml_assign.specs.Operands.{meant as spec_meant};
ghost use Rattle.texml_assign.specs.Parameters.{head_at};
ghost use Rattle.texml_assign.specs.TextFeeding.{HeadWithin};
ghost use Rattle.texml_assign.specs.Define.{parameter_text as spec_parameter_text, body_said as spec_body_said, next_body as spec_next_body, macro_of as spec_macro_of, defined as spec_defined, assigned};

use crate::operands::{meant, next_key};
use crate::parameters::{Head, ParameterText, body_of};
use crate::sets::assign;
use std::alloc::{AllocError, Global};
use texml_base::Files;
use texml_expand::{Engine, Stop};
use texml_scope::{Macro, Meaning};
use texml_token::{Params, Tokens, fault_code};
use texml_watch::Teller;

/// Reads a definition and makes it: a name, and the macro that it means from now on, whose body is expanded or not.
///
/// # Errors
///
/// The faults of its parts, and the stops of the engine.
pub fn define<F: Files, T: Teller>(
    alloc: Global,
    engine: &mut Engine,
    files: &mut F,
    tell: &mut T,
    global: bool,
    expanding: bool,
    long: bool,
) -> Result<(), Stop>
    requires running { engine.old.stop ≡ None }
    requires sound { Sound engine.old }
    requires owns { Owns (F.shelf files.old) engine.old }
    ensures does { Does (hears T.wanting T.heard) (hears_part T.wanting T.part) (assigned global (spec_defined expanding long)) result engine.old engine.new
        (outside (F.shelf files.old) (F.faults files.old) (T.faults tell.old) (T.loan tell.old)) (outside (F.shelf files.new) (F.faults files.new) (T.faults tell.new) (T.loan tell.new)) tell.old tell.new }
{
    let key = next_key(engine, files, tell)?;
    let meaning = defined(alloc, engine, files, tell, expanding, long)?;
    assign(engine, global, key, meaning)
}

/// Lets a name mean what a token means.
///
/// # Errors
///
/// The faults of its parts, and the stops of the engine.
pub fn let_to<F: Files, T: Teller>(
    engine: &mut Engine,
    files: &mut F,
    tell: &mut T,
    global: bool,
) -> Result<(), Stop>
    requires running { engine.old.stop ≡ None }
    requires sound { Sound engine.old }
    requires owns { Owns (F.shelf files.old) engine.old }
    ensures does { Does (hears T.wanting T.heard) (hears_part T.wanting T.part) (assigned global spec_meant) result engine.old engine.new
        (outside (F.shelf files.old) (F.faults files.old) (T.faults tell.old) (T.loan tell.old)) (outside (F.shelf files.new) (F.faults files.new) (T.faults tell.new) (T.loan tell.new)) tell.old tell.new }
{
    let key = next_key(engine, files, tell)?;
    let meaning = meant(engine, files, tell)?;
    assign(engine, global, key, meaning)
}

// The macro that a definition gives: a parameter text, and a body in braces, which is expanded or not.
fn defined<F: Files, T: Teller>(
    alloc: Global,
    engine: &mut Engine,
    files: &mut F,
    tell: &mut T,
    expanding: bool,
    long: bool,
) -> Result<Meaning, Stop>
    requires running { engine.old.stop ≡ None }
    requires sound { Sound engine.old }
    requires owns { Owns (F.shelf files.old) engine.old }
    ensures does { Does (hears T.wanting T.heard) (hears_part T.wanting T.part) (spec_defined expanding long) (ok_at (meaning_at engine.new.names) result) engine.old engine.new
        (outside (F.shelf files.old) (F.faults files.old) (T.faults tell.old) (T.loan tell.old)) (outside (F.shelf files.new) (F.faults files.new) (T.faults tell.new) (T.loan tell.new)) tell.old tell.new }
    ensures within { IfOk result (MeaningWithin (length engine.new.names)) }
{
    let head = parameter_text(alloc, engine, files, tell)?;
    let body = next_body(alloc, engine, files, tell, expanding, head.slots)?;
    match macro_of(long, head, body) {
        Ok(made) => Ok(Meaning::Macro(made)),
        Err(_) => Err(engine.no_memory()),
    }
}

// The parameter text that comes next, with the brace behind it.
fn parameter_text<F: Files, T: Teller>(
    alloc: Global,
    engine: &mut Engine,
    files: &mut F,
    tell: &mut T,
) -> Result<Head, Stop>
    requires running { engine.old.stop ≡ None }
    requires sound { Sound engine.old }
    requires owns { Owns (F.shelf files.old) engine.old }
    ensures does { Does (hears T.wanting T.heard) (hears_part T.wanting T.part) (λ n. spec_parameter_text) (ok_at (head_at engine.new.names) result) engine.old engine.new
        (outside (F.shelf files.old) (F.faults files.old) (T.faults tell.old) (T.loan tell.old)) (outside (F.shelf files.new) (F.faults files.new) (T.faults tell.new) (T.loan tell.new)) tell.old tell.new }
    ensures within { IfOk result (HeadWithin (length engine.new.names) 0) }
{
    let mut text = ParameterText::new(alloc);
    engine.read_by(files, tell, &mut text)
}

// The body that comes next of a macro with so many parameters, with the brace behind it; it is expanded or not.
fn next_body<F: Files, T: Teller>(
    alloc: Global,
    engine: &mut Engine,
    files: &mut F,
    tell: &mut T,
    expanding: bool,
    slots: u8,
) -> Result<Tokens, Stop>
    requires running { engine.old.stop ≡ None }
    requires sound { Sound engine.old }
    requires owns { Owns (F.shelf files.old) engine.old }
    ensures does { Does (hears T.wanting T.heard) (hears_part T.wanting T.part) (spec_next_body expanding slots) (ok_at (tokens_at engine.new.names) result) engine.old engine.new
        (outside (F.shelf files.old) (F.faults files.old) (T.faults tell.old) (T.loan tell.old)) (outside (F.shelf files.new) (F.faults files.new) (T.faults tell.new) (T.loan tell.new)) tell.old tell.new }
    ensures within { IfOk result (BodyWithin (length engine.new.names) slots) }
{
    let list = engine.absorb(files, tell, expanding)?;
    body_said(alloc, engine, slots, &list)
}

/// The body that tokens are for a macro with so many parameters, which must be one.
///
/// # Errors
///
/// `Tex` with fault 14 where something else stands behind a parameter character than another one or the number of a
/// parameter, and `NoMemory` where memory was refused.
pub fn body_said(
    alloc: Global,
    engine: &mut Engine,
    slots: u8,
    list: &Tokens,
) -> Result<Tokens, Stop>
    requires running { engine.old.stop ≡ None }
    requires sound { Sound engine.old }
    requires list { TokensWithin (length engine.old.names) list.now }
    ensures needs { Local (spec_body_said slots (tokens_at engine.old.names list.now)) (ok_at (tokens_at engine.new.names) result) engine.old engine.new }
    ensures kept { engine.new.stop ≡ stop_after result }
    ensures keeps { OnOk result (Kept engine.old engine.new) }
    ensures is { engine.new ≡ record engine.old { stop = engine.new.stop } }
    ensures within { IfOk result (BodyWithin (length engine.new.names) slots) }
{
    match body_of(alloc, slots, list) {
        Ok(Some(body)) => Ok(body),
        Ok(None) => Err(engine.bare_fault(fault_code::BAD_PARAMETER)),
        Err(_) => Err(engine.no_memory()),
    }
}

// A macro, long or not. A brace that ends its parameter text stands at the end of its body too.
fn macro_of(long: bool, head: Head, body: Tokens) -> Result<Macro, AllocError>
    ensures { IfOk result (λ made. made ≡ spec_macro_of long head body) }
{
    let mut body = body;
    if let Some(brace) = head.brace {
        body.push(brace)?;
    }
    let params = Params {
        default: None,
        pieces: head.pieces,
    };
    Ok(Macro { long, params, body })
}
