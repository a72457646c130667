//! New conditionals.

ghost use Rattle.std.specs.Prelude.{◌≡◌, ◌++◌, length, map, None, IfOk, IfErr, IfSome, OnOk};
ghost use Rattle.std.specs.List.{All};
ghost use Rattle.std.specs.Char.{IsScalar};
ghost use Rattle.texml_base.specs.Outside.{Shelf};
ghost use Rattle.texml_token.specs.Numbers.{token_at, Extends, Numbered, TokenWithin};
ghost use Rattle.texml_token.specs.declared.tokens.Token.{Token as TokenCode};
ghost use Rattle.texml_scope.specs.Numbers.{name_text, IsGiven};
ghost use Rattle.texml_expand.specs.State.{change};
ghost use Rattle.texml_expand.specs.Contract.{Local, outside, stop_after};
ghost use Rattle.texml_expand.specs.Hearing.{hears, hears_part};
ghost use Rattle.texml_expand.specs.Held.{state_of, Sound, Kept, Owns, SameFiles, Puts, Progress};
ghost use Rattle.texml_assign.specs.Doing.{Does};
ghost use Rattle.texml_assign.specs.ConditionalNames.{IsName, AreNames};
ghost use Rattle.texml_assign.specs.NewIf.{behind_if as spec_behind_if, part_in as spec_part_in, needed_part as spec_needed_part, let_name as spec_let_name, define_name as spec_define_name, conditional as spec_conditional, new_if_of as spec_new_if_of, new_if as spec_new_if};

use crate::operands::next_token;
use crate::sets::assign;
use std::alloc::{AllocError, Global};
use texml_base::Files;
use texml_expand::{Engine, Stop};
use texml_scope::{Key, Meaning, plain_macro};
use texml_token::{Line, Name, Names, Token, Tokens, fault_code};
use texml_watch::Teller;

// The codes of `if`, with which the name of a conditional begins.
const IF: [u32; 2] = [105, 102];

// The codes of `let`.
const LET: [u32; 3] = [108, 101, 116];

// The codes of `true`.
const TRUE: [u32; 4] = [116, 114, 117, 101];

// The codes of `false`.
const FALSE: [u32; 5] = [102, 97, 108, 115, 101];

/// The names that make a conditional: its own, those of the macros by which it becomes true and false, and those that stand
/// in these macros.
#[derive(Clone, Copy, Debug)]
pub struct ConditionalNames {
    pub test: Name,
    pub set_true: Name,
    pub set_false: Name,
    pub lets: Name,
    pub if_true: Name,
    pub if_false: Name,
}

/// Makes a conditional: the name that comes next, which begins with `if`, means what `\iffalse` means, and with `true` and
/// `false` at its end in place of that `if` it is two macros that let it be `\iftrue` and `\iffalse` (The TeXbook, chapter 20).
///
/// # Errors
///
/// `Tex` with fault 14 where another token comes, with fault 4 where none comes, and the stops of the engine.
pub fn new_if<F: Files, T: Teller>(
    alloc: Global,
    engine: &mut Engine,
    files: &mut F,
    tell: &mut T,
) -> Result<(), Stop>
    requires running { engine.old.stop ≡ None }
    requires sound { Sound engine.old }
    requires owns { Owns (F.shelf files.old) engine.old }
    ensures does { Does (hears T.wanting T.heard) (hears_part T.wanting T.part) (λ n. spec_new_if) result engine.old engine.new
        (outside (F.shelf files.old) (F.faults files.old) (T.faults tell.old) (T.loan tell.old)) (outside (F.shelf files.new) (F.faults files.new) (T.faults tell.new) (T.loan tell.new)) tell.old tell.new }
{
    let token = next_token(engine, files, tell)?;
    new_if_of(alloc, engine, token)
}

// Makes the conditional that a token names.
fn new_if_of(alloc: Global, engine: &mut Engine, token: Token) -> Result<(), Stop>
    requires running { engine.old.stop ≡ None }
    requires sound { Sound engine.old }
    requires token { TokenWithin (length engine.old.names) token }
    ensures makes { Local (spec_new_if_of (token_at engine.old.names token)) result engine.old engine.new }
    ensures kept { engine.new.stop ≡ stop_after result }
    ensures keeps { OnOk result (Kept engine.old engine.new) }
    ensures advances { Progress engine.old engine.new }
    ensures files { SameFiles engine.old engine.new }
    ensures puts { OnOk result (Puts 0 engine.old engine.new) }
{
    let part = needed_part(alloc, engine, token)?;
    conditional(alloc, engine, &part)
}

// What stands behind the `if` in the name that a token must be.
fn needed_part(alloc: Global, engine: &mut Engine, token: Token) -> Result<Line, Stop>
    requires running { engine.old.stop ≡ None }
    requires sound { Sound engine.old }
    requires token { TokenWithin (length engine.old.names) token }
    ensures needs { Local (spec_needed_part (spec_part_in (token_at engine.old.names token))) result engine.old engine.new }
    ensures kept { engine.new.stop ≡ stop_after result }
    ensures keeps { OnOk result (Kept engine.old engine.new) }
    ensures is { engine.new ≡ record engine.old { stop = engine.new.stop } }
    ensures scalars { IfOk result (All IsScalar) }
{
    match part_in(alloc, engine.names(), token) {
        Ok(Some(part)) => Ok(part),
        Ok(None) => Err(engine.bare_fault(fault_code::BAD_PARAMETER)),
        Err(_) => Err(engine.no_memory()),
    }
}

// What stands behind the `if` in the name that a token is, if it is one that begins so.
fn part_in(alloc: Global, names: &Names, token: Token) -> Result<Option<Line>, AllocError>
    requires token { TokenWithin (length names.now) token }
    ensures is { IfOk result (λ part. part ≡ spec_part_in (token_at names.now token)) }
    ensures scalars { IfOk result (λ part. IfSome part (All IsScalar)) }
{
    match token {
        Token::Named(Name(0)) => Ok(None),
        Token::Named(name) => behind_if(alloc, names.text(name)),
        _ => Ok(None),
    }
}

// What stands behind the `if` that a text begins with, if it does.
fn behind_if(alloc: Global, text: &[u32]) -> Result<Option<Line>, AllocError>
    requires text { All IsScalar text.now }
    ensures is { IfOk result (λ part. part ≡ spec_behind_if text.now) }
    ensures scalars { IfOk result (λ part. IfSome part (All IsScalar)) }
{
    match text {
        [first, second, part @ ..] if *first == IF[0] && *second == IF[1] => {
            Ok(Some(Line::from_slice(alloc, part)?))
        }
        _ => Ok(None),
    }
}

// Makes the conditional with this text behind the `if` of its name. It is false at first.
fn conditional(alloc: Global, engine: &mut Engine, part: &Line) -> Result<(), Stop>
    requires running { engine.old.stop ≡ None }
    requires sound { Sound engine.old }
    requires part { All IsScalar part.now }
    ensures makes { Local (spec_conditional part.now) result engine.old engine.new }
    ensures kept { engine.new.stop ≡ stop_after result }
    ensures keeps { OnOk result (Kept engine.old engine.new) }
    ensures advances { Progress engine.old engine.new }
    ensures files { SameFiles engine.old engine.new }
    ensures puts { OnOk result (Puts 0 engine.old engine.new) }
{
    let names = give_names(alloc, engine, part)?;
    let set_true = [names.lets, names.test, names.if_true];
    let set_false = [names.lets, names.test, names.if_false];
    let_name(engine, names.test, names.if_false)?;
    define_name(alloc, engine, names.set_true, &set_true)?;
    define_name(alloc, engine, names.set_false, &set_false)
}

// Gives the names that make a conditional.
fn give_names(alloc: Global, engine: &mut Engine, part: &Line) -> Result<ConditionalNames, Stop>
    requires running { engine.old.stop ≡ None }
    requires sound { Sound engine.old }
    requires part { All IsScalar part.now }
    ensures are { IfOk result (AreNames engine.new.names part.now) }
    ensures same { OnOk result ((shelf : Shelf) → state_of shelf engine.new ≡ state_of shelf engine.old) }
    ensures memory { IfErr result (λ stop. stop ≡ Stop.NoMemory) }
    ensures kept { engine.new.stop ≡ stop_after result }
    ensures keeps { OnOk result (Kept engine.old engine.new) }
    ensures advances { Progress engine.old engine.new }
    ensures files { SameFiles engine.old engine.new }
    ensures puts { OnOk result (Puts 0 engine.old engine.new) }
{
    match conditional_names(alloc, engine.names(), part.as_slice()) {
        Ok(names) => Ok(names),
        Err(_) => Err(engine.no_memory()),
    }
}

// The names that make a conditional.
fn conditional_names(
    alloc: Global,
    names: &mut Names,
    part: &[u32],
) -> Result<ConditionalNames, AllocError>
    requires part { All IsScalar part.now }
    ensures are { IfOk result (AreNames names.new part.now) }
    ensures grows { Extends names.old names.new }
    ensures numbered { Numbered names.new }
{
    let test = joined_name(alloc, names, &IF, part)?;
    let set_true = joined_name(alloc, names, part, &TRUE)?;
    let set_false = joined_name(alloc, names, part, &FALSE)?;
    let lets = joined_name(alloc, names, &LET, &[])?;
    let if_true = joined_name(alloc, names, &IF, &TRUE)?;
    let if_false = joined_name(alloc, names, &IF, &FALSE)?;
    Ok(ConditionalNames {
        test,
        set_true,
        set_false,
        lets,
        if_true,
        if_false,
    })
}

// The name of two texts, one behind the other.
fn joined_name(
    alloc: Global,
    names: &mut Names,
    first: &[u32],
    last: &[u32],
) -> Result<Name, AllocError>
    requires first { All IsScalar first.now }
    requires last { All IsScalar last.now }
    ensures is { IfOk result (IsName names.new (first.now ++ last.now)) }
    ensures grows { Extends names.old names.new }
    ensures numbered { Numbered names.new }
{
    let _given = names.given();
    let mut text = Line::from_slice(alloc, first)?;
    for code in last {
        text.push(*code)?;
    }
    names.intern(&text)
}

// Lets a name mean what another one means.
fn let_name(engine: &mut Engine, name: Name, other: Name) -> Result<(), Stop>
    requires running { engine.old.stop ≡ None }
    requires sound { Sound engine.old }
    requires name { IsGiven (length engine.old.names) name }
    requires other { IsGiven (length engine.old.names) other }
    ensures lets { Local (change (spec_let_name (name_text engine.old.names name) (name_text engine.old.names other))) result engine.old engine.new }
    ensures kept { engine.new.stop ≡ stop_after result }
    ensures keeps { OnOk result (Kept engine.old engine.new) }
    ensures advances { Progress engine.old engine.new }
    ensures files { SameFiles engine.old engine.new }
    ensures puts { OnOk result (Puts 0 engine.old engine.new) }
{
    let meaning = match engine.means(Token::Named(other)) {
        Ok(meaning) => meaning,
        Err(_) => return Err(engine.no_memory()),
    };
    assign(engine, false, Key::Name(name), meaning)
}

// Makes a name a macro of these names.
fn define_name(alloc: Global, engine: &mut Engine, name: Name, body: &[Name]) -> Result<(), Stop>
    requires running { engine.old.stop ≡ None }
    requires sound { Sound engine.old }
    requires name { IsGiven (length engine.old.names) name }
    requires body { All (IsGiven (length engine.old.names)) body.now }
    ensures defines { Local (change (spec_define_name (name_text engine.old.names name) (map (name_text engine.old.names) body.now))) result engine.old engine.new }
    ensures kept { engine.new.stop ≡ stop_after result }
    ensures keeps { OnOk result (Kept engine.old engine.new) }
    ensures advances { Progress engine.old engine.new }
    ensures files { SameFiles engine.old engine.new }
    ensures puts { OnOk result (Puts 0 engine.old engine.new) }
{
    let body = match tokens_of(alloc, body) {
        Ok(body) => body,
        Err(_) => return Err(engine.no_memory()),
    };
    assign(
        engine,
        false,
        Key::Name(name),
        Meaning::Macro(plain_macro(alloc, body)),
    )
}

// The tokens of these names.
fn tokens_of(alloc: Global, names: &[Name]) -> Result<Tokens, AllocError>
    ensures { IfOk result (λ list. list ≡ map TokenCode.Named names.now) }
{
    let mut list = Tokens::new(alloc);
    for name in names {
        list.push(Token::Named(*name))?;
    }
    Ok(list)
}
