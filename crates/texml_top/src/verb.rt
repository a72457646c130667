//! Reads characters as they stand: the text of `\verb`.

ghost use Rattle.std.specs.Prelude.{◌≡◌, [], ◌∷◌, ◌++◌, length, None, IfOk, OnOk, OnErr};
ghost use Rattle.std.specs.Char.{IsScalar, encode_utf8};
ghost use Rattle.texml_base.specs.Rising.{add_up};
ghost use Rattle.texml_token.specs.Numbers.{token_at, TokenWithin};
ghost use Rattle.texml_expand.specs.State.{change};
ghost use Rattle.texml_expand.specs.Contract.{Local, outside, stop_after};
ghost use Rattle.texml_expand.specs.Hearing.{hears, hears_part};
ghost use Rattle.texml_expand.specs.Held.{Sound, Kept, Owns, SameFiles, Puts, Progress};
ghost use Rattle.texml_assign.specs.Doing.{Does};
ghost use Rattle.texml_top.specs.Verb.{all_other, char_of as spec_char_of, next_char as spec_next_char, delimiter as spec_delimiter, text_to as spec_text_to, verb_text as spec_verb_text, begin_verb as spec_begin_verb, end_verb as spec_end_verb, verb as spec_verb};

use std::alloc::{AllocError, Global};
use texml_assign::{begin_group, end_group, token_or_end};
use texml_base::{Files, Steps};
use texml_expand::{Engine, Stop};
use texml_scope::{GroupKind, Key, Value};
use texml_token::{Bytes, Token, category, fault_code};
use texml_watch::Teller;

/// The characters that are others there: space, tab, and those that begin with another meaning.
pub const SPECIALS: [char; 12] = [' ', '\t', '\\', '{', '}', '$', '&', '#', '^', '_', '%', '~'];

const STAR: u32 = 42;

const OTHER: i32 = category::OTHER as i32;

/// The text that stands between two times the same character, behind a star perhaps.
///
/// # Errors
///
/// `Tex` with fault 4 where the text ends before that, or a space of category 10 stands there, and with fault 18 at a name.
/// `NoMemory` where memory was refused.
pub fn verb<F: Files, T: Teller>(
    alloc: Global,
    engine: &mut Engine,
    files: &mut F,
    tell: &mut T,
) -> Result<Bytes, Stop>
    requires running { engine.old.stop ≡ None }
    requires sound { Sound engine.old }
    requires owns { Owns (F.shelf files.old) engine.old }
    ensures does { Does (hears T.wanting T.heard) (hears_part T.wanting T.part) spec_verb result engine.old engine.new
        (outside (F.shelf files.old) (F.faults files.old) (T.faults tell.old) (T.loan tell.old)) (outside (F.shelf files.new) (F.faults files.new) (T.faults tell.new) (T.loan tell.new)) tell.old tell.new }
{
    begin_verb(engine)?;
    let text = verb_text(alloc, engine, files, tell)?;
    end_verb(engine, text)
}

// Begins a group in which the specials are others.
fn begin_verb(engine: &mut Engine) -> Result<(), Stop>
    requires running { engine.old.stop ≡ None }
    requires sound { Sound engine.old }
    ensures begins { Local spec_begin_verb result engine.old engine.new }
    ensures kept { engine.new.stop ≡ stop_after result }
    ensures keeps { OnOk result (Kept engine.old engine.new) }
    ensures advances { Progress engine.old engine.new }
    ensures files { SameFiles engine.old engine.new }
    ensures puts { OnOk result (Puts 0 engine.old engine.new) }
{
    begin_group(engine, GroupKind::Begin)?;
    make_others(engine, &SPECIALS)
}

// Ends that group behind its text.
fn end_verb(engine: &mut Engine, text: Bytes) -> Result<Bytes, Stop>
    requires running { engine.old.stop ≡ None }
    requires sound { Sound engine.old }
    ensures ends { Local (spec_end_verb text) result engine.old engine.new }
    ensures kept { engine.new.stop ≡ stop_after result }
    ensures keeps { OnOk result (Kept engine.old engine.new) }
    ensures advances { Progress engine.old engine.new }
    ensures files { SameFiles engine.old engine.new }
    ensures puts { OnOk result (Puts 0 engine.old engine.new) }
{
    end_group(engine, GroupKind::Begin)?;
    Ok(text)
}

// Makes characters others in the innermost group.
fn make_others(engine: &mut Engine, characters: &[char]) -> Result<(), Stop>
    requires running { engine.old.stop ≡ None }
    requires sound { Sound engine.old }
    ensures sets { Local (change (all_other characters.now)) result engine.old engine.new }
    ensures kept { engine.new.stop ≡ stop_after result }
    ensures keeps { OnOk result (Kept engine.old engine.new) }
    ensures advances { Progress engine.old engine.new }
    ensures step { OnOk result (engine.new.writes ≡ add_up engine.old.writes (length characters.now)) }
    ensures files { SameFiles engine.old engine.new }
    ensures puts { OnOk result (Puts 0 engine.old engine.new) }
{
    for character in characters {
        make_other(engine, *character)?;
    }
    Ok(())
}

// Makes a character an other.
fn make_other(engine: &mut Engine, character: char) -> Result<(), Stop>
    requires running { engine.old.stop ≡ None }
    requires sound { Sound engine.old }
    ensures sets { Local (change (all_other (character ∷ []))) result engine.old engine.new }
    ensures kept { engine.new.stop ≡ stop_after result }
    ensures keeps { OnOk result (Kept engine.old engine.new) }
    ensures advances { Progress engine.old engine.new }
    ensures step { OnOk result (engine.new.writes ≡ add_up engine.old.writes 1) }
    ensures no_step { OnErr result (engine.new.writes ≡ engine.old.writes) }
    ensures files { SameFiles engine.old engine.new }
    ensures puts { OnOk result (Puts 0 engine.old engine.new) }
{
    let mut steps = Steps::new();
    let key = Key::Cat(character as u32);
    let set = engine.scope().set(key, Value::Number(OTHER), &mut steps);
    engine.wrote(&steps);
    match set {
        Ok(()) => Ok(()),
        Err(_) => Err(engine.no_memory()),
    }
}

// The text up to the character that ends it.
fn verb_text<F: Files, T: Teller>(
    alloc: Global,
    engine: &mut Engine,
    files: &mut F,
    tell: &mut T,
) -> Result<Bytes, Stop>
    requires running { engine.old.stop ≡ None }
    requires sound { Sound engine.old }
    requires owns { Owns (F.shelf files.old) engine.old }
    ensures does { Does (hears T.wanting T.heard) (hears_part T.wanting T.part) spec_verb_text result engine.old engine.new
        (outside (F.shelf files.old) (F.faults files.old) (T.faults tell.old) (T.loan tell.old)) (outside (F.shelf files.new) (F.faults files.new) (T.faults tell.new) (T.loan tell.new)) tell.old tell.new }
{
    let end = delimiter(engine, files, tell)?;
    text_to(alloc, engine, files, tell, end)
}

// The character that ends the text: the first, or where that is a star the second.
fn delimiter<F: Files, T: Teller>(
    engine: &mut Engine,
    files: &mut F,
    tell: &mut T,
) -> Result<u32, Stop>
    requires running { engine.old.stop ≡ None }
    requires sound { Sound engine.old }
    requires owns { Owns (F.shelf files.old) engine.old }
    ensures does { Does (hears T.wanting T.heard) (hears_part T.wanting T.part) (λ n. spec_delimiter) result engine.old engine.new
        (outside (F.shelf files.old) (F.faults files.old) (T.faults tell.old) (T.loan tell.old)) (outside (F.shelf files.new) (F.faults files.new) (T.faults tell.new) (T.loan tell.new)) tell.old tell.new }
{
    let first = next_char(engine, files, tell)?;
    if first != STAR {
        return Ok(first);
    }
    next_char(engine, files, tell)
}

// The text up to this character.
fn text_to<F: Files, T: Teller>(
    alloc: Global,
    engine: &mut Engine,
    files: &mut F,
    tell: &mut T,
    end: u32,
) -> Result<Bytes, Stop>
    requires running { engine.old.stop ≡ None }
    requires sound { Sound engine.old }
    requires owns { Owns (F.shelf files.old) engine.old }
    ensures does { Does (hears T.wanting T.heard) (hears_part T.wanting T.part) (spec_text_to end) result engine.old engine.new
        (outside (F.shelf files.old) (F.faults files.old) (T.faults tell.old) (T.loan tell.old)) (outside (F.shelf files.new) (F.faults files.new) (T.faults tell.new) (T.loan tell.new)) tell.old tell.new }
{
    let mut text = Bytes::new(alloc);
    'tokens: loop {
        let token = match token_or_end(engine, files, tell)? {
            Some(token) => token,
            None => return Err(engine.bare_fault(fault_code::FILE_ENDED)),
        };
        let code = char_of(engine, token)?;
        if code == end {
            return Ok(text);
        }
        match push_char(&mut text, code) {
            Ok(()) => {}
            Err(_) => return Err(engine.no_memory()),
        }
    }
}

// The next character. There must be one.
fn next_char<F: Files, T: Teller>(
    engine: &mut Engine,
    files: &mut F,
    tell: &mut T,
) -> Result<u32, Stop>
    requires running { engine.old.stop ≡ None }
    requires sound { Sound engine.old }
    requires owns { Owns (F.shelf files.old) engine.old }
    ensures does { Does (hears T.wanting T.heard) (hears_part T.wanting T.part) (λ n. spec_next_char) result engine.old engine.new
        (outside (F.shelf files.old) (F.faults files.old) (T.faults tell.old) (T.loan tell.old)) (outside (F.shelf files.new) (F.faults files.new) (T.faults tell.new) (T.loan tell.new)) tell.old tell.new }
{
    match token_or_end(engine, files, tell)? {
        Some(token) => char_of(engine, token),
        None => Err(engine.bare_fault(fault_code::FILE_ENDED)),
    }
}

// The character of a token.
fn char_of(engine: &mut Engine, token: Token) -> Result<u32, Stop>
    requires running { engine.old.stop ≡ None }
    requires sound { Sound engine.old }
    requires token { TokenWithin (length engine.old.names) token }
    ensures gives { Local (spec_char_of (token_at engine.old.names token)) result engine.old engine.new }
    ensures kept { engine.new.stop ≡ stop_after result }
    ensures keeps { OnOk result (Kept engine.old engine.new) }
    ensures is { engine.new ≡ record engine.old { stop = engine.new.stop } }
    ensures scalar { IfOk result IsScalar }
{
    match token {
        Token::Char(_, category::SPACE) => Err(engine.bare_fault(fault_code::FILE_ENDED)),
        Token::Char(code, _) => Ok(code),
        Token::Active(code) => Ok(code),
        _ => Err(engine.bare_fault(fault_code::MISPLACED)),
    }
}

// Appends a character.
fn push_char(text: &mut Bytes, code: u32) -> Result<(), AllocError>
    requires { IsScalar code }
    ensures { OnOk result (text.new ≡ text.old ++ encode_utf8 code) }
{
    match char::from_u32(code) {
        Some(c) => {
            let mut buffer = [0; 4];
            text.extend(c.encode_utf8(&mut buffer).as_bytes())
        }
        None => unreachable!(),
    }
}
