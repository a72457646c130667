//! Digests what an engine fetches: the operations that it gives.
ghost use Rattle.std.specs.Prelude.{◌≡◌, [], length, None, OnOk};
ghost use Rattle.std.specs.Char.{IsScalar};
ghost use Rattle.texml_token.specs.Numbers.{token_at, TokenWithin};
ghost use Rattle.texml_scope.specs.Numbers.{meaning_at, MeaningWithin};
ghost use Rattle.texml_expand.specs.State.{give};
ghost use Rattle.texml_expand.specs.Contract.{Local, outside, stop_after};
ghost use Rattle.texml_expand.specs.Hearing.{hears, hears_part};
ghost use Rattle.texml_expand.specs.Held.{Sound, Kept, ok_at, Owns, SameFiles, Puts, Progress};
ghost use Rattle.texml_assign.specs.Doing.{Does};
ghost use Rattle.texml_assign.specs.Loop.{On, loops};
ghost use Rattle.texml_assign.specs.declared.executing.Executed.TheVariants.{NotMine};
ghost use Rattle.texml_top.specs.Gather.{nothing_yet, all_of, ops_of};
ghost use Rattle.texml_top.specs.Digest.{digestion, digest_turn as spec_digest_turn, digest_token as spec_digest_token, digest_left as spec_digest_left, digest_meaning as spec_digest_meaning, word_at as spec_word_at, digest_word as spec_digest_word, digest_char as spec_digest_char, code as spec_code, char_number as spec_char_number, newline as spec_newline};

use crate::document::Document;
use crate::gather::{Gathered, Piece};
use crate::verb::verb;
use std::alloc::Global;
use texml_assign::{Executed, begin_group, end_group, execute};
use texml_base::Files;
use texml_expand::{Engine, Index, Stop};
use texml_scope::builtins::{CHAR, NEWLINE, PAR, SPACE, VERB};
use texml_scope::{GroupKind, Meaning};
use texml_token::{Token, category, fault_code};
use texml_watch::Teller;

const STAR: u32 = 42;

/// What a builtin does that is no command: it ends a paragraph, is a space, reads characters as they stand, ends a line, or
/// may not stand where it is digested.
#[derive(Clone, Copy, Debug, PartialEq, Eq)]
pub enum Word {
    ParagraphEnd,
    Space,
    CharNumber,
    Verb,
    Newline,
    Misplaced,
}

/// The operations of all that an engine gives, up to the end of what is to be read, taken by a document that has none.
///
/// # Errors
///
/// The stop of the engine: a fault of the text, the limit, or a failure.
pub fn digest<'c, 'a, F: Files, T: Teller>(
    alloc: Global,
    engine: &mut Engine,
    files: &mut F,
    tell: &mut T,
    ops: Document<'c, 'a>,
) -> Result<Document<'c, 'a>, Stop>
    requires running { engine.old.stop ≡ None }
    requires sound { Sound engine.old }
    requires owns { Owns (F.shelf files.old) engine.old }
    requires fresh { ops ≡ [] }
    ensures does { Does (hears T.wanting T.heard) (hears_part T.wanting T.part) (loops digestion nothing_yet) result engine.old engine.new
        (outside (F.shelf files.old) (F.faults files.old) (T.faults tell.old) (T.loan tell.old)) (outside (F.shelf files.new) (F.faults files.new) (T.faults tell.new) (T.loan tell.new)) tell.old tell.new }
{
    let mut seen = Gathered::new(alloc, ops);
    'rounds: loop {
        let begun = engine.begun();
        'tokens: loop {
            let token = match engine.fetch(files, tell)? {
                Some(token) => token,
                None => return end_of(alloc, engine, seen),
            };
            digest_turn(alloc, engine, files, tell, &mut seen, token)?;
            if engine.begun() != begun {
                break;
            }
        }
    }
}

// All that was gathered.
fn end_of<'c, 'a>(
    alloc: Global,
    engine: &mut Engine,
    seen: Gathered<'c, 'a>,
) -> Result<Document<'c, 'a>, Stop>
    requires running { engine.old.stop ≡ None }
    requires sound { Sound engine.old }
    ensures gives { Local (give (all_of seen.entry)) result engine.old engine.new }
    ensures kept { engine.new.stop ≡ stop_after result }
    ensures keeps { OnOk result (Kept engine.old engine.new) }
    ensures advances { Progress engine.old engine.new }
    ensures files { SameFiles engine.old engine.new }
    ensures puts { OnOk result (Puts 0 engine.old engine.new) }
{
    match seen.finish(alloc) {
        Ok(ops) => Ok(ops),
        Err(_) => Err(engine.no_memory()),
    }
}

// Does what a token that was fetched asks for, and gathers what it puts into the document.
#[inline(always)]
fn digest_turn<F: Files, T: Teller>(
    alloc: Global,
    engine: &mut Engine,
    files: &mut F,
    tell: &mut T,
    seen: &mut Gathered<'_, '_>,
    token: Token,
) -> Result<(), Stop>
    requires running { engine.old.stop ≡ None }
    requires sound { Sound engine.old }
    requires owns { Owns (F.shelf files.old) engine.old }
    requires token { TokenWithin (length engine.old.names) token }
    ensures does { Does (hears T.wanting T.heard) (hears_part T.wanting T.part) (spec_digest_turn seen.old (token_at engine.old.names token)) (ok_at (λ _. On seen.new) result) engine.old engine.new
        (outside (F.shelf files.old) (F.faults files.old) (T.faults tell.old) (T.loan tell.old)) (outside (F.shelf files.new) (F.faults files.new) (T.faults tell.new) (T.loan tell.new)) tell.old tell.new }
{
    let piece = digest_token(alloc, engine, files, tell, token)?;
    match seen.add(alloc, piece) {
        Ok(()) => Ok(()),
        Err(_) => Err(engine.no_memory()),
    }
}

// Does what a token that was fetched asks for: what it puts into the document.
#[inline(always)]
fn digest_token<F: Files, T: Teller>(
    alloc: Global,
    engine: &mut Engine,
    files: &mut F,
    tell: &mut T,
    token: Token,
) -> Result<Piece, Stop>
    requires running { engine.old.stop ≡ None }
    requires sound { Sound engine.old }
    requires owns { Owns (F.shelf files.old) engine.old }
    requires token { TokenWithin (length engine.old.names) token }
    ensures does { Does (hears T.wanting T.heard) (hears_part T.wanting T.part) (spec_digest_token (token_at engine.old.names token)) (ok_at ops_of result) engine.old engine.new
        (outside (F.shelf files.old) (F.faults files.old) (T.faults tell.old) (T.loan tell.old)) (outside (F.shelf files.new) (F.faults files.new) (T.faults tell.new) (T.loan tell.new)) tell.old tell.new }
{
    let done = execute(alloc, engine, files, tell, token)?;
    match done {
        Executed::Yes => Ok(Piece::Nothing),
        Executed::NotMine => digest_left(alloc, engine, files, tell, token),
    }
}

// Does what a token asks for that wasn't executed.
#[inline(always)]
fn digest_left<F: Files, T: Teller>(
    alloc: Global,
    engine: &mut Engine,
    files: &mut F,
    tell: &mut T,
    token: Token,
) -> Result<Piece, Stop>
    requires running { engine.old.stop ≡ None }
    requires sound { Sound engine.old }
    requires owns { Owns (F.shelf files.old) engine.old }
    requires token { TokenWithin (length engine.old.names) token }
    ensures does { Does (hears T.wanting T.heard) (hears_part T.wanting T.part) (spec_digest_left (token_at engine.old.names token) NotMine) (ok_at ops_of result) engine.old engine.new
        (outside (F.shelf files.old) (F.faults files.old) (T.faults tell.old) (T.loan tell.old)) (outside (F.shelf files.new) (F.faults files.new) (T.faults tell.new) (T.loan tell.new)) tell.old tell.new }
{
    if let Token::Char(code, category) = token {
        return digest_char(engine, code, category);
    }
    let meaning = match engine.means(token) {
        Ok(meaning) => meaning,
        Err(_) => return Err(engine.no_memory()),
    };
    digest_meaning(alloc, engine, files, tell, &meaning)
}

// Does what a meaning asks for that is no command.
fn digest_meaning<F: Files, T: Teller>(
    alloc: Global,
    engine: &mut Engine,
    files: &mut F,
    tell: &mut T,
    meaning: &Meaning,
) -> Result<Piece, Stop>
    requires running { engine.old.stop ≡ None }
    requires sound { Sound engine.old }
    requires owns { Owns (F.shelf files.old) engine.old }
    requires meaning { MeaningWithin (length engine.old.names) meaning.now }
    ensures does { Does (hears T.wanting T.heard) (hears_part T.wanting T.part) (spec_digest_meaning (meaning_at engine.old.names meaning.now)) (ok_at ops_of result) engine.old engine.new
        (outside (F.shelf files.old) (F.faults files.old) (T.faults tell.old) (T.loan tell.old)) (outside (F.shelf files.new) (F.faults files.new) (T.faults tell.new) (T.loan tell.new)) tell.old tell.new }
{
    match meaning {
        Meaning::Char(code, category) => digest_char(engine, *code, *category),
        Meaning::Number(code) => Ok(Piece::Char(char_of(*code))),
        Meaning::Builtin(place) => digest_word(alloc, engine, files, tell, word_at(*place)),
        _ => Err(engine.bare_fault(fault_code::MISPLACED)),
    }
}

// Does what a character asks for.
#[inline(always)]
fn digest_char(engine: &mut Engine, code: u32, category: u8) -> Result<Piece, Stop>
    requires running { engine.old.stop ≡ None }
    requires sound { Sound engine.old }
    requires scalar { IsScalar code }
    ensures digests { Local (spec_digest_char code category) (ok_at ops_of result) engine.old engine.new }
    ensures kept { engine.new.stop ≡ stop_after result }
    ensures keeps { OnOk result (Kept engine.old engine.new) }
    ensures advances { Progress engine.old engine.new }
    ensures files { SameFiles engine.old engine.new }
    ensures puts { OnOk result (Puts 0 engine.old engine.new) }
{
    match category {
        category::SPACE => Ok(Piece::Space),
        category::LETTER | category::OTHER => Ok(Piece::Char(char_of(code))),
        category::BEGIN_GROUP => {
            begin_group(engine, GroupKind::Brace)?;
            Ok(Piece::Nothing)
        }
        category::END_GROUP => {
            end_group(engine, GroupKind::Brace)?;
            Ok(Piece::Nothing)
        }
        _ => Err(engine.bare_fault(fault_code::MISPLACED)),
    }
}

// Does what a builtin that is no command asks for.
fn digest_word<F: Files, T: Teller>(
    alloc: Global,
    engine: &mut Engine,
    files: &mut F,
    tell: &mut T,
    word: Word,
) -> Result<Piece, Stop>
    requires running { engine.old.stop ≡ None }
    requires sound { Sound engine.old }
    requires owns { Owns (F.shelf files.old) engine.old }
    ensures does { Does (hears T.wanting T.heard) (hears_part T.wanting T.part) (spec_digest_word word) (ok_at ops_of result) engine.old engine.new
        (outside (F.shelf files.old) (F.faults files.old) (T.faults tell.old) (T.loan tell.old)) (outside (F.shelf files.new) (F.faults files.new) (T.faults tell.new) (T.loan tell.new)) tell.old tell.new }
{
    match word {
        Word::ParagraphEnd => Ok(Piece::ParagraphEnd),
        Word::Space => Ok(Piece::Space),
        Word::CharNumber => char_number(engine, files, tell),
        Word::Verb => code(alloc, engine, files, tell),
        Word::Newline => newline(engine, files, tell),
        Word::Misplaced => Err(engine.bare_fault(fault_code::MISPLACED)),
    }
}

// What the builtin of a place does.
fn word_at(place: u16) -> Word
    ensures { result ≡ spec_word_at place }
{
    match place {
        PAR => Word::ParagraphEnd,
        SPACE => Word::Space,
        CHAR => Word::CharNumber,
        VERB => Word::Verb,
        NEWLINE => Word::Newline,
        _ => Word::Misplaced,
    }
}

// Reads the number of a character.
fn char_number<F: Files, T: Teller>(
    engine: &mut Engine,
    files: &mut F,
    tell: &mut T,
) -> Result<Piece, Stop>
    requires running { engine.old.stop ≡ None }
    requires sound { Sound engine.old }
    requires owns { Owns (F.shelf files.old) engine.old }
    ensures does { Does (hears T.wanting T.heard) (hears_part T.wanting T.part) spec_char_number (ok_at ops_of result) engine.old engine.new
        (outside (F.shelf files.old) (F.faults files.old) (T.faults tell.old) (T.loan tell.old)) (outside (F.shelf files.new) (F.faults files.new) (T.faults tell.new) (T.loan tell.new)) tell.old tell.new }
{
    let code = engine.read_index(files, tell, Index::Character)?;
    Ok(Piece::Char(char_of(code)))
}

// Reads characters as they stand.
fn code<F: Files, T: Teller>(
    alloc: Global,
    engine: &mut Engine,
    files: &mut F,
    tell: &mut T,
) -> Result<Piece, Stop>
    requires running { engine.old.stop ≡ None }
    requires sound { Sound engine.old }
    requires owns { Owns (F.shelf files.old) engine.old }
    ensures does { Does (hears T.wanting T.heard) (hears_part T.wanting T.part) spec_code (ok_at ops_of result) engine.old engine.new
        (outside (F.shelf files.old) (F.faults files.old) (T.faults tell.old) (T.loan tell.old)) (outside (F.shelf files.new) (F.faults files.new) (T.faults tell.new) (T.loan tell.new)) tell.old tell.new }
{
    let text = verb(alloc, engine, files, tell)?;
    Ok(Piece::Code(text))
}

// Reads what may stand behind the end of a line, and drops it.
fn newline<F: Files, T: Teller>(
    engine: &mut Engine,
    files: &mut F,
    tell: &mut T,
) -> Result<Piece, Stop>
    requires running { engine.old.stop ≡ None }
    requires sound { Sound engine.old }
    requires owns { Owns (F.shelf files.old) engine.old }
    ensures does { Does (hears T.wanting T.heard) (hears_part T.wanting T.part) (λ n. spec_newline) (ok_at ops_of result) engine.old engine.new
        (outside (F.shelf files.old) (F.faults files.old) (T.faults tell.old) (T.loan tell.old)) (outside (F.shelf files.new) (F.faults files.new) (T.faults tell.new) (T.loan tell.new)) tell.old tell.new }
{
    let _star = engine.read_sign(files, tell, STAR)?;
    let _space = engine.read_optional(files, tell)?;
    Ok(Piece::Break)
}

// The character of a code.
fn char_of(code: u32) -> char
    requires { IsScalar code }
    ensures { result ≡ code }
{
    match char::from_u32(code) {
        Some(c) => c,
        None => unreachable!(),
    }
}
