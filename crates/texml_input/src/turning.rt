//! The frames of an input, and one turn at the front of them.
ghost use Rattle.std.specs.Prelude.{◌≡◌, ◌≤◌, ◌<◌, ℕ, ◌+◌, [], ◌∷◌, ◌++◌, length, vec_len, vec_capacity, IsTrue, MatchOption, IfSome, IfOk, OnOk, option_to_list};
ghost use Rattle.texml_token.specs.Numbers.{Extends, Numbered, Table};
ghost use Rattle.texml_scope.specs.Shown.{world_of};
ghost use Rattle.texml_input.specs.Codes.{cats_of, end_of};
ghost use Rattle.texml_input.specs.Rest.{no_place};
ghost use Rattle.texml_input.specs.Next.{place_at, next};
ghost use Rattle.texml_input.specs.Held.{File, Plain, ids_of, fences_of, aside_of, AreHeld, AreSound, AreLittle, SourcesWithin, rest_at, room_of, front_size};
ghost use Rattle.texml_input.specs.Keeping.{Holds, Spends, HasInputCause};
ghost use Rattle.texml_input.specs.Answers.{given_at, names_behind, GivenWithin, IsNext, LittleAfter, Loads, EndsAtFence};
ghost use Rattle.texml_input.specs.Inside.{sources_of, written};
ghost use Rattle.texml_input.specs.Turning.{TakesList, TakesPlain, Turns, turn_names, turn_bytes, TurnFalls, TurnWithin, TurnEnds};

use crate::codes::{ScopeCodes, end_character};
use crate::fault::{InputFault, Read};
use crate::file::{Found, OpenFile};
use crate::frame::{Expansion, Part};
use std::alloc::Global;
use std::marker::Model;
use std::rc::Rc;
use texml_base::Files;
use texml_mouth::MouthFault;
use texml_scope::Scope;
use texml_text::LineFault;
use texml_token::{Bytes, Names, Token};

// Where tokens come from.
#[derive(Debug, Drop)]
pub enum Frame {
    Token(Token),
    Frozen(Token),
    List(Part),
    Macro(Expansion),
    File(OpenFile),
    Fence,
}

// What a turn gives: a token, and whether it is kept from being expanded; nothing, since a frame had ended, a line was loaded
// or a file has ended; or nothing is left before the first fence.
#[derive(Clone, Copy, Debug)]
pub enum Turn {
    Token(Token, bool),
    Again,
    Loaded,
    Ended,
    End,
}

// The file and the number of the line last loaded.
#[derive(Debug, Drop)]
pub struct LinePlace {
    file: Option<Rc<Bytes>>,
    line: u64,
}

impl Model for LinePlace {
    ghost use Rattle.texml_input.specs.Rest.{Place};
    ghost use Rattle.texml_input.specs.Shared.{shared_name};

    ghost Value = { Place };

    ghost view = { λ p. record { file = shared_name p.file; line = p.line } };
}

impl LinePlace {
    // Before the first line.
    pub fn new() -> LinePlace
        ensures { result ≡ no_place }
    {
        LinePlace {
            file: None,
            line: 0,
        }
    }

    // At a line of a file.
    fn go(&mut self, file: Rc<Bytes>, line: u64)
        ensures { self.new ≡ place_at file.value line }
    {
        self.file = Some(file);
        self.line = line;
    }

    // The name of the file, and the number of the line.
    pub fn get(&self) -> (&[u8], u64)
        ensures file { result.0.now ≡ self.now.file }
        ensures line { result.1 ≡ self.now.line }
    {
        match &self.file {
            None => (&[], self.line),
            Some(file) => (file.as_slice(), self.line),
        }
    }
}

// Takes the next token before the first fence, if there is one.
pub fn next_read<F: Files>(
    frames: &mut Vec<Frame>,
    place: &mut LinePlace,
    alloc: Global,
    scope: &Scope,
    names: &mut Names,
    files: &mut F,
) -> Result<Option<Read>, InputFault>
    requires held { AreHeld (F.shelf files.old).ids (ids_of (sources_of frames.old.items)) }
    requires sound { AreSound (sources_of frames.old.items) }
    requires within { SourcesWithin (length names.old) (sources_of frames.old.items) }
    requires numbered { Numbered names.old }
    ensures next { IsTrue (F.shelf files.old).tells → IsNext (next (cats_of (world_of scope.now)) (end_of (world_of scope.now)) (rest_at names.old (F.shelf files.old) (sources_of frames.old.items)) place.old)
        (given_at names.new result) (rest_at names.new (F.shelf files.new) (sources_of frames.new.items)) place.new }
    ensures loads { IsTrue (F.shelf files.old).tells → AreLittle (sources_of frames.old.items) → Loads (F.shelf files.old) (F.shelf files.new) (sources_of frames.old.items) (sources_of frames.new.items)
        (next (cats_of (world_of scope.now)) (end_of (world_of scope.now)) (rest_at names.old (F.shelf files.old) (sources_of frames.old.items)) place.old) result }
    ensures little { AreLittle (sources_of frames.old.items) → LittleAfter result (sources_of frames.new.items) }
    ensures holds { Holds (F.shelf files.old) (F.shelf files.new) (sources_of frames.old.items) (sources_of frames.new.items) }
    ensures fences { fences_of (sources_of frames.new.items) ≡ fences_of (sources_of frames.old.items) }
    ensures aside { IsTrue (F.shelf files.old).tells → aside_of (F.shelf files.new) (sources_of frames.new.items) ≡ aside_of (F.shelf files.old) (sources_of frames.old.items) }
    ensures sound { OnOk result (AreSound (sources_of frames.new.items)) }
    ensures ends { EndsAtFence result (sources_of frames.new.items) }
    ensures cause { HasInputCause (F.faults files.old) (F.faults files.new) result }
    ensures names { names.new ≡ names_behind names.old (given_at names.new result) }
    ensures grows { Extends names.old names.new }
    ensures numbered { Numbered names.new }
    ensures within { SourcesWithin (length names.new) (sources_of frames.new.items) }
    ensures given { GivenWithin (length names.new) result }
    ensures lower { IfOk result (λ o. room_of (F.shelf files.new) (sources_of frames.new.items) + length (option_to_list o) ≤ room_of (F.shelf files.old) (sources_of frames.old.items)) }
{
    let mut crossed = false;
    loop {
        match take_turn(frames, place, alloc, scope, names, files) {
            Err(fault) => return Err(fault),
            Ok(Turn::End) => return Ok(None),
            Ok(Turn::Token(token, frozen)) => {
                return Ok(Some(Read {
                    token,
                    frozen,
                    crossed,
                }));
            }
            Ok(Turn::Again) => {}
            Ok(Turn::Loaded) => {}
            Ok(Turn::Ended) => crossed = true,
        }
    }
}

// A turn at the front of the frames, of which the last stands in front. A token that can be taken where its frame stands is taken
// there, so that no frame is moved.
pub fn take_turn<F: Files>(
    frames: &mut Vec<Frame>,
    place: &mut LinePlace,
    alloc: Global,
    scope: &Scope,
    names: &mut Names,
    files: &mut F,
) -> Result<Turn, InputFault>
    requires held { AreHeld (F.shelf files.old).ids (ids_of (sources_of frames.old.items)) }
    requires sound { AreSound (sources_of frames.old.items) }
    requires within { SourcesWithin (length names.old) (sources_of frames.old.items) }
    requires numbered { Numbered names.old }
    ensures turns { IsTrue (F.shelf files.old).tells → Turns (cats_of (world_of scope.now)) (end_of (world_of scope.now)) names.new
        (front_size (F.shelf files.old) (sources_of frames.old.items)) (front_size (F.shelf files.new) (sources_of frames.new.items))
        (rest_at names.old (F.shelf files.old) (sources_of frames.old.items)) place.old result
        (rest_at names.new (F.shelf files.new) (sources_of frames.new.items)) place.new }
    ensures holds { Holds (F.shelf files.old) (F.shelf files.new) (sources_of frames.old.items) (sources_of frames.new.items) }
    ensures fences { fences_of (sources_of frames.new.items) ≡ fences_of (sources_of frames.old.items) }
    ensures aside { IsTrue (F.shelf files.old).tells → aside_of (F.shelf files.new) (sources_of frames.new.items) ≡ aside_of (F.shelf files.old) (sources_of frames.old.items) }
    ensures sound { OnOk result (AreSound (sources_of frames.new.items)) }
    ensures within { SourcesWithin (length names.new) (sources_of frames.new.items) }
    ensures spends { IsTrue (F.shelf files.old).tells → AreLittle (sources_of frames.old.items) → Spends (F.shelf files.old) (F.shelf files.new) (sources_of frames.old.items) (sources_of frames.new.items)
        (turn_bytes result (front_size (F.shelf files.old) (sources_of frames.old.items))) }
    ensures little { AreLittle (sources_of frames.old.items) → LittleAfter result (sources_of frames.new.items) }
    ensures falls { IfOk result (λ turn. TurnFalls turn (room_of (F.shelf files.old) (sources_of frames.old.items)) (vec_len frames.old)
        (room_of (F.shelf files.new) (sources_of frames.new.items)) (vec_len frames.new)) }
    ensures cause { HasInputCause (F.faults files.old) (F.faults files.new) result }
    ensures names { names.new ≡ turn_names names.old names.new result }
    ensures grows { Extends names.old names.new }
    ensures numbered { Numbered names.new }
    ensures given { IfOk result (TurnWithin (length names.new)) }
    ensures ends { TurnEnds result (sources_of frames.new.items) }
{
    match plain_token(frames, scope) {
        Some(token) => Ok(Turn::Token(token, false)),
        None => {
            match list_token(frames) {
                Some(token) => Ok(Turn::Token(token, false)),
                None => whole_turn(frames, place, alloc, scope, names, files),
            }
        }
    }
}

// Takes the next token of the list in front, and the frame with the last one; else nothing changes.
fn list_token(frames: &mut Vec<Frame>) -> Option<Token>
    ensures takes { MatchOption result (sources_of frames.new.items ≡ sources_of frames.old.items) (λ t. sources_of frames.old.items ≡ Plain t ∷ sources_of frames.new.items) }
    ensures len { MatchOption result (vec_len frames.new ≡ vec_len frames.old) (λ _. vec_len frames.new ≤ vec_len frames.old) }
{
    let count = frames.len();
    if count == 0 {
        return None;
    }
    match next_of(&mut frames[count - 1]) {
        None => None,
        Some(token) => {
            drop_spent(frames);
            Some(token)
        }
    }
}

// Takes the next token of a frame that is a list; else nothing changes.
fn next_of(frame: &mut Frame) -> Option<Token>
    ensures { MatchOption result (written frame.new ≡ written frame.old) (λ t. written frame.old ≡ Plain t ∷ written frame.new) }
{
    match frame {
        Frame::List(part) => part.next(),
        Frame::Macro(expansion) => expansion.next(),
        _ => None,
    }
}

// Takes away the frame in front, if it is a list of which nothing is left.
fn drop_spent(frames: &mut Vec<Frame>)
    ensures same { sources_of frames.new.items ≡ sources_of frames.old.items }
    ensures len { vec_len frames.new ≤ vec_len frames.old }
{
    let count = frames.len();
    if count == 0 {
        return;
    }
    if is_spent(&frames[count - 1]) {
        frames.truncate(count - 1);
    }
}

// Whether a frame is a list of which nothing is left.
fn is_spent(frame: &Frame) -> bool
    ensures { IsTrue result → written frame.now ≡ [] }
{
    match frame {
        Frame::List(part) => part.is_empty(),
        Frame::Macro(expansion) => expansion.is_empty(),
        _ => false,
    }
}

// Takes the next token of the file in front, where one character tells it; else nothing changes.
fn plain_token(frames: &mut Vec<Frame>, scope: &Scope) -> Option<Token>
    ensures takes { TakesPlain (cats_of (world_of scope.now)) (sources_of frames.old.items) result (sources_of frames.new.items) }
    ensures len { vec_len frames.new ≡ vec_len frames.old }
{
    let count = frames.len();
    if count == 0 {
        return None;
    }
    if let Frame::File(file) = &mut frames[count - 1] {
        return file.plain_token(&ScopeCodes(scope));
    }
    None
}

// A turn at the front of the frames, whose first is moved.
fn whole_turn<F: Files>(
    frames: &mut Vec<Frame>,
    place: &mut LinePlace,
    alloc: Global,
    scope: &Scope,
    names: &mut Names,
    files: &mut F,
) -> Result<Turn, InputFault>
    requires held { AreHeld (F.shelf files.old).ids (ids_of (sources_of frames.old.items)) }
    requires sound { AreSound (sources_of frames.old.items) }
    requires within { SourcesWithin (length names.old) (sources_of frames.old.items) }
    requires numbered { Numbered names.old }
    ensures turns { IsTrue (F.shelf files.old).tells → Turns (cats_of (world_of scope.now)) (end_of (world_of scope.now)) names.new
        (front_size (F.shelf files.old) (sources_of frames.old.items)) (front_size (F.shelf files.new) (sources_of frames.new.items))
        (rest_at names.old (F.shelf files.old) (sources_of frames.old.items)) place.old result
        (rest_at names.new (F.shelf files.new) (sources_of frames.new.items)) place.new }
    ensures holds { Holds (F.shelf files.old) (F.shelf files.new) (sources_of frames.old.items) (sources_of frames.new.items) }
    ensures fences { fences_of (sources_of frames.new.items) ≡ fences_of (sources_of frames.old.items) }
    ensures aside { IsTrue (F.shelf files.old).tells → aside_of (F.shelf files.new) (sources_of frames.new.items) ≡ aside_of (F.shelf files.old) (sources_of frames.old.items) }
    ensures sound { OnOk result (AreSound (sources_of frames.new.items)) }
    ensures within { SourcesWithin (length names.new) (sources_of frames.new.items) }
    ensures spends { IsTrue (F.shelf files.old).tells → AreLittle (sources_of frames.old.items) → Spends (F.shelf files.old) (F.shelf files.new) (sources_of frames.old.items) (sources_of frames.new.items)
        (turn_bytes result (front_size (F.shelf files.old) (sources_of frames.old.items))) }
    ensures little { AreLittle (sources_of frames.old.items) → LittleAfter result (sources_of frames.new.items) }
    ensures falls { IfOk result (λ turn. TurnFalls turn (room_of (F.shelf files.old) (sources_of frames.old.items)) (vec_len frames.old)
        (room_of (F.shelf files.new) (sources_of frames.new.items)) (vec_len frames.new)) }
    ensures cause { HasInputCause (F.faults files.old) (F.faults files.new) result }
    ensures names { names.new ≡ turn_names names.old names.new result }
    ensures grows { Extends names.old names.new }
    ensures numbered { Numbered names.new }
    ensures given { IfOk result (TurnWithin (length names.new)) }
    ensures ends { TurnEnds result (sources_of frames.new.items) }
{
    match take_front(frames) {
        None => Ok(Turn::End),
        Some(Frame::Fence) => {
            put_last(frames, Frame::Fence);
            Ok(Turn::End)
        }
        Some(Frame::Token(token)) => Ok(Turn::Token(token, false)),
        Some(Frame::Frozen(token)) => Ok(Turn::Token(token, true)),
        Some(Frame::List(part)) => Ok(turn_list(frames, part)),
        Some(Frame::Macro(expansion)) => Ok(turn_macro(frames, expansion)),
        Some(Frame::File(file)) => { turn_file(frames, place, file, alloc, scope, names, files) }
    }
}

// Takes the first token of a list, which goes where it was the last.
fn turn_list(frames: &mut Vec<Frame>, part: Part) -> Turn
    requires { vec_len frames.old < vec_capacity frames.old }
    ensures taken { TakesList part (sources_of frames.old.items) result (sources_of frames.new.items) }
    ensures len { vec_len frames.new ≤ vec_len frames.old + 1 }
    ensures again { result ≡ Turn.Again → vec_len frames.new ≡ vec_len frames.old }
{
    let mut part = part;
    match part.next() {
        None => Turn::Again,
        Some(token) => {
            if !part.is_empty() {
                put_last(frames, Frame::List(part));
            }
            Turn::Token(token, false)
        }
    }
}

// The same of the body of a macro with its arguments.
fn turn_macro(frames: &mut Vec<Frame>, expansion: Expansion) -> Turn
    requires { vec_len frames.old < vec_capacity frames.old }
    ensures taken { TakesList expansion (sources_of frames.old.items) result (sources_of frames.new.items) }
    ensures len { vec_len frames.new ≤ vec_len frames.old + 1 }
    ensures again { result ≡ Turn.Again → vec_len frames.new ≡ vec_len frames.old }
{
    let mut expansion = expansion;
    match expansion.next() {
        None => Turn::Again,
        Some(token) => {
            if !expansion.is_empty() {
                put_last(frames, Frame::Macro(expansion));
            }
            Turn::Token(token, false)
        }
    }
}

// A turn of a file.
fn turn_file<F: Files>(
    frames: &mut Vec<Frame>,
    place: &mut LinePlace,
    file: OpenFile,
    alloc: Global,
    scope: &Scope,
    names: &mut Names,
    files: &mut F,
) -> Result<Turn, InputFault>
    requires held { AreHeld (F.shelf files.old).ids (ids_of (File file ∷ sources_of frames.old.items)) }
    requires sound { AreSound (File file ∷ sources_of frames.old.items) }
    requires room { vec_len frames.old < vec_capacity frames.old }
    requires within { SourcesWithin (length names.old) (sources_of frames.old.items) }
    ensures turns { IsTrue (F.shelf files.old).tells → Turns (cats_of (world_of scope.now)) (end_of (world_of scope.now)) names.new
        (front_size (F.shelf files.old) (File file ∷ sources_of frames.old.items)) (front_size (F.shelf files.new) (sources_of frames.new.items))
        (rest_at names.new (F.shelf files.old) (File file ∷ sources_of frames.old.items)) place.old result
        (rest_at names.new (F.shelf files.new) (sources_of frames.new.items)) place.new }
    ensures holds { Holds (F.shelf files.old) (F.shelf files.new) (File file ∷ sources_of frames.old.items) (sources_of frames.new.items) }
    ensures fences { fences_of (sources_of frames.new.items) ≡ fences_of (File file ∷ sources_of frames.old.items) }
    ensures aside { IsTrue (F.shelf files.old).tells → aside_of (F.shelf files.new) (sources_of frames.new.items) ≡ aside_of (F.shelf files.old) (File file ∷ sources_of frames.old.items) }
    ensures sound { OnOk result (AreSound (sources_of frames.new.items)) }
    ensures within { SourcesWithin (length names.new) (sources_of frames.new.items) }
    ensures spends { IsTrue (F.shelf files.old).tells → AreLittle (File file ∷ sources_of frames.old.items) → Spends (F.shelf files.old) (F.shelf files.new) (File file ∷ sources_of frames.old.items) (sources_of frames.new.items)
        (turn_bytes result (front_size (F.shelf files.old) (File file ∷ sources_of frames.old.items))) }
    ensures little { AreLittle (File file ∷ sources_of frames.old.items) → LittleAfter result (sources_of frames.new.items) }
    ensures falls { IfOk result (λ turn. TurnFalls turn (room_of (F.shelf files.old) (File file ∷ sources_of frames.old.items)) (1 + vec_len frames.old)
        (room_of (F.shelf files.new) (sources_of frames.new.items)) (vec_len frames.new)) }
    ensures cause { HasInputCause (F.faults files.old) (F.faults files.new) result }
    ensures names { names.new ≡ turn_names names.old names.new result }
    ensures grows { Extends names.old names.new }
    ensures numbered { Numbered names.new }
    ensures given { IfOk result (TurnWithin (length names.new)) }
    ensures ends { TurnEnds result (sources_of frames.new.items) }
{
    let mut file = file;
    match file.token(alloc, &ScopeCodes(scope), names) {
        Ok(Some(token)) => {
            put_last(frames, Frame::File(file));
            Ok(Turn::Token(token, false))
        }
        Ok(None) => {
            let end = end_character(scope);
            turn_line(frames, place, file, end, files)
        }
        Err(MouthFault::Invalid(code)) => {
            put_last(frames, Frame::File(file));
            Err(InputFault::Invalid(code))
        }
        Err(MouthFault::NoMemory) => {
            put_last(frames, Frame::File(file));
            Err(InputFault::NoMemory)
        }
    }
}

// The next line of a file is loaded, where nothing is left of the last one; or the file has ended, and is closed.
fn turn_line<F: Files>(
    frames: &mut Vec<Frame>,
    place: &mut LinePlace,
    file: OpenFile,
    end: Option<char>,
    files: &mut F,
) -> Result<Turn, InputFault>
    requires held { AreHeld (F.shelf files.old).ids (ids_of (File file ∷ sources_of frames.old.items)) }
    requires sound { AreSound (File file ∷ sources_of frames.old.items) }
    requires room { vec_len frames.old < vec_capacity frames.old }
    requires dry { file.spot.tail ≡ [] }
    ensures turns { IsTrue (F.shelf files.old).tells → (cats : ℕ → ℕ) (texts : Table) → Turns cats end texts
        (front_size (F.shelf files.old) (File file ∷ sources_of frames.old.items)) (front_size (F.shelf files.new) (sources_of frames.new.items))
        (rest_at texts (F.shelf files.old) (File file ∷ sources_of frames.old.items)) place.old result
        (rest_at texts (F.shelf files.new) (sources_of frames.new.items)) place.new }
    ensures holds { Holds (F.shelf files.old) (F.shelf files.new) (File file ∷ sources_of frames.old.items) (sources_of frames.new.items) }
    ensures fences { fences_of (sources_of frames.new.items) ≡ fences_of (File file ∷ sources_of frames.old.items) }
    ensures aside { IsTrue (F.shelf files.old).tells → aside_of (F.shelf files.new) (sources_of frames.new.items) ≡ aside_of (F.shelf files.old) (File file ∷ sources_of frames.old.items) }
    ensures sound { OnOk result (AreSound (sources_of frames.new.items)) }
    ensures within { (count : ℕ) → SourcesWithin count (sources_of frames.old.items) → SourcesWithin count (sources_of frames.new.items) }
    ensures spends { IsTrue (F.shelf files.old).tells → AreLittle (File file ∷ sources_of frames.old.items) → Spends (F.shelf files.old) (F.shelf files.new) (File file ∷ sources_of frames.old.items) (sources_of frames.new.items)
        (turn_bytes result (front_size (F.shelf files.old) (File file ∷ sources_of frames.old.items))) }
    ensures little { AreLittle (File file ∷ sources_of frames.old.items) → LittleAfter result (sources_of frames.new.items) }
    ensures falls { IfOk result (λ turn. TurnFalls turn (room_of (F.shelf files.old) (File file ∷ sources_of frames.old.items)) (1 + vec_len frames.old)
        (room_of (F.shelf files.new) (sources_of frames.new.items)) (vec_len frames.new)) }
    ensures cause { HasInputCause (F.faults files.old) (F.faults files.new) result }
    ensures names { (texts new : Table) → turn_names texts new result ≡ texts }
    ensures given { IfOk result (TurnWithin 0) }
    ensures ends { TurnEnds result (sources_of frames.new.items) }
{
    let mut file = file;
    let name = match file.name() {
        Ok(name) => name,
        Err(_) => {
            put_last(frames, Frame::File(file));
            return Err(InputFault::NoMemory);
        }
    };
    match file.load(files, end) {
        Ok(Found::Line) => {
            place.go(name, file.number());
            put_last(frames, Frame::File(file));
            Ok(Turn::Loaded)
        }
        Ok(Found::Nothing) => {
            files.close_file(file.id());
            Ok(Turn::Ended)
        }
        Err(LineFault::NotUtf8) => {
            place.go(name, file.number());
            put_last(frames, Frame::File(file));
            Err(InputFault::NotUtf8)
        }
        Err(LineFault::Failed) => {
            put_last(frames, Frame::File(file));
            Err(InputFault::Failed)
        }
        Err(LineFault::NoMemory) => {
            put_last(frames, Frame::File(file));
            Err(InputFault::NoMemory)
        }
    }
}

// Takes the frame in front, for which there is room again.
#[tactic(auto, using(crate::proofs::Sources::fronts))]
pub fn take_front(frames: &mut Vec<Frame>) -> Option<Frame>
    ensures sources { MatchOption result ((sources_of frames.old.items ≡ []) × (sources_of frames.new.items ≡ [])) (λ frame. sources_of frames.old.items ≡ written frame ++ sources_of frames.new.items) }
    ensures len { MatchOption result (vec_len frames.new ≡ vec_len frames.old) (λ _. vec_len frames.new + 1 ≡ vec_len frames.old) }
    ensures none { MatchOption result (frames.new.items ≡ []) (λ _. Unit {0}) }
    ensures room { IfSome result (λ _. vec_len frames.new < vec_capacity frames.new) }
    ensures capacity { vec_capacity frames.new ≡ vec_capacity frames.old }
{
    frames.pop()
}

// Puts a frame in front, for which there is room.
pub fn put_last(frames: &mut Vec<Frame>, frame: Frame)
    requires { vec_len frames.old < vec_capacity frames.old }
    ensures sources { sources_of frames.new.items ≡ written frame ++ sources_of frames.old.items }
    ensures len { vec_len frames.new ≡ vec_len frames.old + 1 }
    ensures capacity { vec_capacity frames.new ≡ vec_capacity frames.old }
{
    frames.push_reserved(frame);
}
