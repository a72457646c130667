//! The lines of a file, read in blocks.
ghost use Rattle.std.specs.Prelude.{◌≡◌, ◌≤◌, ◌<◌, ℕ, ◌+◌, ◌==◌, [], ◌++◌, length, position, true, false, IsTrue, None, Err, MatchOption, IfSome, IfOk, IfErr, OnOk, vec_len, vec_capacity};
ghost use Rattle.std.specs.Char.{IsScalar};
ghost use Rattle.std.specs.List.{All};
ghost use Rattle.std.specs.Str.{chars};
ghost use Rattle.std.specs.Str.Lines.{strip_carriage_return};
ghost use Rattle.texml_base.specs.Outside.{in_use};
ghost use Rattle.texml_text.specs.Lines.{line_feed, loaded};
ghost use Rattle.texml_text.specs.File.{begins_with_mark, character};
ghost use Rattle.texml_text.specs.Reader.{fresh_reader, rows_left, GivesLine, number_after, fault_after, Touches, room, weight, bytes_loaded, Spends, block, has_feed, past_line, HoldsLittle, HasLineCause};
ghost use Rattle.texml_text.specs.Inside.{Filled, Cuts, CutsNone, Loads, passed};

use crate::lines::{chars_of, load};
use std::alloc::{AllocError, Global};
use std::marker::Model;
use std::str;
use texml_base::{Files, Trouble};
use texml_token::Line;

// How many bytes are read at once.
const BLOCK: usize = 4096;

// How many bytes a byte order mark has.
const MARK_SIZE: usize = 3;

/// Why there is no next line.
#[derive(Clone, Copy, Debug, PartialEq, Eq)]
pub enum LineFault {
    /// The line is not UTF-8.
    NotUtf8,
    /// The files failed: their count of faults rose.
    Failed,
    /// There is no memory.
    NoMemory,
}

impl From<AllocError> for LineFault {
    ghost use Rattle.std.specs.Prelude.{◌≡◌};
    ghost use Rattle.texml_text.specs.declared.reader.LineFault.TheVariants.{NoMemory};

    ghost from_gives = { λ _ fault. fault ≡ NoMemory };

    fn from(_error: AllocError) -> LineFault {
        LineFault::NoMemory
    }
}

/// Reads the lines of an open file.
#[derive(Debug, Drop)]
pub struct LineReader {
    id: u32,
    // The bytes that the file has given, but for those of earlier blocks.
    bytes: Vec<u8>,
    // How many of them are in lines that were taken.
    at: usize,
    // No line was taken.
    fresh: bool,
    number: u64,
    fault: Option<LineFault>,
}

impl Model for LineReader {
    ghost use Rattle.std.specs.Prelude.{◌≤◌, drop, length};
    ghost use Rattle.texml_text.specs.Reader.{Reader};

    ghost Value = { Reader };

    ghost view = { λ r. record { id = r.id; held = drop r.at r.bytes.items; fresh = r.fresh; number = r.number; fault = r.fault } };

    ghost invariant = { λ r. r.at ≤ length r.bytes.items };
}

impl LineReader {
    /// A reader of the lines of an open file, of which nothing was read. It takes no memory.
    pub fn new(alloc: Global, id: u32) -> LineReader
        ensures { result ≡ fresh_reader id }
    {
        LineReader {
            id,
            bytes: Vec::new(alloc),
            at: 0,
            fresh: true,
            number: 0,
            fault: None,
        }
    }

    /// The id of the file.
    pub fn id(&self) -> u32
        ensures { result ≡ self.now.id }
    {
        self.id
    }

    /// The number of the line last taken, from 1 on, or 0 before the first. It stops at the greatest u64.
    pub fn number(&self) -> u64
        ensures { result ≡ self.now.number }
    {
        self.number
    }

    /// The next line, without the spaces at its end, and with the character of the number `end_char` there, if it is the code
    /// of one; or None where no line is left (The TeXbook, chapter 8). A line ends at a line feed, and a carriage return just
    /// before that goes; so does a byte order mark at the start of the file.
    ///
    /// The file is read in blocks of 4096 bytes, and only where the bytes at hand have no whole line.
    ///
    /// # Errors
    ///
    /// - `NotUtf8` where this line is not UTF-8. The number is that of this line.
    /// - `Failed` where the files failed.
    /// - `NoMemory` where there is no memory for the line.
    ///
    /// After an error the reader stays as it is, and answers that error from then on.
    pub fn next_line<F: Files>(
        &mut self,
        files: &mut F,
        end_char: i32,
    ) -> Result<Option<Line>, LineFault>
        requires { IsTrue (in_use (F.shelf files.old).ids self.old.id) }
        ensures id { self.new.id ≡ self.old.id }
        ensures touches { Touches (F.shelf files.old) (F.shelf files.new) self.old.id }
        ensures lines { self.old.fault ≡ None → IsTrue (F.shelf files.old).tells → GivesLine (character end_char) (rows_left (F.shelf files.old) self.old) result (rows_left (F.shelf files.new) self.new) }
        ensures number { self.old.fault ≡ None → self.new.number ≡ number_after result self.old.number }
        ensures scalars { IfOk result (λ o. IfSome o (All IsScalar)) }
        ensures lower { IfOk result (λ o. room (F.shelf files.new) self.new + weight o ≤ room (F.shelf files.old) self.old) }
        ensures spends { self.old.fault ≡ None → IsTrue (F.shelf files.old).tells → Spends (F.shelf files.old) (F.shelf files.new) (length self.old.held) (bytes_loaded result (rows_left (F.shelf files.old) self.old)) (length self.new.held) }
        ensures little { self.old.fault ≡ None → length self.old.held ≤ block → HoldsLittle result self.new.held }
        ensures cause { self.old.fault ≡ None → HasLineCause (F.faults files.old) (F.faults files.new) result }
        ensures at_hand { self.old.fault ≡ None → has_feed self.old.held ≡ true → (F.shelf files.new ≡ F.shelf files.old) × (F.faults files.new ≡ F.faults files.old) }
        ensures fault { self.old.fault ≡ None → self.new.fault ≡ fault_after result }
        ensures stays { IfSome self.old.fault (λ fault. (result ≡ Err fault) × (self.new ≡ self.old) × (F.shelf files.new ≡ F.shelf files.old) × (F.faults files.new ≡ F.faults files.old)) }
    {
        if let Some(fault) = self.fault {
            return Err(fault);
        }
        let answer = self.line(files, character(end_char));
        if let Err(fault) = answer {
            self.fault = Some(fault);
        }
        answer
    }

    // The next line, where no fault is kept.
    fn line<F: Files>(
        &mut self,
        files: &mut F,
        end: Option<char>,
    ) -> Result<Option<Line>, LineFault>
        requires { IsTrue (in_use (F.shelf files.old).ids self.old.id) }
        ensures id { self.new.id ≡ self.old.id }
        ensures touches { Touches (F.shelf files.old) (F.shelf files.new) self.old.id }
        ensures lines { IsTrue (F.shelf files.old).tells → GivesLine end (rows_left (F.shelf files.old) self.old) result (rows_left (F.shelf files.new) self.new) }
        ensures number { self.new.number ≡ number_after result self.old.number }
        ensures scalars { IfOk result (λ o. IfSome o (All IsScalar)) }
        ensures lower { IfOk result (λ o. room (F.shelf files.new) self.new + weight o ≤ room (F.shelf files.old) self.old) }
        ensures spends { IsTrue (F.shelf files.old).tells → Spends (F.shelf files.old) (F.shelf files.new) (length self.old.held) (bytes_loaded result (rows_left (F.shelf files.old) self.old)) (length self.new.held) }
        ensures little { length self.old.held ≤ block → HoldsLittle result self.new.held }
        ensures cause { HasLineCause (F.faults files.old) (F.faults files.new) result }
        ensures at_hand { has_feed self.old.held ≡ true → (F.shelf files.new ≡ F.shelf files.old) × (F.faults files.new ≡ F.faults files.old) }
        ensures fault { self.new.fault ≡ self.old.fault }
    {
        self.fill(files)?;
        match self.load_first(end) {
            Loaded::Nothing => Ok(None),
            Loaded::Line(line, size) => {
                self.pass(size);
                Ok(Some(line))
            }
            Loaded::NotUtf8(size) => {
                self.pass(size);
                Err(LineFault::NotUtf8)
            }
            Loaded::NoMemory => Err(LineFault::NoMemory),
        }
    }

    // The first line of the bytes at hand.
    fn load_first(&self, end: Option<char>) -> Loaded
        ensures { Loads end self.now.fresh self.now.held result }
    {
        let Some((bytes, size)) = first_line(self.held(), self.fresh) else {
            return Loaded::Nothing;
        };
        let Ok(text) = str::from_utf8(bytes) else {
            return Loaded::NotUtf8(size);
        };
        match load_text(*self.bytes.allocator(), text, end) {
            Ok(line) => Loaded::Line(line, size),
            Err(_) => Loaded::NoMemory,
        }
    }

    // The bytes at hand.
    #[tactic(auto, using(std::proofs::lemmas::List::take_rest))]
    fn held(&self) -> &[u8]
        ensures { result.now ≡ self.now.held }
    {
        &self.bytes[self.at..]
    }

    // Takes a line of so many bytes.
    fn pass(&mut self, size: usize)
        requires { size ≤ length self.old.held }
        ensures { self.new ≡ passed size self.old }
    {
        self.at += size;
        self.fresh = false;
        self.number = self.number.saturating_add(1);
    }

    // Reads blocks until the bytes at hand have a whole line, or to the end of the file.
    fn fill<F: Files>(&mut self, files: &mut F) -> Result<(), LineFault>
        requires { IsTrue (in_use (F.shelf files.old).ids self.old.id) }
        ensures same { self.new ≡ record self.old { held = self.new.held } }
        ensures touches { Touches (F.shelf files.old) (F.shelf files.new) self.old.id }
        ensures filled { Filled (F.shelf files.old) (F.shelf files.new) self.old.id self.old.held self.new.held }
        ensures whole { OnOk result (IsTrue (F.shelf files.old).tells → has_feed self.new.held ≡ false → (F.shelf files.new).left self.old.id ≡ []) }
        ensures little { length self.old.held ≤ block → past_line self.new.held ≤ block }
        ensures cause { HasLineCause (F.faults files.old) (F.faults files.new) result }
        ensures read { IfErr result (λ fault. fault ≡ LineFault.NotUtf8 → ⊥) }
        ensures at_hand { has_feed self.old.held ≡ true → (F.shelf files.new ≡ F.shelf files.old) × (F.faults files.new ≡ F.faults files.old) }
    {
        if has_feed(self.held()) {
            return Ok(());
        }
        self.bytes.rotate_left(self.at);
        self.bytes.truncate(self.bytes.len() - self.at);
        self.at = 0;
        read_line(&mut self.bytes, files, self.id)
    }
}

// What the first line of bytes is: a line as it is read, with the bytes that it takes, or bytes that are not UTF-8.
#[derive(Debug, Drop)]
enum Loaded {
    Nothing,
    Line(Line, usize),
    NotUtf8(usize),
    NoMemory,
}

// Appends blocks to bytes without a line feed, until they have one, or to the end of the file.
fn read_line<F: Files>(bytes: &mut Vec<u8>, files: &mut F, id: u32) -> Result<(), LineFault>
    requires open { IsTrue (in_use (F.shelf files.old).ids id) }
    requires no_line { has_feed bytes.old.items ≡ false }
    ensures touches { Touches (F.shelf files.old) (F.shelf files.new) id }
    ensures filled { Filled (F.shelf files.old) (F.shelf files.new) id bytes.old.items bytes.new.items }
    ensures whole { OnOk result (IsTrue (F.shelf files.old).tells → has_feed bytes.new.items ≡ false → (F.shelf files.new).left id ≡ []) }
    ensures little { past_line bytes.new.items ≤ block }
    ensures cause { HasLineCause (F.faults files.old) (F.faults files.new) result }
    ensures read { IfErr result (λ fault. fault ≡ LineFault.NotUtf8 → ⊥) }
{
    let mut piece = [0u8; BLOCK];
    loop {
        bytes.reserve(BLOCK)?;
        let count = match files.read_file(id, &mut piece) {
            Ok(count) => count,
            Err(Trouble::Failed) => return Err(LineFault::Failed),
            Err(Trouble::NoMemory) => return Err(LineFault::NoMemory),
        };
        append(bytes, &piece[..count]);
        if count == 0 || has_feed(&piece[..count]) {
            return Ok(());
        }
    }
}

// Appends bytes, for which there is room.
fn append(bytes: &mut Vec<u8>, piece: &[u8])
    requires { vec_len bytes.old + length piece.now ≤ vec_capacity bytes.old }
    ensures { bytes.new.items ≡ bytes.old.items ++ piece.now }
{
    if let Err(_) = bytes.extend_from_slice(piece) {
        unreachable!();
    }
}

// Whether there is a line feed.
fn has_feed(bytes: &[u8]) -> bool
    ensures { result ≡ has_feed bytes.now }
{
    bytes.contains(&b'\n')
}

// The first line of the rest of a file, without its end, and how many bytes it takes, where a line feed or the end of the
// file is among them.
#[tactic(auto, using(crate::proofs::Cutting::marking))]
fn first_line(bytes: &[u8], fresh: bool) -> Option<(&[u8], usize)>
    ensures { MatchOption result (CutsNone fresh bytes.now) (λ p. Cuts fresh bytes.now p.0.now p.1) }
{
    if fresh && begins_with_mark(bytes) {
        let (line, size) = cut(&bytes[MARK_SIZE..])?;
        return Some((line, MARK_SIZE + size));
    }
    cut(bytes)
}

// Whether bytes begin with a byte order mark.
fn begins_with_mark(bytes: &[u8]) -> bool
    ensures { result ≡ begins_with_mark bytes.now }
{
    matches!(bytes, [0xEF, 0xBB, 0xBF, ..])
}

// The same of bytes that no mark begins.
#[tactic(auto, using(crate::proofs::Cutting::cutting))]
fn cut(bytes: &[u8]) -> Option<(&[u8], usize)>
    ensures { MatchOption result (CutsNone false bytes.now) (λ p. Cuts false bytes.now p.0.now p.1) }
{
    if bytes.is_empty() {
        return None;
    }
    match feed_at(bytes) {
        None => Some((bytes, bytes.len())),
        Some(end) => Some((without_return(&bytes[..end]), end + 1)),
    }
}

// Where the first line feed stands.
fn feed_at(bytes: &[u8]) -> Option<usize>
    ensures { result ≡ position (λ b. b == line_feed) bytes.now }
{
    bytes.iter().position(|b| *b == b'\n')
}

// A line, but for a carriage return at its end.
fn without_return(line: &[u8]) -> &[u8]
    ensures { result.now ≡ strip_carriage_return line.now }
{
    match line {
        [front @ .., b'\r'] => front,
        _ => line,
    }
}

// A line as it is read.
fn load_text(alloc: Global, text: &str, end: Option<char>) -> Result<Line, AllocError>
    ensures codes { IfOk result (λ line. line ≡ loaded end (chars text.now)) }
    ensures scalars { IfOk result (All IsScalar) }
{
    let text = chars_of(alloc, text)?;
    load(alloc, &text, end)
}

// The character of a number, if it is the code of one.
fn character(number: i32) -> Option<char>
    ensures { result ≡ character number }
{
    if number >= 0 {
        char::from_u32(number as u32)
    } else {
        None
    }
}
