//! The words of the command line.
ghost use Rattle.std.specs.Prelude.{◌≡◌, ◌<◌, length, drop, IfSome, IfOk};
ghost use Rattle.texml.specs.declared.words.WordsFault.TheVariants.{NoMemory};
ghost use Rattle.texml.specs.Words.{longest, broken_at, IsTextOf, IsTextAt, AreTextsOf};

use crate::command_line::CommandLine;
use std::alloc::{AllocError, AllocFailed, Global};
use std::env::FillError;
use std::str;

// The longest word that is read, in bytes: on most systems none that is longer is passed to a program.
const LONGEST_WORD: usize = 1 << 17;

/// Why there are no words.
#[derive(Debug, Drop)]
pub enum WordsFault {
    /// One of them is no UTF-8 or longer than 131072 bytes: 1, the first; 2, one behind it.
    NotText(u8),
    /// Memory was refused.
    NoMemory,
}

impl From<AllocError> for WordsFault {
    ghost from_gives = { λ _ fault. fault ≡ NoMemory };

    fn from(_: AllocError) -> Self {
        WordsFault::NoMemory
    }
}

impl<T: Drop> From<AllocFailed<T>> for WordsFault {
    ghost from_gives = { λ _ fault. fault ≡ NoMemory };

    fn from(_: AllocFailed<T>) -> Self {
        WordsFault::NoMemory
    }
}

/// The words after the program's name.
///
/// # Errors
///
/// `NotText` with the first word that is no UTF-8 or longer than 131072 bytes, and `NoMemory` where memory was refused.
pub fn read_words<L: CommandLine>(alloc: Global, line: &L) -> Result<Vec<String>, WordsFault>
    ensures { IfSome (L.told line.now) (λ words. AreTextsOf (drop 1 words) result) }
{
    let mut texts = Vec::new(alloc);
    let mut room = word_room(alloc)?;
    for at in 0..usize::MAX {
        match text_at(alloc, line, at, &mut room) {
            Ok(Some(text)) => texts.push(text)?,
            Ok(None) => return Ok(texts),
            Err(fault) => return Err(fault),
        }
    }
    Err(WordsFault::NoMemory)
}

// Room for a word.
fn word_room(alloc: Global) -> Result<Vec<u8>, AllocError>
    ensures { IfOk result (λ room. length room.items ≡ longest) }
{
    vec![in alloc; 0u8; LONGEST_WORD]
}

// The word at a place behind the program's name as a text, or None behind the last one. The word is read into `room`.
fn text_at<L: CommandLine>(
    alloc: Global,
    line: &L,
    at: usize,
    room: &mut [u8],
) -> Result<Option<String>, WordsFault>
    requires below { at < usize.MAX }
    requires room { length room.old ≡ longest }
    ensures { IfSome (L.told line.now) (λ words. IsTextAt (drop 1 words) at result) }
{
    match line.word(at + 1, room) {
        Ok(count) => match text_of(alloc, &room[..count], at) {
            Ok(text) => Ok(Some(text)),
            Err(fault) => Err(fault),
        },
        Err(FillError::NotPresent) => Ok(None),
        Err(FillError::TooLong) => Err(WordsFault::NotText(broken_at(at))),
    }
}

// The word at a place as a text.
fn text_of(alloc: Global, word: &[u8], at: usize) -> Result<String, WordsFault>
    ensures { IsTextOf word.now at result }
{
    match str::from_utf8(word) {
        Ok(text) => Ok(String::from_str(alloc, text)?),
        Err(_) => Err(WordsFault::NotText(broken_at(at))),
    }
}

// How words are wrong where the one at this place can't be read.
fn broken_at(at: usize) -> u8
    ensures { result ≡ broken_at at }
{
    if at == 0 { 1 } else { 2 }
}
