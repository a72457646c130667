//! What the program does, over any files and sinks.
ghost use Rattle.std.specs.Prelude.{◌≡◌, []};
ghost use Rattle.texml.specs.Exit.{exit_code, ExitsFor};

use crate::words::WordsFault;
use std::alloc::Global;
use texml_base::{Files, Sink};
use texml_top::{Status, noted, run};

/// Does what the words that were read ask for, and answers the exit code of the program.
///
/// Words with one that is no text end it as words that are no command line do, and nothing is opened or written but the line of notes.
pub fn run_words<F: Files, S: Sink, N: Sink>(
    alloc: Global,
    words: Result<Vec<String>, WordsFault>,
    files: &mut F,
    out: &mut S,
    notes: &mut N,
) -> u8
    requires { (F.shelf files.old).ids ≡ [] }
    ensures { ExitsFor words
        (record { shelf = F.shelf files.old; reads = F.faults files.old; ink = S.ink out.old; writes = S.faults out.old; notes = N.ink notes.old; note_faults = N.faults notes.old })
        (record { shelf = F.shelf files.new; reads = F.faults files.new; ink = S.ink out.new; writes = S.faults out.new; notes = N.ink notes.new; note_faults = N.faults notes.new }) result }
{
    match words {
        Ok(words) => exit_code_of(&run(alloc, &words, files, out, notes)),
        Err(WordsFault::NotText(which)) => exit_code_of(&noted(notes, Status::Usage(which))),
        Err(WordsFault::NoMemory) => exit_code_of(&noted(notes, Status::NoMemory)),
    }
}

// The exit code that stands for a status.
fn exit_code_of(status: &Status) -> u8
    ensures { result ≡ exit_code status.now }
{
    match status {
        Status::Done => 0,
        Status::Tex(_) => 1,
        Status::Usage(_) => 2,
        Status::Model(_) => 4,
        Status::Limit(_) => 5,
        Status::ReadFault => 6,
        Status::WriteFault => 7,
        Status::NoMemory => 8,
    }
}
