//! The line that is noted for a status.
ghost use Rattle.std.specs.Prelude.{◌≡◌, ◌++◌, codes};
ghost use Rattle.std.specs.Fmt.{decimal};
ghost use Rattle.texml_base.specs.Outside.{Takes, HasCause};
ghost use Rattle.texml_top.specs.declared.status.Status.TheVariants.{Done};
ghost use Rattle.texml_top.specs.Notes.{note_of, fault_note, model_note, limit_note, spaced, last_word, numbered, placed, model_fault_name, Noted};

use crate::status::Status;
use itoa::Buffer;
use texml_base::{Sink, SinkFail};
use texml_token::{Fault, fault_code};
use texml_tree::{ModelFault, model_fault};

const USAGE: &[u8] =
    b"usage: texml convert FILE [--binding FILE] [--limit N] [--watch LIST] | expand FILE [--binding FILE] [--limit N] | self N\n";

/// Notes how a run ended, and answers that: a line for each status but `Done`. A write that fails ends the line, of which a first part is
/// written then. It takes no memory.
pub fn noted<N: Sink>(notes: &mut N, status: Status) -> Status
    ensures is { result ≡ status }
    ensures notes { Noted result (N.ink notes.old) (N.ink notes.new) (N.faults notes.old) (N.faults notes.new) }
{
    let _ended = note_status(notes, &status);
    status
}

// Writes the line of a status.
fn note_status<N: Sink>(notes: &mut N, status: &Status) -> Result<(), SinkFail>
    ensures written { Takes (N.ink notes.old) (N.ink notes.new) result (note_of status.now) }
    ensures cause { HasCause (N.faults notes.old) (N.faults notes.new) result }
    ensures silent { status.now ≡ Done → N.faults notes.new ≡ N.faults notes.old }
{
    match status {
        Status::Done => Ok(()),
        Status::Usage(_) => notes.write(USAGE),
        Status::Tex(fault) => note_fault(notes, fault),
        Status::Model(fault) => note_model_fault(notes, fault),
        Status::Limit(limit) => note_limit(notes, *limit),
        Status::ReadFault => notes.write(b"read failed\n"),
        Status::WriteFault => notes.write(b"write failed\n"),
        Status::NoMemory => notes.write(b"out of memory\n"),
    }
}

// Writes the line of a fault of the text.
fn note_fault<N: Sink>(notes: &mut N, fault: &Fault) -> Result<(), SinkFail>
    ensures written { Takes (N.ink notes.old) (N.ink notes.new) result (fault_note fault.now) }
    ensures cause { HasCause (N.faults notes.old) (N.faults notes.new) result }
{
    write_place(notes, fault.file.as_slice(), fault.line)?;
    notes.write(b": fault ")?;
    write_numbered(notes, fault.code, fault_code::name_of(fault.code))?;
    write_last(notes, fault.about.as_slice())
}

// Writes the line of what the table of elements doesn't allow.
fn note_model_fault<N: Sink>(notes: &mut N, fault: &ModelFault) -> Result<(), SinkFail>
    ensures written { Takes (N.ink notes.old) (N.ink notes.new) result (model_note fault.now) }
    ensures cause { HasCause (N.faults notes.old) (N.faults notes.new) result }
{
    notes.write(b"model fault ")?;
    write_numbered(notes, fault.code, name_of_model(fault.code))?;
    write_word(notes, fault.child.as_slice())?;
    write_last(notes, fault.parent.as_slice())
}

// Writes the line of a limit that was reached.
fn note_limit<N: Sink>(notes: &mut N, limit: u64) -> Result<(), SinkFail>
    ensures written { Takes (N.ink notes.old) (N.ink notes.new) result (limit_note limit) }
    ensures cause { HasCause (N.faults notes.old) (N.faults notes.new) result }
{
    notes.write(b"limit ")?;
    write_number(notes, limit)?;
    notes.write(b" reached\n")
}

// The name of what the table of elements doesn't allow, which is empty where nothing has this number.
fn name_of_model(code: u8) -> &'static str
    ensures { result.now ≡ model_fault_name code }
{
    match code {
        model_fault::NO_PLACE => "NoPlace",
        model_fault::NO_TEXT => "NoText",
        model_fault::NOTHING_TO_CLOSE => "NothingToClose",
        model_fault::UNCLOSED => "Unclosed",
        model_fault::BAD_ATTRIBUTE => "BadAttribute",
        model_fault::TREE_DEPTH => "TreeDepth",
        0 => "",
        7..=u8::MAX => "",
    }
}

// Writes where a fault is.
fn write_place<N: Sink>(notes: &mut N, file: &[u8], line: u64) -> Result<(), SinkFail>
    ensures written { Takes (N.ink notes.old) (N.ink notes.new) result (placed file.now line) }
    ensures cause { HasCause (N.faults notes.old) (N.faults notes.new) result }
{
    notes.write(file)?;
    notes.write(b":")?;
    write_number(notes, line)
}

// Writes the number of a fault and its name.
fn write_numbered<N: Sink>(notes: &mut N, code: u8, name: &str) -> Result<(), SinkFail>
    ensures written { Takes (N.ink notes.old) (N.ink notes.new) result (numbered code name.now) }
    ensures cause { HasCause (N.faults notes.old) (N.faults notes.new) result }
{
    write_number(notes, u64::from(code))?;
    write_word(notes, name.as_bytes())
}

// Writes the last word of a line, and ends the line.
fn write_last<N: Sink>(notes: &mut N, word: &[u8]) -> Result<(), SinkFail>
    ensures written { Takes (N.ink notes.old) (N.ink notes.new) result (last_word word.now) }
    ensures cause { HasCause (N.faults notes.old) (N.faults notes.new) result }
{
    write_word(notes, word)?;
    notes.write(b"\n")
}

// Writes a word with a space before it, if it isn't empty.
fn write_word<N: Sink>(notes: &mut N, word: &[u8]) -> Result<(), SinkFail>
    ensures written { Takes (N.ink notes.old) (N.ink notes.new) result (spaced word.now) }
    ensures cause { HasCause (N.faults notes.old) (N.faults notes.new) result }
{
    match word {
        [] => Ok(()),
        [_, ..] => write_space(notes, word),
    }
}

// Writes a number.
fn write_number<N: Sink>(notes: &mut N, number: u64) -> Result<(), SinkFail>
    ensures written { Takes (N.ink notes.old) (N.ink notes.new) result (decimal number) }
    ensures cause { HasCause (N.faults notes.old) (N.faults notes.new) result }
{
    let mut digits = Buffer::new();
    notes.write(digits.format(number).as_bytes())
}

// Writes a space and a word.
fn write_space<N: Sink>(notes: &mut N, word: &[u8]) -> Result<(), SinkFail>
    ensures written { Takes (N.ink notes.old) (N.ink notes.new) result (codes " " ++ word.now) }
    ensures cause { HasCause (N.faults notes.old) (N.faults notes.new) result }
{
    notes.write(b" ")?;
    notes.write(word)
}
