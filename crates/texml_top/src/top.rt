//! The run.
ghost use Rattle.std.specs.Prelude.{◌≡◌, ◌≢◌, [], map, string_bytes, IsTrue, None};
ghost use Rattle.texml_base.specs.Rising.{Rose};
ghost use Rattle.texml_input.specs.Held.{AreLittle};
ghost use Rattle.texml_expand.specs.Held.{Sound, Owns, Holding, state_of};
ghost use Rattle.texml_top.specs.Request.{asked};
ghost use Rattle.texml_top.specs.Start.{SameOutside};
ghost use Rattle.texml_top.specs.Outcome.{OfOutcome, FromState};
ghost use Rattle.texml_top.specs.Run.{EndsAs, MayEnd, FilesBlamed, SinkBlamed, FitsWords, TouchesNothing, LimitIs, WritesLate, LateAsked, WritesDocument, DocumentAsked, WritesPage, PageAsked, WholeLines, LinesBy, LinesAsked};
ghost use Rattle.texml_top.specs.Notes.{Noted};
ghost use Rattle.texml_top.specs.Reading.{ReadsFrom, ReadsAsked};
ghost use Rattle.texml_top.specs.declared.request.Command.TheVariants.{Convert, Expand};

use crate::digest::digest;
use crate::document::{Document, model, write_page};
use crate::notes::noted;
use crate::request::{Command, read_request};
use crate::start::start_engine;
use crate::status::Status;
use bumpalo::Bump;
use std::alloc::Global;
use texml_base::{Files, Sink};
use texml_expand::Engine;
use texml_watch::{Lines, Nobody};

/// Does what the words of a command line ask for: `convert FILE` writes the HTML of a file to `out`, and `expand FILE` a
/// line for each completed expansion. With `--limit N` behind it at most N expansions begin.
///
/// It answers `Usage` where the words are no command line, and opens nothing then; `Tex` with the first fault of the
/// text; `Model` with the first thing in the document that the table of elements doesn't allow; `Limit` where one expansion too
/// many would begin; `ReadFault` and `WriteFault` only where the files or the sink failed in this call; `NoMemory` where
/// memory was refused. The document is made whole before the first write. A line is written when its expansion is completed.
/// How it ended is noted as a line, unless it is `Done`; where a write to `notes` fails, nothing more is noted, and all else is as it would be.
pub fn run<F: Files, S: Sink, N: Sink>(
    alloc: Global,
    words: &[String],
    files: &mut F,
    out: &mut S,
    notes: &mut N,
) -> Status
    requires { (F.shelf files.old).ids ≡ [] }
    // Where the files tell what they hold and nothing fails, it is what the definitions say, or memory is short.
    ensures outcome { IsTrue (F.shelf files.old).tells → (Rose (F.faults files.old) (F.faults files.new) → ⊥) → (Rose (S.faults out.old) (S.faults out.new) → ⊥)
        → result ≢ Status.NoMemory → OfOutcome (map string_bytes words.now) (F.shelf files.old).contents (λ all. EndsAs result all (S.ink out.old) (S.ink out.new)) }
    // What each status says of the outcome and of what was written, whatever fails.
    ensures meets { IsTrue (F.shelf files.old).tells
        → OfOutcome (map string_bytes words.now) (F.shelf files.old).contents (λ all. MayEnd result all (S.ink out.old) (S.ink out.new)) }
    // A failure has its cause, and no failure is passed over or called by another name.
    ensures files_cause { FilesBlamed result (F.faults files.old) (F.faults files.new) }
    ensures out_cause { SinkBlamed result (S.faults out.old) (S.faults out.new) }
    // Nothing of a page is written before it is whole.
    ensures late { LateAsked (asked (map string_bytes words.now)) result (S.ink out.old) (S.ink out.new) }
    ensures page { IsTrue (F.shelf files.old).tells → OfOutcome (map string_bytes words.now) (F.shelf files.old).contents (PageAsked (asked (map string_bytes words.now)) result) }
    // What is written is the page of a valid, cross-referenced document, or a first part of it where the sink failed.
    ensures document { DocumentAsked (asked (map string_bytes words.now)) result (S.ink out.old) (S.ink out.new) }
    // Whatever ends it, whole lines of the trace were written, unless the sink failed.
    ensures lines { IsTrue (F.shelf files.old).tells → (Rose (S.faults out.old) (S.faults out.new) → ⊥) → OfOutcome (map string_bytes words.now) (F.shelf files.old).contents
        (λ all. LinesAsked (asked (map string_bytes words.now)) all (S.ink out.old) (S.ink out.new)) }
    // Words that are no command line are refused, and only they are, before a file is opened; the limit is the one asked for.
    ensures words { FitsWords (asked (map string_bytes words.now)) result }
    ensures untouched { TouchesNothing (asked (map string_bytes words.now)) (F.shelf files.old) (F.shelf files.new) (S.ink out.old) (S.ink out.new) }
    // The line of the status is noted, or a first part of it where the notes failed.
    ensures notes { Noted result (N.ink notes.old) (N.ink notes.new) (N.faults notes.old) (N.faults notes.new) }
    // No file is left open.
    ensures closed { (F.shelf files.new).ids ≡ [] }
    // Whether the files tell what they hold, and what that is, stays as it was.
    ensures same { SameOutside (F.shelf files.old) (F.shelf files.new) }
    // Little is read ahead: no more bytes than the definitions load, and 4096 for each file that is opened.
    ensures reads { IsTrue (F.shelf files.old).tells → ReadsAsked (asked (map string_bytes words.now)) (F.shelf files.old).contents (F.shelf files.old) (F.shelf files.new) }
{
    let request = match read_request(words) {
        Ok(request) => request,
        Err(which) => return noted(notes, Status::Usage(which)),
    };
    let mut engine = match start_engine(alloc, files, request.file, request.limit) {
        Ok(engine) => engine,
        Err(status) => return noted(notes, status),
    };
    let status = perform(alloc, request.command, &mut engine, files, out);
    engine.input().close_all(files);
    noted(notes, status)
}

// Performs a command on what an engine is to read.
fn perform<F: Files, S: Sink>(
    alloc: Global,
    command: Command,
    engine: &mut Engine,
    files: &mut F,
    out: &mut S,
) -> Status
    requires running { engine.old.stop ≡ None }
    requires sound { Sound engine.old }
    requires owns { Owns (F.shelf files.old) engine.old }
    ensures meets { IsTrue (F.shelf files.old).tells → FromState command (state_of (F.shelf files.old) engine.old) (λ all. MayEnd result all (S.ink out.old) (S.ink out.new)) }
    ensures files_cause { FilesBlamed result (F.faults files.old) (F.faults files.new) }
    ensures out_cause { SinkBlamed result (S.faults out.old) (S.faults out.new) }
    ensures limit { LimitIs engine.old.limit result }
    ensures late { WritesLate command result (S.ink out.old) (S.ink out.new) }
    ensures page { IsTrue (F.shelf files.old).tells → FromState command (state_of (F.shelf files.old) engine.old) (WritesPage command result) }
    ensures document { WritesDocument command result (S.ink out.old) (S.ink out.new) }
    ensures lines { IsTrue (F.shelf files.old).tells → (Rose (S.faults out.old) (S.faults out.new) → ⊥) → FromState command (state_of (F.shelf files.old) engine.old) (λ all. LinesBy command all (S.ink out.old) (S.ink out.new)) }
    ensures holds { Holding (F.shelf files.old) (F.shelf files.new) engine.old engine.new }
    ensures reads { IsTrue (F.shelf files.old).tells → AreLittle engine.old.input.sources → ReadsFrom (state_of (F.shelf files.old) engine.old) engine.old.input.sources (F.shelf files.old) (F.shelf files.new) }
{
    match command {
        Command::Convert => convert(alloc, engine, files, out),
        Command::Expand => expand(alloc, engine, files, out),
    }
}

// Writes the page of what an engine is to read.
fn convert<F: Files, S: Sink>(
    alloc: Global,
    engine: &mut Engine,
    files: &mut F,
    out: &mut S,
) -> Status
    requires running { engine.old.stop ≡ None }
    requires sound { Sound engine.old }
    requires owns { Owns (F.shelf files.old) engine.old }
    ensures meets { IsTrue (F.shelf files.old).tells → FromState Convert (state_of (F.shelf files.old) engine.old) (λ all. MayEnd result all (S.ink out.old) (S.ink out.new)) }
    ensures files_cause { FilesBlamed result (F.faults files.old) (F.faults files.new) }
    ensures out_cause { SinkBlamed result (S.faults out.old) (S.faults out.new) }
    ensures limit { LimitIs engine.old.limit result }
    ensures late { WritesLate Convert result (S.ink out.old) (S.ink out.new) }
    ensures page { IsTrue (F.shelf files.old).tells → FromState Convert (state_of (F.shelf files.old) engine.old) (WritesPage Convert result) }
    ensures document { WritesDocument Convert result (S.ink out.old) (S.ink out.new) }
    ensures holds { Holding (F.shelf files.old) (F.shelf files.new) engine.old engine.new }
    ensures reads { IsTrue (F.shelf files.old).tells → AreLittle engine.old.input.sources → ReadsFrom (state_of (F.shelf files.old) engine.old) engine.old.input.sources (F.shelf files.old) (F.shelf files.new) }
{
    let content = match model(alloc) {
        Ok(content) => content,
        Err(_) => return Status::NoMemory,
    };
    let arena = Bump::new(alloc);
    let ops = Document::growing(alloc, &arena, &content);
    match digest(alloc, engine, files, &mut Nobody, ops) {
        Ok(ops) => write_page(alloc, &content, ops, out),
        Err(stop) => Status::from(stop),
    }
}

// Writes a line for each expansion of what an engine is to read, when it is completed.
fn expand<F: Files, S: Sink>(
    alloc: Global,
    engine: &mut Engine,
    files: &mut F,
    out: &mut S,
) -> Status
    requires running { engine.old.stop ≡ None }
    requires sound { Sound engine.old }
    requires owns { Owns (F.shelf files.old) engine.old }
    ensures meets { IsTrue (F.shelf files.old).tells → FromState Expand (state_of (F.shelf files.old) engine.old) (λ all. MayEnd result all (S.ink out.old) (S.ink out.new)) }
    ensures files_cause { FilesBlamed result (F.faults files.old) (F.faults files.new) }
    ensures out_cause { SinkBlamed result (S.faults out.old) (S.faults out.new) }
    ensures limit { LimitIs engine.old.limit result }
    ensures lines { IsTrue (F.shelf files.old).tells → (Rose (S.faults out.old) (S.faults out.new) → ⊥) → FromState Expand (state_of (F.shelf files.old) engine.old) (λ all. WholeLines all (S.ink out.old) (S.ink out.new)) }
    ensures holds { Holding (F.shelf files.old) (F.shelf files.new) engine.old engine.new }
    ensures reads { IsTrue (F.shelf files.old).tells → AreLittle engine.old.input.sources → ReadsFrom (state_of (F.shelf files.old) engine.old) engine.old.input.sources (F.shelf files.old) (F.shelf files.new) }
{
    let mut lines = Lines::new(out);
    trace(alloc, engine, files, &mut lines)
}

// Tells of each expansion of what an engine is to read.
fn trace<F: Files, S: Sink>(
    alloc: Global,
    engine: &mut Engine,
    files: &mut F,
    lines: &mut Lines<'_, S>,
) -> Status
    requires running { engine.old.stop ≡ None }
    requires sound { Sound engine.old }
    requires owns { Owns (F.shelf files.old) engine.old }
    ensures loan { lines.new.sink.ghost_name ≡ lines.old.sink.ghost_name }
    ensures meets { IsTrue (F.shelf files.old).tells → FromState Expand (state_of (F.shelf files.old) engine.old) (λ all. MayEnd result all (S.ink lines.old.sink.now) (S.ink lines.new.sink.now)) }
    ensures files_cause { FilesBlamed result (F.faults files.old) (F.faults files.new) }
    ensures out_cause { SinkBlamed result (S.faults lines.old.sink.now) (S.faults lines.new.sink.now) }
    ensures limit { LimitIs engine.old.limit result }
    ensures whole { IsTrue (F.shelf files.old).tells → (Rose (S.faults lines.old.sink.now) (S.faults lines.new.sink.now) → ⊥)
        → FromState Expand (state_of (F.shelf files.old) engine.old) (λ all. WholeLines all (S.ink lines.old.sink.now) (S.ink lines.new.sink.now)) }
    ensures holds { Holding (F.shelf files.old) (F.shelf files.new) engine.old engine.new }
    ensures reads { IsTrue (F.shelf files.old).tells → AreLittle engine.old.input.sources → ReadsFrom (state_of (F.shelf files.old) engine.old) engine.old.input.sources (F.shelf files.old) (F.shelf files.new) }
{
    match digest(alloc, engine, files, lines, Document::unwanted()) {
        Ok(_) => Status::Done,
        Err(stop) => Status::from(stop),
    }
}
