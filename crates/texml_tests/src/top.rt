//! Runs over files and sinks that fail, or that never fail.

ghost use Rattle.std.specs.Prelude.{◌≡◌, ◌≢◌, ◌≤◌, [], map, string_bytes, IfOk};
ghost use Rattle.texml_base.specs.Memory.{memory_shelf, calm_shelf};
ghost use Rattle.texml_top.specs.Outcome.{OfOutcome};

use std::alloc::{AllocError, Global};
use std::test::Fail;
use texml_base::{CalmFiles, CalmSink, MemoryFiles, MemorySink};
use texml_top::{Status, run};

const HEAD: &str =
    "<!DOCTYPE html>\n<html><head><meta charset=\"utf-8\"><title>untitled</title></head><body><main id=\"x0\">";

const TAIL: &str = "</main></body></html>\n";

fn words_of(alloc: Global, texts: &[&str]) -> Result<Vec<String>, AllocError> {
    let mut words = Vec::new(alloc);
    for text in texts {
        words.push(String::from_str(alloc, text)?)?;
    }
    Ok(words)
}

fn main_file(
    alloc: Global,
    text: &[u8],
    piece: usize,
    fail_call: u64,
) -> Result<MemoryFiles, AllocError>
    requires { 1 ≤ piece }
    ensures { IfOk result (λ files. (memory_shelf files).ids ≡ []) }
{
    let mut files = MemoryFiles::new(alloc, piece, fail_call);
    files.add(alloc, "main.tex", text)?;
    Ok(files)
}

#[test]
fn a_trace_is_cut_where_the_sink_fails(rt: HostRuntime) -> Result<(), Fail> {
    let alloc = rt.alloc();
    let trace = b"\\a -> b\n\\a -> b\n".as_slice();
    for room in 0..trace.len() + 1 {
        let mut files = main_file(alloc, b"\\def\\a{b}\\a\\a", 3, 0)?;
        let mut out = MemorySink::new(alloc, room, 0)?;
        let words = words_of(alloc, &["expand", "main.tex"])?;
        match run(alloc, &words, &mut files, &mut out, &mut CalmSink::new()) {
            Status::WriteFault => assert!(rt; room < trace.len()),
            Status::Done => assert_eq!(rt; room, trace.len()),
            _ => assert!(rt; false),
        }
        assert_eq!(rt; out.bytes(), &trace[..room]);
    }
    Ok(())
}

#[test]
fn a_note_ends_where_its_sink_fails(rt: HostRuntime) -> Result<(), Fail> {
    let alloc = rt.alloc();
    let line = b"main.tex:2: fault 1 Undefined \\foo\n".as_slice();
    for room in 0..line.len() + 1 {
        let mut files = main_file(alloc, b"a\n\\foo\n", 4096, 0)?;
        let mut notes = MemorySink::new(alloc, room, 0)?;
        let words = words_of(alloc, &["convert", "main.tex"])?;
        match run(alloc, &words, &mut files, &mut CalmSink::new(), &mut notes) {
            Status::Tex(fault) => assert_eq!(rt; fault.code, 1),
            _ => assert!(rt; false),
        }
        assert_eq!(rt; notes.bytes(), &line[..room]);
    }
    Ok(())
}

const TWO: &[u8] = b"Hello\nworld\n\nTwo\n";

// Each inputs a part of the other, so that the main file is open twice. Of the other file the last line is never loaded.
const MAIN: &[u8] =
    b"\\ifx\\again\\undefined\\def\\again{}main \\input other behind\\else inner\\fi\n";

const OTHER: &[u8] = b"other \\input main \\endinput last\nlost\n";

// Over two paragraphs the calls are the open, the 17 reads of a byte and the read of the end; over the two files three opens, 175 reads
// of a byte and two of an end.
#[test]
fn each_call_on_files_may_fail(rt: HostRuntime) -> Result<(), Fail> {
    let alloc = rt.alloc();
    let rows: [(&[u8], u64); 2] = [(TWO, 19), (MAIN, 180)];
    for (text, calls) in rows {
        for call in 1..calls + 2 {
            let mut files = main_file(alloc, text, 1, call)?;
            files.add(alloc, "other.tex", OTHER)?;
            let mut out = MemorySink::new(alloc, 1000, 0)?;
            let mut notes = MemorySink::new(alloc, 100, 0)?;
            let words = words_of(alloc, &["convert", "main.tex"])?;
            match run(alloc, &words, &mut files, &mut out, &mut notes) {
                Status::ReadFault => {
                    assert!(rt; call <= calls);
                    assert_eq!(rt; out.bytes().len(), 0);
                    assert_eq!(rt; notes.bytes(), b"read failed\n".as_slice());
                }
                Status::Done => assert_eq!(rt; call, calls + 1),
                _ => assert!(rt; false),
            }
            // A file may be added only where none is open.
            files.add(alloc, "further.tex", b"")?;
        }
    }
    Ok(())
}

#[test]
fn a_sink_takes_what_it_has_room_for(rt: HostRuntime) -> Result<(), Fail> {
    let alloc = rt.alloc();
    let page = format!(in alloc; "{HEAD}<p>Hello world</p><p>Two</p>{TAIL}")?;
    let html = page.as_bytes();
    for room in 0..html.len() + 1 {
        let mut files = main_file(alloc, TWO, 4096, 0)?;
        let mut out = MemorySink::new(alloc, room, 0)?;
        let mut notes = MemorySink::new(alloc, 10, 0)?;
        let words = words_of(alloc, &["convert", "main.tex"])?;
        match run(alloc, &words, &mut files, &mut out, &mut notes) {
            Status::WriteFault => assert!(rt; room < html.len()),
            Status::Done => assert_eq!(rt; room, html.len()),
            _ => assert!(rt; false),
        }
        assert_eq!(rt; out.bytes(), &html[..room]);
    }
    let mut files = main_file(alloc, TWO, 4096, 0)?;
    let mut out = MemorySink::new(alloc, 1000, 1)?;
    let mut notes = MemorySink::new(alloc, 10, 0)?;
    let words = words_of(alloc, &["convert", "main.tex"])?;
    match run(alloc, &words, &mut files, &mut out, &mut notes) {
        Status::WriteFault => assert_eq!(rt; out.bytes().len(), 0),
        _ => assert!(rt; false),
    }
    Ok(())
}

// Over files and sinks that never fail, the status is the defined one or want of memory.
fn calm_status(alloc: Global, words: &[String], files: &mut CalmFiles) -> Status
    requires { (calm_shelf files.old).ids ≡ [] }
    ensures { result ≢ Status.NoMemory → OfOutcome (map string_bytes words.now) (calm_shelf files.old).contents (λ all. result ≡ all.status) }
{
    let mut out = CalmSink::new();
    let mut notes = CalmSink::new();
    run(alloc, words, files, &mut out, &mut notes)
}

#[test]
fn calm_files_and_sinks_give_the_defined_status(rt: HostRuntime) -> Result<(), Fail> {
    let alloc = rt.alloc();
    let mut files = CalmFiles::new(alloc, 5);
    files.add(alloc, "main.tex", b"a&b\n")?;
    let words = words_of(alloc, &["convert", "main.tex"])?;
    match calm_status(alloc, &words, &mut files) {
        Status::Tex(fault) => assert_eq!(rt; fault.code, 18),
        _ => assert!(rt; false),
    }
    Ok(())
}

#[test]
fn little_is_read_past_the_line_of_a_fault(rt: HostRuntime) -> Result<(), Fail> {
    let alloc = rt.alloc();
    let mut text = b"a&b\n".to_vec(alloc)?;
    text.resize(1_000_004, b'x')?;
    // A read gives as much as is asked for.
    let mut files = CalmFiles::new(alloc, 2_000_000);
    files.add(alloc, "main.tex", &text)?;
    let words = words_of(alloc, &["convert", "main.tex"])?;
    match calm_status(alloc, &words, &mut files) {
        Status::Tex(fault) => assert_eq!(rt; fault.code, 18),
        _ => assert!(rt; false),
    }
    assert!(rt; files.given() <= 4 + 4096);
    Ok(())
}
