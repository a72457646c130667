use crate::command_line::SystemWords;
use crate::program::run_words;
use crate::words::{WordsFault, read_words};
use std::alloc::Global;
use std::env::FillError;
use std::rt::Env;
use std::test::Fail;
use texml_base::{CalmSink, MemoryFiles, MemorySink};

// A command line, with the program's name in front. Its word `long` is longer than any room.
#[derive(Drop)]
struct CommandLine<'a>(&'a [&'a [u8]]);

impl Env for CommandLine<'_> {
    fn arg(&self, i: usize, buf: &mut [u8]) -> Result<usize, FillError> {
        let word = match self.0.get(i) {
            Some(word) => *word,
            None => return Err(FillError::NotPresent),
        };
        if buf.len() < word.len() || word == b"long".as_slice() {
            return Err(FillError::TooLong);
        }
        buf[..word.len()].copy_from_slice(word);
        Ok(word.len())
    }

    fn var(&self, _name: &str, _buf: &mut [u8]) -> Result<usize, FillError> {
        Err(FillError::NotPresent)
    }

    fn var_at(&self, _i: usize, _buf: &mut [u8]) -> Result<usize, FillError> {
        Err(FillError::NotPresent)
    }
}

#[test]
fn word_that_cannot_be_read_is_told_by_its_place(rt: HostRuntime) -> Result<(), Fail> {
    let rows: [(&[&[u8]], u8); 7] = [
        (&[b"texml", b"\xff", b"a.tex"], 1),
        (&[b"texml", b"convert", b"\xc3", b"a.tex"], 2),
        (&[b"texml", b"convert", b"a.tex", b"\x80"], 2),
        (&[b"\xff", b"convert", b"a.tex"], 0),
        (&[b"texml", b"long"], 1),
        (&[b"texml", b"convert", b"a.tex", b"long"], 2),
        (&[b"texml", b"\xff", b"long"], 1),
    ];
    for (words, want) in rows {
        let which = match read_words(rt.alloc(), &SystemWords(&CommandLine(words))) {
            Ok(_) => 0,
            Err(WordsFault::NotText(which)) => which,
            Err(WordsFault::NoMemory) => 9,
        };
        assert_eq!(rt; which, want);
    }
    Ok(())
}

// The exit code of words over one file in memory, of which the call of this number fails, and a sink with this room.
fn exit_of(
    alloc: Global,
    words: &[&[u8]],
    text: &str,
    fail_call: u64,
    room: usize,
) -> Result<u8, Fail> {
    let mut files = MemoryFiles::new(alloc, 4096, fail_call);
    files.add(alloc, "a.tex", text.as_bytes())?;
    let mut out = MemorySink::new(alloc, room, 0)?;
    let read = read_words(alloc, &SystemWords(&CommandLine(words)));
    Ok(run_words(alloc, read, &mut files, &mut out, &mut CalmSink::new()))
}

#[test]
fn each_status_has_its_exit_code(rt: HostRuntime) -> Result<(), Fail> {
    let convert: &[&[u8]] = &[b"texml", b"convert", b"a.tex"];
    let limited: &[&[u8]] = &[b"texml", b"convert", b"a.tex", b"--limit", b"1"];
    let broken: &[&[u8]] = &[b"texml", b"convert", b"a.tex", b"\xff"];
    for (words, text, fail_call, room, want) in [
        (convert, "Hello", 0, 4096, 0),
        (convert, "\\x", 0, 4096, 1),
        (&convert[..1], "Hello", 0, 4096, 2),
        (broken, "Hello", 0, 4096, 2),
        (limited, "\\def\\a{\\a}\\a", 0, 4096, 5),
        (convert, "Hello", 1, 4096, 6),
        (convert, "Hello", 0, 3, 7),
    ] {
        assert_eq!(rt; exit_of(rt.alloc(), words, text, fail_call, room)?, want);
    }
    Ok(())
}

#[test]
fn words_without_memory_end_the_program(rt: HostRuntime) {
    let alloc = rt.alloc();
    let words = Err(WordsFault::NoMemory);
    let mut files = MemoryFiles::new(alloc, 1, 0);
    let code = run_words(
        alloc,
        words,
        &mut files,
        &mut CalmSink::new(),
        &mut CalmSink::new(),
    );
    assert_eq!(rt; code, 8);
}
