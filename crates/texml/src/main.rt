//! The program: `texml convert FILE` writes the HTML of a file to standard output, and `texml expand FILE` a line for each
//! expansion.
//!
//! The contract in a sentence: over any files and sinks the program ends with the exit code of a status that the run of
//! its words answers. Its `main` only makes the real folder and the two standard streams. It stands on texml_base and on
//! texml_top, whose `run` says what a status means.
#![tactic(auto)]

mod command_line;
mod program;
mod words;

use command_line::SystemWords;
use program::run_words;
use std::process::ExitCode;
use texml_base::{DiskFiles, StreamSink};
use words::read_words;

fn main(rt: HostRuntime) -> ExitCode {
    let alloc = rt.alloc();
    let words = read_words(alloc, &SystemWords(&rt));
    let mut files = DiskFiles::new(alloc, &rt);
    let mut out = StreamSink::new(rt.stdout());
    let mut notes = StreamSink::new(rt.stderr());
    ExitCode::from(run_words(alloc, words, &mut files, &mut out, &mut notes))
}

#[cfg(test)]
mod tests;
