//! For measurements by hand: the page of a document of any size that is made of operations, as no text can ask for all of
//! them yet.
//!
//! `texml_bench sections N LENGTH` has N sections, each with a title, a label, a paragraph of LENGTH bytes (none for 0) and one
//! with a reference to the section, and `texml_bench paragraphs N LENGTH` has N paragraphs of LENGTH bytes. A word that is no
//! number, or is left out, is 0, and any other first word is `paragraphs`. A document goes the way of the converter from
//! operations on. It stands on texml_base for the standard streams, and on texml_tree, texml_model,
//! texml_build, texml_xref and texml_html.
#![tactic(auto)]

mod model;
mod sample;
mod write;

use sample::Sample;
use std::io::ErrorKind;
use std::{env, io};
use texml_base::StreamSink;
use write::write_sample;

fn main(rt: HostRuntime) -> io::Result<()> {
    let mut words = env::args(&rt)?;
    let _program = words.next();
    let sample = read_sample(words.next(), words.next(), words.next());
    let mut out = StreamSink::new(rt.stdout());
    match write_sample(rt.alloc(), sample, &mut out) {
        Ok(()) => Ok(()),
        Err(_) => Err(io::Error::from(ErrorKind::Other)),
    }
}

/// The sample that the words ask for.
fn read_sample(kind: Option<String>, count: Option<String>, length: Option<String>) -> Sample {
    let sections = match kind {
        Some(word) => word.as_str() == "sections",
        None => false,
    };
    if sections {
        Sample::Sections(number(count), number(length))
    } else {
        Sample::Paragraphs(number(count), number(length))
    }
}

/// The number that a word is, 0 for any other word.
fn number(word: Option<String>) -> usize {
    match word {
        Some(word) => word.as_str().parse().unwrap_or(0),
        None => 0,
    }
}
