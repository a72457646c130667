//! The lines of a text or of a file, and how a line is loaded (The TeXbook, chapter 8).
//!
//! The contract in a sentence: a `LineReader` gives the lines of an open file as specs/File.antt says, each loaded as
//! specs/Lines.antt says, while it holds few bytes past the line that it gave. It stands on texml_base, for files, and on texml_token, for lists of character codes.
#![tactic(auto)]

mod lines;
mod reader;

pub use lines::chars_of;
pub use reader::{LineFault, LineReader};
