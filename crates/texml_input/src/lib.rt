//! What a run has still to read: tokens that were put back, bodies of macros with their arguments, and files, one before the other, with
//! fences between what is set aside (The TeXbook, chapters 7, 8 and 20).
//!
//! The contract in a sentence: an input stands, together with its files, for one flat list of tokens and texts up to the first
//! fence, `Input::next` takes the first token of that list as specs/Next.antt says, and each push puts its tokens or its file
//! before it; lists are shared and never copied, and few bytes are read ahead. It stands on texml_base, texml_token, texml_text
//! (lines), texml_mouth (tokens of a line), texml_scope (categories) and texml_match (arguments).
#![tactic(auto)]

mod codes;
mod emptying;
mod fault;
mod file;
mod frame;
mod input;
mod searching;
mod turning;

pub use codes::{ScopeCodes, end_character};
pub use fault::{InputFault, Read};
pub use input::Input;
pub use searching::{TextFile, open_text};
