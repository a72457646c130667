//! A run of the converter, from the words of its command line to its status.
//!
//! The contract in a sentence: `run` ends with the status that the written rules give and writes exactly the HTML or the
//! trace that they give, or ends with a failure that the files or the sink had in this call, or with want of memory, and
//! then has written what each answer allows; how it ended is noted as a line. It stands on texml_base for the outside, on texml_token for tokens, names and
//! faults, on texml_text for the lines of a text, on texml_scope for what names mean, on texml_expand for the engine that
//! fetches and expands, on texml_watch for trace lines, and on texml_tree, texml_model, texml_build, texml_xref and texml_html
//! for the document.
#![tactic(auto)]

mod digest;
mod document;
mod gather;
mod laws;
mod notes;
mod request;
mod start;
mod status;
mod table;
mod top;
mod verb;

pub use laws::{
    digested_elements_are_named, elements_are_written, gathering_keeps_the_document, one_outcome,
};
pub use notes::noted;
pub use status::Status;
pub use top::run;
