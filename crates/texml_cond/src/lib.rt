//! Conditionals: which of them are open, and how far a text is skipped.
//!
//! Open conditionals are a list of limits, which say what words may come next. Text that isn't chosen is skipped: `Skip` is
//! fed the meaning of one token after the other. The contract in a sentence: a word is allowed exactly as the innermost limit
//! says, and skipping stops at the first `\else`, `\or` or `\fi` before which as many conditionals begin as end. It stands on
//! texml_token (names in meanings) and texml_scope (meanings, and which builtins begin conditionals).
#![tactic(auto)]

mod limits;
mod skipping;

pub use limits::{Allow, Bound, Conds, Word};
pub use skipping::{DEEPEST, Skip, SkipStep};
