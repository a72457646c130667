//! Reads the arguments of a macro from the tokens behind it, one token at each call.
//!
//! A parameter text is made into a shape: the tokens before the first argument, and those behind each argument. The
//! definitions of `specs/` say on whole lists of tokens what an argument is: it is given by the least number of tokens that
//! decide. Contract: `ArgMatch::feed` decides at exactly that token, with the arguments or the fault that `reading` gives. It
//! stands on `texml_token`.
#![tactic(auto)]

mod arg_match;
mod args;
mod argument;
mod groups;
mod shape;

pub use arg_match::{ArgMatch, Fed, MatchFault};
pub use args::Args;
pub use shape::Shape;
