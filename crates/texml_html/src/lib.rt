//! The HTML of a linked tree.
//!
//! `write` gives a sink the page of a tree, piece by piece, without memory. The contract in a sentence: the pieces are exactly
//! the bytes that `specs/Html.antt` defines by recursion on the tree, or a prefix of them where the sink failed. It stands on
//! texml_base (sinks), texml_tree (trees), texml_model (how an element is written) and texml_xref (ids and references).
#![tactic(auto)]

mod contents;
mod escape;
mod links;
mod nodes;
mod page;
mod places;
mod tags;
mod texts;
mod writer;
mod writing;

pub use writing::write;
