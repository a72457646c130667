//! Content models: which element may hold which.
//!
//! A content model is made from a table of elements and answers what may stand where, how an element is written, and which
//! elements open by themselves between a parent and a child. The contract in a sentence: each look-up is exactly what the
//! rules of the table say (`specs/Rules.antt`), and a chain is the first of the shortest, or none where no elements lead
//! there (`specs/Chain.antt`). It stands on texml_token (texts) and texml_tree (tables of elements).
#![tactic(auto)]

mod chains;
mod content;
mod laws;
mod places;

pub use content::Content;
pub use laws::chains_are_first;
