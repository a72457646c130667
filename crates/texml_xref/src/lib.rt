//! Ids, labels and references of a tree.
//!
//! `resolve` gives each element that is flagged for it an id, finds the owner of each label, and links each reference to the
//! owner of its label. The contract in a sentence: what is linked is exactly what the definitions of `specs/Refs.antt` find by
//! looking through the tree. It stands on texml_tree (trees), texml_model (which element is a reference) and indexmap (the
//! labels in the order of first use).
#![tactic(auto)]

mod linked;
mod linking;
mod owners;
mod walk;

pub use linked::Linked;
pub use linking::resolve;
