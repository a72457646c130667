//! Makes a document's tree from operations, as a content model allows.
//!
//! Contract: `build` gives exactly the tree of the brackets that the operations stand for (`specs/Brackets.antt`,
//! `specs/Matched.antt`), or exactly the first thing that is wrong with them, and each tree is valid by a definition that
//! knows nothing of operations (`specs/Valid.antt`).
//! It stands on texml_tree and texml_model, and on bumpalo for the arena.
#![tactic(auto)]

mod builder;
mod building;
mod fault;
mod growing;
mod trim;

pub use building::{build, every_tree_is_valid, texts_go_on};
pub use fault::BuildFault;
pub use growing::{Done, GrowingTree};
