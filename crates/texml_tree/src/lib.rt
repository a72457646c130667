//! The document as a tree of elements and texts, the operations that make it, and the table of elements.
//!
//! A tree lies in an arena, and never changes. The definitions of `specs/Tree.antt` see it as plain data, by `plain`.
//! Contract: each walk answers exactly what the definitions read from the plain tree.
//! It stands on texml_token for lists of bytes, and on bumpalo.
#![tactic(auto)]

pub mod model_fault;
mod ops;
mod table;
mod tree;

pub use model_fault::ModelFault;
pub use ops::{Op, Ops, Sets};
pub use table::{Elem, ElementLine, ElementLines, Elements, Flags};
pub use tree::{Attr, Given, Head, Node, Tag, Tree, element, leaf};
