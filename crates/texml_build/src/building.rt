//! The tree of a list of operations.

ghost use Rattle.std.specs.Prelude.{IfOk};
ghost use Rattle.texml_tree.specs.Plain.{tree_of};
ghost use Rattle.texml_model.specs.Rules.{rules_of};
ghost use Rattle.texml_build.specs.Matched.{built};
ghost use Rattle.texml_build.specs.Answer.{Builds};
ghost use Rattle.texml_build.specs.Valid.{Valid, EveryTreeIsValid};
ghost use Rattle.texml_build.specs.Texts.{TextsGoOn};

use crate::fault::BuildFault;
use crate::growing::GrowingTree;
use bumpalo::Bump;
use std::alloc::Global;
use texml_model::Content;
use texml_tree::{Ops, Tree};

/// The tree of the operations, which lies in the arena.
///
/// # Errors
///
/// `Model` where the content model doesn't allow an operation, with the first fault, and `NoMemory` where there is no
/// memory.
pub fn build<'a>(
    alloc: Global,
    arena: &'a Bump,
    ops: &Ops,
    content: &Content,
) -> Result<Tree<'a>, BuildFault>
    ensures value { Builds (built (rules_of content.now) ops.now) result }
    ensures valid { IfOk result (λ tree. Valid (rules_of content.now) (tree_of tree)) }
{
    let mut tree = GrowingTree::new(alloc, arena, content);
    for op in ops.as_slice() {
        match tree.add(op) {
            Ok(()) => {}
            Err(_) => return Err(BuildFault::NoMemory),
        }
    }
    tree.finish()
}

/// The law on the definitions: the tree of every list of operations is valid.
pub fn every_tree_is_valid()
    ensures { EveryTreeIsValid }
{}

/// The law on the definitions: a text may go on with the one before it, and so may a space behind a text. The tree is the
/// same, and so is the fault.
pub fn texts_go_on()
    ensures { TextsGoOn }
{}
