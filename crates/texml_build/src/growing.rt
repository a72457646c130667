//! A tree that grows, one operation after the other.

ghost use Rattle.std.specs.Prelude.{◌≡◌, List, [], ◌∷◌, ◌++◌, Err, IfOk, OnOk, OnErr, IsErr, IsTrue};
ghost use Rattle.std.specs.Borrow.{ftrue};
ghost use Rattle.texml_tree.specs.declared.ops.Op.{Op};
ghost use Rattle.texml_tree.specs.Plain.{tree_of};
ghost use Rattle.texml_model.specs.Rules.{IsContentModel, rules_of};
ghost use Rattle.texml_build.specs.declared.fault.BuildFault.TheVariants.{NoMemory};
ghost use Rattle.texml_build.specs.Brackets.{steps};
ghost use Rattle.texml_build.specs.Matched.{built};
ghost use Rattle.texml_build.specs.Held.{fresh, held_of, Follows, Does};
ghost use Rattle.texml_build.specs.Answer.{Builds};
ghost use Rattle.texml_build.specs.Growing.{Growing, no_ops, with_op, stopped_now};
ghost use Rattle.texml_build.specs.Valid.{Valid};

use crate::builder::Builder;
use crate::fault::BuildFault;
use bumpalo::Bump;
use std::alloc::{AllocError, Global};
use std::marker::Model;
use std::mem;
use texml_model::Content;
use texml_tree::{Op, Tree};

/// The operations so far, which only proofs read. It takes no memory.
#[derive(Drop)]
pub struct Done {
    pub ghost ops: { List Op },
}

impl Model for Done {
    ghost also_owns = { λ _. ftrue };
}

impl Done {
    /// None so far.
    pub fn none() -> Done
        ensures { result.ops ≡ [] }
    {
        Done {}
    }

    /// One more.
    pub fn with(_before: &Done, _op: &Op) -> Done
        ensures { result.ops ≡ _before.now.ops ++ _op.now ∷ [] }
    {
        Done {}
    }
}

/// A tree that grows while operations come in, so that they need not be kept. It lies in an arena.
#[derive(Drop)]
pub struct GrowingTree<'c, 'a> {
    content: &'c Content,
    builder: Builder<'a>,
    state: Result<(), BuildFault>,
    done: Done,
}

impl<'c, 'a> Model for GrowingTree<'c, 'a> {
    ghost use Rattle.texml_model.specs.Rules.{rules_of};
    ghost use Rattle.texml_build.specs.Brackets.{steps};
    ghost use Rattle.texml_build.specs.Held.{fresh, held_of, Does};
    ghost use Rattle.texml_build.specs.Growing.{Growing, lacks_memory};

    ghost Value = { Growing };

    ghost view = { λ g. record { table = g.content.now; ops = g.done.ops; stopped = lacks_memory g.state } };

    ghost invariant = { λ g. Does (rules_of g.content.now) (steps (rules_of g.content.now) g.done.ops) (fresh (rules_of g.content.now)) (held_of g.builder) g.state };
}

impl<'c, 'a> GrowingTree<'c, 'a> {
    /// The tree of no operations, by this table. It takes no memory.
    pub fn new(alloc: Global, arena: &'a Bump, content: &'c Content) -> GrowingTree<'c, 'a>
        ensures { result ≡ no_ops content.now }
    {
        GrowingTree {
            content,
            builder: Builder::new(alloc, arena, content),
            state: Ok(()),
            done: Done::none(),
        }
    }

    /// Does one more operation. Where the table doesn't allow it, that is kept for `finish`.
    ///
    /// # Errors
    ///
    /// `AllocError` where there is no memory, and from then on. The operations are then as before.
    pub fn add(&mut self, op: &Op) -> Result<(), AllocError>
        ensures ok { OnOk result (self.new ≡ with_op self.old op.now) }
        ensures err { OnErr result (self.new ≡ stopped_now self.old) }
        ensures stays { IsTrue self.old.stopped → IsErr result }
    {
        let state = mem::replace(&mut self.state, Ok(()));
        self.state = advance(self.content, &mut self.builder, state, op);
        match &self.state {
            Err(BuildFault::NoMemory) => Err(AllocError),
            _ => {
                self.done = Done::with(&self.done, op);
                Ok(())
            }
        }
    }

    /// The tree of all operations.
    ///
    /// # Errors
    ///
    /// `Model` where the table doesn't allow an operation, with the first fault, and `NoMemory` where there is no memory, or
    /// was none before.
    pub fn finish(self) -> Result<Tree<'a>, BuildFault>
        ensures value { Builds (built (rules_of self.entry.table) self.entry.ops) result }
        ensures valid { IfOk result (λ tree. Valid (rules_of self.entry.table) (tree_of tree)) }
        ensures stopped { IsTrue self.entry.stopped → result ≡ Err NoMemory }
    {
        let GrowingTree {
            content,
            builder,
            state,
            done: _,
        } = self;
        match state {
            Ok(()) => close_all(content, builder),
            Err(fault) => Err(fault),
        }
    }
}

/// Does one more operation, unless one before was refused.
fn advance(
    content: &Content,
    builder: &mut Builder<'_>,
    state: Result<(), BuildFault>,
    op: &Op,
) -> Result<(), BuildFault>
    ensures does { (ops : List Op) → Does (rules_of content.now) (steps (rules_of content.now) ops) (fresh (rules_of content.now)) (held_of builder.old) state
        → Does (rules_of content.now) (steps (rules_of content.now) (ops ++ op.now ∷ [])) (fresh (rules_of content.now)) (held_of builder.new) result }
    ensures stays { OnErr state (result ≡ state) }
{
    match state {
        Err(fault) => Err(fault),
        Ok(()) => builder.step(content, op),
    }
}

/// The tree of a builder that has done all operations.
fn close_all<'a>(content: &Content, builder: Builder<'a>) -> Result<Tree<'a>, BuildFault>
    ensures value { (ops : List Op) → Follows (rules_of content.now) (steps (rules_of content.now) ops) (fresh (rules_of content.now)) (held_of builder.entry) → Builds (built (rules_of content.now) ops) result }
    ensures model { OnOk result (IsContentModel content.now) }
{
    let mut builder = builder;
    match builder.finish(content) {
        Err(fault) => Err(fault),
        Ok(()) => match builder.root(content) {
            Ok(root) => Ok(Tree::new(root)),
            Err(_) => Err(BuildFault::NoMemory),
        },
    }
}
