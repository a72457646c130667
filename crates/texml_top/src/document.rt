//! Operations become a page.

ghost use Rattle.std.specs.Prelude.{◌≡◌, [], ◌∷◌, ◌++◌, IfOk, OnOk};
ghost use Rattle.texml_tree.specs.Plain.{tree_of};
ghost use Rattle.texml_build.specs.Answer.{Builds};
ghost use Rattle.texml_build.specs.Matched.{built};
ghost use Rattle.texml_build.specs.Valid.{Valid};
ghost use Rattle.texml_top.specs.Table.{elements as spec_elements, rules};
ghost use Rattle.texml_top.specs.Document.{document};
ghost use Rattle.texml_top.specs.Run.{EndsPage, SinkBlamed};

use crate::status::Status;
use crate::table::elements;
use bumpalo::Bump;
use std::alloc::{AllocError, Global};
use std::marker::Model;
use texml_base::Sink;
use texml_build::{BuildFault, Done, GrowingTree};
use texml_html::write;
use texml_model::Content;
use texml_tree::{Op, Tree};
use texml_xref::resolve;

/// What becomes of operations, which a clause sees: a tree grows of them, or they are dropped where no tree is wanted.
#[derive(Drop)]
pub struct Document<'c, 'a> {
    tree: Option<GrowingTree<'c, 'a>>,
    done: Done,
}

impl<'c, 'a> Model for Document<'c, 'a> {
    ghost use Rattle.std.specs.Prelude.{◌≡◌, List};
    ghost use Rattle.std.specs.Option.{ForSome};
    ghost use Rattle.texml_tree.specs.declared.ops.Op.{Op};
    ghost use Rattle.texml_top.specs.Table.{elements};

    ghost Value = { List Op };

    ghost view = { λ d. d.done.ops };

    ghost invariant = { λ d. ForSome d.tree (λ t. (t.table ≡ elements) × (t.ops ≡ d.done.ops)) };
}

impl<'c, 'a> Document<'c, 'a> {
    /// No operations yet, of which a tree is to grow. It takes no memory.
    pub fn growing(alloc: Global, arena: &'a Bump, content: &'c Content) -> Document<'c, 'a>
        requires { content.now ≡ spec_elements }
        ensures { result ≡ [] }
    {
        Document {
            tree: Some(GrowingTree::new(alloc, arena, content)),
            done: Done::none(),
        }
    }

    /// No operations yet, of which no tree is wanted.
    pub fn unwanted() -> Document<'c, 'a>
        ensures { result ≡ [] }
    {
        Document {
            tree: None,
            done: Done::none(),
        }
    }

    /// Takes one more operation.
    pub fn add(&mut self, op: &Op) -> Result<(), AllocError>
        ensures { OnOk result (self.new ≡ self.old ++ op.now ∷ []) }
    {
        match &mut self.tree {
            None => {}
            Some(tree) => tree.add(op)?,
        }
        self.done = Done::with(&self.done, op);
        Ok(())
    }

    // The tree. There is none, for want of memory, where none was wanted.
    fn finish(self) -> Result<Tree<'a>, BuildFault>
        ensures value { Builds (built rules self.entry) result }
        ensures valid { IfOk result (λ tree. Valid rules (tree_of tree)) }
    {
        let Document { tree, done: _ } = self;
        match tree {
            Some(tree) => tree.finish(),
            None => Err(BuildFault::NoMemory),
        }
    }
}

// Writes the page of the operations, of which a tree has grown by this table.
pub fn write_page<S: Sink>(
    alloc: Global,
    content: &Content,
    ops: Document<'_, '_>,
    out: &mut S,
) -> Status
    requires { content.now ≡ spec_elements }
    ensures ends { EndsPage result (document ops.entry) (S.ink out.old) (S.ink out.new) }
    ensures out_cause { SinkBlamed result (S.faults out.old) (S.faults out.new) }
{
    let tree = match ops.finish() {
        Ok(tree) => tree,
        Err(fault) => return Status::from(fault),
    };
    let linked = match resolve(alloc, tree, content) {
        Ok(linked) => linked,
        Err(_) => return Status::NoMemory,
    };
    match write(&linked, content, out) {
        Ok(()) => Status::Done,
        Err(_) => Status::WriteFault,
    }
}

// The content model of the table.
pub fn model(alloc: Global) -> Result<Content, AllocError>
    ensures { IfOk result (λ content. content ≡ spec_elements) }
{
    let elements = elements(alloc)?;
    Content::new(alloc, &elements)
}
