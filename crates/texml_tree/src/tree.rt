//! Trees in an arena, and the walks over them.

ghost use Rattle.std.specs.Prelude.{◌≡◌, map, reverse, find, nat_eq, IfOk};
ghost use Rattle.std.specs.Option.{option_map};
ghost use Rattle.texml_tree.specs.Tree.{text as made_text, element as made_element, trees, elem_of, text_of, children_of, attr_of, value_of, labels_of, target_of, is_identified};
ghost use Rattle.texml_tree.specs.Plain.{set_of, mark_of, head_of, plain, tree_of};

use crate::table::Elem;
use bumpalo::Bump;
use std::alloc::AllocError;

/// An attribute that is set, by its number in the table.
#[derive(Clone, Copy)]
pub struct Attr<'a> {
    pub number: usize,
    pub value: &'a [u8],
}

/// A label, with the number that references to it show.
#[derive(Clone, Copy)]
pub struct Tag<'a> {
    pub label: &'a [u8],
    pub number: &'a [u8],
}

/// What was given to an element. Most have nothing.
#[derive(Clone, Copy)]
pub struct Given<'a> {
    /// The label of the reference that started it.
    pub target: Option<&'a [u8]>,
    /// The attributes in the order in which they were set. The last one of a number counts.
    pub attrs: &'a [Attr<'a>],
    /// The labels in the order in which they were put.
    pub labels: &'a [Tag<'a>],
}

/// What an element is, beside its children.
#[derive(Clone, Copy)]
pub struct Head<'a> {
    pub elem: Elem,
    /// It is the root, or was flagged to get an id in the table that the tree was made by.
    pub identified: bool,
    /// What was given to it, which stands apart, since most elements have nothing.
    pub given: &'a Given<'a>,
}

/// A text, or an element with its children.
#[derive(Clone, Copy)]
pub enum Node<'a> {
    Text(&'a [u8]),
    Element(&'a Head<'a>, &'a [Node<'a>]),
}

/// A tree, whose parts lie in an arena.
#[derive(Clone, Copy)]
pub struct Tree<'a> {
    root: Node<'a>,
}

/// A text, copied into the arena.
///
/// # Errors
///
/// `AllocError` where there is no memory.
pub fn leaf<'a>(arena: &'a Bump, bytes: &[u8]) -> Result<Node<'a>, AllocError>
    ensures { IfOk result (λ node. plain node ≡ made_text bytes.now) }
{
    let copy: &'a [u8] = arena.try_alloc_slice_copy(bytes)?;
    Ok(Node::Text(copy))
}

/// An element which is copied into the arena with its children.
///
/// # Errors
///
/// `AllocError` where there is no memory.
pub fn element<'a>(
    arena: &'a Bump,
    head: Head<'a>,
    children: &[Node<'a>],
) -> Result<Node<'a>, AllocError>
    ensures { IfOk result (λ node. plain node ≡ made_element (head_of head.entry) (trees (map plain children.now))) }
{
    let copy: &'a [Node<'a>] = arena.try_alloc_slice_copy(children)?;
    let kept: &'a Head<'a> = arena.try_alloc(head)?;
    Ok(Node::Element(kept, copy))
}

impl<'a> Tree<'a> {
    /// The tree with this root.
    pub fn new(root: Node<'a>) -> Tree<'a>
        ensures { tree_of result ≡ plain root.entry }
    {
        Tree { root }
    }

    /// The root.
    pub fn root(&self) -> &Node<'a>
        ensures { plain result.now ≡ tree_of self.now }
    {
        &self.root
    }
}

impl<'a> Node<'a> {
    /// The element, none for a text.
    pub fn elem(&self) -> Option<Elem>
        ensures { option_map (λ e. e.0) result ≡ elem_of (plain self.now) }
    {
        match self {
            Node::Text(_) => None,
            Node::Element(head, _) => Some(head.elem),
        }
    }

    /// The bytes of a text, none for an element.
    pub fn text(&self) -> &'a [u8]
        ensures { result.now ≡ text_of (plain self.now) }
    {
        match self {
            Node::Text(text) => *text,
            Node::Element(_, _) => &[],
        }
    }

    /// The children in document order, none for a text.
    pub fn children(&self) -> &'a [Node<'a>]
        ensures { trees (map plain result.now) ≡ children_of (plain self.now) }
    {
        match self {
            Node::Text(_) => &[],
            Node::Element(_, children) => *children,
        }
    }

    /// The value of the attribute with this number, none where it isn't set.
    pub fn attr(&self, at: usize) -> Option<&'a [u8]>
        ensures { option_map (λ v. v.now) result ≡ attr_of at (plain self.now) }
    {
        match self {
            Node::Text(_) => None,
            Node::Element(head, _) => head.attr(at),
        }
    }

    /// The labels of an element in the order in which they were put, none for a text.
    pub fn labels(&self) -> &'a [Tag<'a>]
        ensures { map mark_of result.now ≡ labels_of (plain self.now) }
    {
        match self {
            Node::Text(_) => &[],
            Node::Element(head, _) => head.given.labels,
        }
    }

    /// The label of the reference that started the element, none where none did.
    pub fn target(&self) -> Option<&'a [u8]>
        ensures { option_map (λ t. t.now) result ≡ target_of (plain self.now) }
    {
        match self {
            Node::Text(_) => None,
            Node::Element(head, _) => head.given.target,
        }
    }

    /// Whether it is an element that gets an id.
    pub fn identified(&self) -> bool
        ensures { result ≡ is_identified (plain self.now) }
    {
        match self {
            Node::Text(_) => false,
            Node::Element(head, _) => head.identified,
        }
    }
}

impl<'a> Head<'a> {
    /// The value of the attribute with this number: the one that was set last. None where it isn't set.
    pub fn attr(&self, at: usize) -> Option<&'a [u8]>
        ensures { option_map (λ v. v.now) result ≡ value_of at (head_of self.now).sets }
    {
        last_value(self.given.attrs, at)
    }
}

/// The value that was set last for the attribute.
fn last_value<'a>(attrs: &'a [Attr<'a>], at: usize) -> Option<&'a [u8]>
    ensures { option_map (λ v. v.now) result ≡ value_of at (map set_of attrs.now) }
{
    let mut value = None;
    for attr in attrs {
        if attr.number == at {
            value = Some(attr.value);
        }
    }
    value
}
