//! The texts of a tree.

ghost use Rattle.std.specs.Prelude.{◌≡◌, ◌==◌, map, length};
ghost use Rattle.std.specs.Option.{option_map};
ghost use Rattle.texml_tree.specs.Tree.{trees};
ghost use Rattle.texml_tree.specs.Plain.{plain};
ghost use Rattle.texml_xref.specs.Links.{place_of};
ghost use Rattle.texml_html.specs.Html.{escaped, texts, texts_or_none, first_placed as spec_first_placed, first_element as spec_first_element, untitled_if_empty};
ghost use Rattle.texml_html.specs.declared.escape.Inside.TheVariants.{Text};
ghost use Rattle.texml_html.specs.Writing.{Wrote, lent_by};

use crate::escape::{Inside, put_escaped};
use crate::page::is_placed;
use crate::writer::Writer;
use texml_base::Sink;
use texml_tree::{Elem, Node};

/// Writes all texts in a node.
pub(crate) fn put_texts<S: Sink>(out: &mut Writer<'_, S>, node: &Node<'_>)
    ensures { Wrote (lent_by S.ink S.faults out.old) (escaped Text (texts (plain node.now))) (lent_by S.ink S.faults out.new) }
{
    match node {
        Node::Text(text) => put_escaped(out, Inside::Text, *text),
        Node::Element(_, children) => {
            for child in *children {
                put_texts(out, child);
            }
        }
    }
}

/// Whether a node has no texts, or only empty ones.
fn is_blank(node: &Node<'_>) -> bool
    ensures { result ≡ (length (texts (plain node.now)) == 0) }
{
    match node {
        Node::Text(text) => text.is_empty(),
        Node::Element(_, children) => {
            for child in *children {
                if !is_blank(child) {
                    return false;
                }
            }
            true
        }
    }
}

/// The first element in document order that has the place in the table.
fn first_placed<'a>(place: Option<Elem>, node: &Node<'a>) -> Option<Node<'a>>
    ensures { option_map plain result ≡ spec_first_placed (place_of place) (plain node.now) }
{
    match node {
        Node::Text(_) => None,
        Node::Element(head, children) => {
            if is_placed(place, *head) {
                return Some(*node);
            }
            for child in *children {
                match first_placed(place, child) {
                    None => {}
                    Some(found) => return Some(found),
                }
            }
            None
        }
    }
}

/// The first of the nodes that is an element.
fn first_element<'a>(nodes: &[Node<'a>]) -> Option<Node<'a>>
    ensures { option_map plain result ≡ spec_first_element (trees (map plain nodes.now)) }
{
    for node in nodes {
        match node {
            Node::Text(_) => {}
            Node::Element(_, _) => return Some(*node),
        }
    }
    None
}

/// Writes all texts in the first of the nodes that is an element, if there is one.
pub(crate) fn put_first_texts<S: Sink>(out: &mut Writer<'_, S>, nodes: &[Node<'_>])
    ensures { Wrote (lent_by S.ink S.faults out.old) (escaped Text (texts_or_none (spec_first_element (trees (map plain nodes.now))))) (lent_by S.ink S.faults out.new) }
{
    match first_element(nodes) {
        None => {}
        Some(node) => put_texts(out, &node),
    }
}

/// Writes all texts in the first element that has the place in the table.
pub(crate) fn put_title<S: Sink>(out: &mut Writer<'_, S>, place: Option<Elem>, root: &Node<'_>)
    ensures { Wrote (lent_by S.ink S.faults out.old) (escaped Text (untitled_if_empty (texts_or_none (spec_first_placed (place_of place) (plain root.now))))) (lent_by S.ink S.faults out.new) }
{
    match first_placed(place, root) {
        None => out.put(b"untitled"),
        Some(node) => put_named(out, &node),
    }
}

/// Writes all texts in a node, or that there are none.
fn put_named<S: Sink>(out: &mut Writer<'_, S>, node: &Node<'_>)
    ensures { Wrote (lent_by S.ink S.faults out.old) (escaped Text (untitled_if_empty (texts (plain node.now)))) (lent_by S.ink S.faults out.new) }
{
    if is_blank(node) {
        out.put(b"untitled");
    } else {
        put_texts(out, node);
    }
}
