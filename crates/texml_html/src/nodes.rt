//! Nodes with all that is under them.

ghost use Rattle.std.specs.Prelude.{◌≡◌, [], ◌∷◌};
ghost use Rattle.texml_tree.specs.Plain.{head_of, plain};
ghost use Rattle.texml_xref.specs.Refs.{heads};
ghost use Rattle.texml_html.specs.Html.{behind, has_inside as spec_has_inside, opening, node as spec_node};
ghost use Rattle.texml_html.specs.Walk.{places_of, rules_in, linked_in, Ahead};
ghost use Rattle.texml_html.specs.Writing.{Wrote, lent_by};

use crate::contents::put_contents;
use crate::escape::{Inside, put_escaped};
use crate::links::put_reference;
use crate::page::Page;
use crate::places::{Places, pass, pass_head};
use crate::tags::{put_end_tag, put_start_tag};
use crate::writer::Writer;
use texml_base::Sink;
use texml_tree::{Head, Node};

/// Writes a node and all that is under it.
pub(crate) fn put_node<S: Sink>(
    page: &Page<'_, '_>,
    places: &mut Places,
    node: &Node<'_>,
    out: &mut Writer<'_, S>,
)
    requires { Ahead (rules_in page.now) (linked_in page.now) (places_of places.old) (heads (plain node.now)) }
    ensures written { Wrote (lent_by S.ink S.faults out.old) (spec_node (rules_in page.now) (linked_in page.now) (places_of places.old) (plain node.now)) (lent_by S.ink S.faults out.new) }
    ensures places { places_of places.new ≡ behind (linked_in page.now) (places_of places.old) (heads (plain node.now)) }
{
    match node {
        Node::Text(text) => put_escaped(out, Inside::Text, *text),
        Node::Element(head, children) => {
            put_opening(page, *places, *head, out);
            pass_head(page, places, *head);
            if has_inside(page, *head) {
                for child in *children {
                    put_node(page, places, child, out);
                }
                put_end_tag(page, *head, out);
            } else {
                for child in *children {
                    pass(page, places, child);
                }
            }
        }
    }
}

/// Writes what stands before the children of an element.
fn put_opening<S: Sink>(
    page: &Page<'_, '_>,
    places: Places,
    head: &Head<'_>,
    out: &mut Writer<'_, S>,
)
    requires { Ahead (rules_in page.now) (linked_in page.now) (places_of places) (head_of head.now ∷ []) }
    ensures { Wrote (lent_by S.ink S.faults out.old) (opening (rules_in page.now) (linked_in page.now) (places_of places) (head_of head.now)) (lent_by S.ink S.faults out.new) }
{
    if page.is_reference(head) {
        put_reference(page, places.references, out);
    } else if page.is_contents(head) {
        put_contents(page, out);
    } else {
        put_start_tag(page, places, head, out);
    }
}

/// Whether the element is written with its children and an end tag.
fn has_inside(page: &Page<'_, '_>, head: &Head<'_>) -> bool
    ensures { result ≡ spec_has_inside (rules_in page.now) (linked_in page.now) (head_of head.now) }
{
    !page.is_reference(head) && !page.is_contents(head) && !page.content.flags(head.elem).void
}
