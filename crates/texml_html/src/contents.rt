//! The contents of the document.

ghost use Rattle.std.specs.Prelude.{◌≡◌, map, [], ◌∷◌};
ghost use Rattle.texml_tree.specs.Tree.{trees};
ghost use Rattle.texml_tree.specs.Plain.{head_of, plain};
ghost use Rattle.texml_xref.specs.Refs.{heads};
ghost use Rattle.texml_html.specs.Html.{behind, contents, entries, entry};
ghost use Rattle.texml_html.specs.Walk.{places_of, rules_in, linked_in, Ahead};
ghost use Rattle.texml_html.specs.Writing.{Wrote, lent_by};

use crate::links::put_link_start;
use crate::page::Page;
use crate::places::{FIRST_PLACES, Places, pass_head};
use crate::texts::put_first_texts;
use crate::writer::Writer;
use texml_base::Sink;
use texml_tree::{Head, Node};

/// Writes the contents.
pub(crate) fn put_contents<S: Sink>(page: &Page<'_, '_>, out: &mut Writer<'_, S>)
    ensures { Wrote (lent_by S.ink S.faults out.old) (contents (rules_in page.now) (linked_in page.now)) (lent_by S.ink S.faults out.new) }
{
    let mut places = FIRST_PLACES;
    out.put(b"<ul class=\"toc\">");
    put_entries(page, &mut places, page.linked.tree().root(), out);
    out.put(b"</ul>");
}

/// Writes the entries of a node and of all that is under it.
fn put_entries<S: Sink>(
    page: &Page<'_, '_>,
    places: &mut Places,
    node: &Node<'_>,
    out: &mut Writer<'_, S>,
)
    requires { Ahead (rules_in page.now) (linked_in page.now) (places_of places.old) (heads (plain node.now)) }
    ensures written { Wrote (lent_by S.ink S.faults out.old) (entries (rules_in page.now) (linked_in page.now) (places_of places.old) (plain node.now)) (lent_by S.ink S.faults out.new) }
    ensures places { places_of places.new ≡ behind (linked_in page.now) (places_of places.old) (heads (plain node.now)) }
{
    match node {
        Node::Text(_) => {}
        Node::Element(head, children) => {
            put_entry(page, *places, *head, *children, out);
            pass_head(page, places, *head);
            for child in *children {
                put_entries(page, places, child, out);
            }
        }
    }
}

/// Writes the entry of an element, if it has one.
fn put_entry<S: Sink>(
    page: &Page<'_, '_>,
    places: Places,
    head: &Head<'_>,
    children: &[Node<'_>],
    out: &mut Writer<'_, S>,
)
    requires { Ahead (rules_in page.now) (linked_in page.now) (places_of places) (head_of head.now ∷ []) }
    ensures { Wrote (lent_by S.ink S.faults out.old) (entry (rules_in page.now) (places_of places) (head_of head.now) (trees (map plain children.now))) (lent_by S.ink S.faults out.new) }
{
    if page.content.flags(head.elem).toc && head.identified {
        out.put(b"<li>");
        put_link_start(out, page.linked.id(places.ids));
        put_first_texts(out, children);
        out.put(b"</a></li>");
    }
}
