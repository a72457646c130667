//! How many elements with ids, and how many references, stand before.

ghost use Rattle.std.specs.Prelude.{◌≡◌, [], ◌∷◌};
ghost use Rattle.texml_tree.specs.Plain.{head_of, plain};
ghost use Rattle.texml_xref.specs.Refs.{heads};
ghost use Rattle.texml_html.specs.Html.{behind};
ghost use Rattle.texml_html.specs.Walk.{places_of, rules_in, linked_in, Ahead};

use crate::page::Page;
use texml_tree::{Head, Node};

/// The places of the next element with an id, and of the next reference.
#[derive(Clone, Copy)]
pub struct Places {
    pub(crate) ids: u64,
    pub(crate) references: u64,
}

/// The places behind an element, and before its children.
#[tactic(auto)]
pub(crate) fn pass_head(page: &Page<'_, '_>, places: &mut Places, head: &Head<'_>)
    requires { Ahead (rules_in page.now) (linked_in page.now) (places_of places.old) (head_of head.now ∷ []) }
    ensures { places_of places.new ≡ behind (linked_in page.now) (places_of places.old) (head_of head.now ∷ []) }
{
    if head.identified {
        places.ids += 1;
    }
    if page.is_reference(head) {
        places.references += 1;
    }
}

/// The places behind a node and all that is under it.
pub(crate) fn pass(page: &Page<'_, '_>, places: &mut Places, node: &Node<'_>)
    requires { Ahead (rules_in page.now) (linked_in page.now) (places_of places.old) (heads (plain node.now)) }
    ensures { places_of places.new ≡ behind (linked_in page.now) (places_of places.old) (heads (plain node.now)) }
{
    match node {
        Node::Text(_) => {}
        Node::Element(head, children) => {
            pass_head(page, places, *head);
            for child in *children {
                pass(page, places, child);
            }
        }
    }
}

/// Before the root.
pub(crate) const FIRST_PLACES: Places = Places {
    ids: 0,
    references: 0,
};
