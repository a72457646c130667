//! What is written.

ghost use Rattle.std.specs.Prelude.{◌≡◌, codes};
ghost use Rattle.texml_tree.specs.Plain.{head_of};
ghost use Rattle.texml_model.specs.Rules.{rules_of};
ghost use Rattle.texml_xref.specs.Refs.{heads, is_placed as spec_is_placed};
ghost use Rattle.texml_xref.specs.Linked.{linked_of};
ghost use Rattle.texml_xref.specs.Links.{place_of};
ghost use Rattle.texml_html.specs.Html.{AllKnown};

use texml_model::Content;
use texml_tree::{Elem, Head};
use texml_xref::Linked;

/// A linked tree with the table that it is written by.
#[derive(Clone, Copy)]
pub struct Page<'p, 'a> {
    pub(crate) content: &'p Content,
    pub(crate) linked: &'p Linked<'a>,
    pub(crate) reference: Option<Elem>,
    pub(crate) contents: Option<Elem>,
    pub ghost known: { AllKnown (rules_of content.now) (heads (linked_of linked.now).tree) },
    pub ghost reference_is: { place_of reference ≡ (linked_of linked.now).reference },
    pub ghost contents_is: { place_of contents ≡ (rules_of content.now).named (codes "toc") },
}

impl<'p, 'a> Page<'p, 'a> {
    ghost use Rattle.texml_html.specs.Html.{is_contents as spec_is_contents};
    ghost use Rattle.texml_html.specs.Walk.{rules_in, linked_in};

    /// Whether the element is a reference.
    pub(crate) fn is_reference(&self, head: &Head<'_>) -> bool
        ensures { result ≡ spec_is_placed (linked_in self.now).reference (head_of head.now) }
    {
        is_placed(self.reference, head)
    }

    /// Whether the contents stand for the element.
    pub(crate) fn is_contents(&self, head: &Head<'_>) -> bool
        ensures { result ≡ spec_is_contents (rules_in self.now) (head_of head.now) }
    {
        is_placed(self.contents, head)
    }
}

/// Whether the element has the place in the table, if there is one.
pub(crate) fn is_placed(place: Option<Elem>, head: &Head<'_>) -> bool
    ensures { result ≡ spec_is_placed (place_of place) (head_of head.now) }
{
    match place {
        None => false,
        Some(elem) => head.elem.0 == elem.0,
    }
}
