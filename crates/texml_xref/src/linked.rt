//! A tree whose references are linked.

ghost use Rattle.std.specs.Prelude.{◌≡◌, ◌<◌, ◌^◌, length, map};
ghost use Rattle.texml_tree.specs.Plain.{tree_of};
ghost use Rattle.texml_xref.specs.Refs.{heads, identified, link_in, placed};
ghost use Rattle.texml_xref.specs.Links.{links_of, place_of, ids_upto};

use crate::owners::Link;
use texml_token::Bytes;
use texml_tree::{Elem, Tree};

/// A tree in an arena whose references are linked to the owners of their labels.
#[derive(Drop)]
pub struct Linked<'a> {
    pub(crate) tree: Tree<'a>,
    pub(crate) reference: Option<Elem>,
    pub(crate) sections: u64,
    pub(crate) ids: Vec<Bytes>,
    pub(crate) links: Vec<Option<Link<'a>>>,
    pub ghost ids_are: { ids.items ≡ ids_upto (length (identified (heads (tree_of tree)))) },
    pub ghost links_are: { links_of links.items ≡ map (link_in (heads (tree_of tree))) (placed (place_of reference) (heads (tree_of tree))) },
    pub ghost few_ids: { length (identified (heads (tree_of tree))) < 2 ^ 64 },
    pub ghost few_links: { length (placed (place_of reference) (heads (tree_of tree))) < 2 ^ 64 },
}

impl<'a> Linked<'a> {
    ghost use Rattle.std.specs.Prelude.{IsSome, IfSome, count_by, is_none};
    ghost use Rattle.std.specs.Option.{option_map};
    ghost use Rattle.texml_xref.specs.Refs.{id_of, ids_in, links_in, link_at};
    ghost use Rattle.texml_xref.specs.Linked.{linked_of};
    ghost use Rattle.texml_xref.specs.Links.{link_of};

    /// The tree.
    pub fn tree(&self) -> &Tree<'a>
        ensures { tree_of result.now ≡ (linked_of self.now).tree }
    {
        &self.tree
    }

    /// How many elements are sections.
    pub fn sections(&self) -> u64
        ensures { result ≡ (linked_of self.now).sections }
    {
        self.sections
    }

    /// How many elements are references.
    pub fn references(&self) -> u64
        ensures { result ≡ length (links_in (linked_of self.now)) }
    {
        self.links.len() as u64
    }

    /// How many references lead nowhere.
    pub fn undefined(&self) -> u64
        ensures { result ≡ count_by is_none (links_in (linked_of self.now)) }
    {
        self.links.iter().filter(|link| link.is_none()).count() as u64
    }

    /// The id of the element at this place among those with ids, counted from 0 in document order.
    pub fn id(&self, at: u64) -> &[u8]
        requires { at < ids_in (linked_of self.now) }
        ensures { result.now ≡ id_of at }
    {
        self.ids[at as usize].as_slice()
    }

    /// The place among the elements with ids of the owner of a reference's label, `None` exactly where the reference leads
    /// nowhere. References are counted from 0 in document order.
    pub fn owner(&self, at: u64) -> Option<u64>
        requires { at < length (links_in (linked_of self.now)) }
        ensures value { result ≡ option_map (λ link. link.owner) (link_at (linked_of self.now) at) }
        ensures within { IfSome result (λ owner. owner < ids_in (linked_of self.now)) }
    {
        match self.link(at) {
            None => None,
            Some(link) => Some(link.owner),
        }
    }

    /// The number that the label of a reference has where its owner is.
    pub fn number(&self, at: u64) -> &'a [u8]
        requires { IsSome (link_at (linked_of self.now) at) }
        ensures { IfSome (link_at (linked_of self.now) at) (λ link. result.now ≡ link.number) }
    {
        match &self.links[at as usize] {
            None => &[],
            Some(link) => link.number,
        }
    }

    /// Where a reference leads.
    fn link(&self, at: u64) -> Option<Link<'a>>
        requires { at < length (links_in (linked_of self.now)) }
        ensures { option_map link_of result ≡ link_at (linked_of self.now) at }
    {
        self.links[at as usize]
    }
}
