//! The walk through a tree that finds ids, owners and references.

ghost use Rattle.std.specs.Prelude.{◌≡◌, ◌+◌, [], ◌∷◌, ◌++◌, List, IfOk, OnOk, length, map, true};
ghost use Rattle.texml_tree.specs.Tree.{Head as PlainHead};
ghost use Rattle.texml_tree.specs.Plain.{head_of, plain};
ghost use Rattle.texml_xref.specs.Refs.{heads, id_of, is_placed as spec_is_placed, placed};
ghost use Rattle.texml_xref.specs.Links.{place_of};
ghost use Rattle.texml_xref.specs.Found.{targets_of, HasOwners, HasFound};

use crate::owners::{Owners, no_owners, own_all};
use std::alloc::{AllocError, Global};
use texml_token::Bytes;
use texml_tree::{Elem, Head, Node};

/// The elements that are references, and those that are sections, by their places in the table.
#[derive(Clone, Copy)]
pub(crate) struct Kinds {
    pub(crate) reference: Option<Elem>,
    pub(crate) section: Option<Elem>,
}

/// What the walk has found so far.
#[derive(Drop)]
pub struct Found<'a> {
    /// The ids.
    pub(crate) ids: Vec<Bytes>,
    /// The owners of labels.
    pub(crate) owners: Owners<'a>,
    /// The labels of the references.
    pub(crate) targets: Vec<Option<&'a [u8]>>,
    /// How many sections there are.
    pub(crate) sections: u64,
}

/// Nothing is found yet.
pub(crate) fn nothing<'a>(alloc: Global, kinds: Kinds) -> Found<'a>
    ensures { HasFound (place_of kinds.reference) (place_of kinds.section) result [] }
{
    Found {
        ids: Vec::new(alloc),
        owners: no_owners(alloc),
        targets: Vec::new(alloc),
        sections: 0,
    }
}

/// Goes through a node and all that is under it, in document order.
pub(crate) fn visit<'a>(
    alloc: Global,
    kinds: Kinds,
    found: &mut Found<'a>,
    node: &Node<'a>,
) -> Result<(), AllocError>
    ensures { OnOk result ((hs : List PlainHead) → HasFound (place_of kinds.reference) (place_of kinds.section) found.old hs → HasFound (place_of kinds.reference) (place_of kinds.section) found.new (hs ++ heads (plain node.now))) }
{
    match node {
        Node::Text(_) => Ok(()),
        Node::Element(head, children) => {
            meet(alloc, kinds, found, *head)?;
            for child in *children {
                visit(alloc, kinds, found, child)?;
            }
            Ok(())
        }
    }
}

/// Takes note of one element.
#[tactic(auto, using(crate::proofs::Walks::met))]
fn meet<'a>(
    alloc: Global,
    kinds: Kinds,
    found: &mut Found<'a>,
    head: &Head<'a>,
) -> Result<(), AllocError>
    ensures { OnOk result ((hs : List PlainHead) → HasFound (place_of kinds.reference) (place_of kinds.section) found.old hs → HasFound (place_of kinds.reference) (place_of kinds.section) found.new (hs ++ head_of head.now ∷ [])) }
{
    note_id(alloc, &mut found.ids, &mut found.owners, head)?;
    note_target(kinds.reference, &mut found.targets, head)?;
    found.sections = with_section(kinds.section, found.sections, head)?;
    Ok(())
}

/// Gives the element an id if it gets one, and its labels to it.
#[tactic(auto, using(crate::proofs::Owning::noted, crate::proofs::Owning::not_noted))]
fn note_id<'a>(
    alloc: Global,
    ids: &mut Vec<Bytes>,
    owners: &mut Owners<'a>,
    head: &Head<'a>,
) -> Result<(), AllocError>
    ensures { OnOk result ((hs : List PlainHead) → HasOwners ids.old.items owners.old hs → HasOwners ids.new.items owners.new (hs ++ head_of head.now ∷ [])) }
{
    if head.identified {
        let place = ids.as_slice().len() as u64;
        let id = id_text(alloc, place)?;
        ids.push(id)?;
        own_all(alloc, owners, place, head.given.labels)?;
    }
    Ok(())
}

/// The id of the element at this place among those with ids.
fn id_text(alloc: Global, place: u64) -> Result<Bytes, AllocError>
    ensures { IfOk result (λ id. id ≡ id_of place) }
{
    let text = format!(in alloc; "x{place}")?;
    Bytes::from_slice(alloc, text.as_bytes())
}

/// Keeps the label of a reference.
fn note_target<'a>(
    reference: Option<Elem>,
    targets: &mut Vec<Option<&'a [u8]>>,
    head: &Head<'a>,
) -> Result<(), AllocError>
    ensures { OnOk result (targets_of targets.new.items ≡ targets_of targets.old.items ++ map (λ h. h.target) (placed (place_of reference) (head_of head.now ∷ []))) }
{
    if is_placed(reference, head) {
        targets.push(head.given.target)?;
    }
    Ok(())
}

/// The number of sections with this element. More than a `u64` counts are no memory.
fn with_section(section: Option<Elem>, sections: u64, head: &Head<'_>) -> Result<u64, AllocError>
    ensures { IfOk result (λ count. count ≡ sections + length (placed (place_of section) (head_of head.now ∷ []))) }
{
    if is_placed(section, head) {
        sections.checked_add(1).ok_or(AllocError)
    } else {
        Ok(sections)
    }
}

/// Whether the element has the place, if there is one.
fn is_placed(place: Option<Elem>, head: &Head<'_>) -> bool
    ensures { result ≡ spec_is_placed (place_of place) (head_of head.now) }
{
    match place {
        None => false,
        Some(elem) => head.elem.0 == elem.0,
    }
}
