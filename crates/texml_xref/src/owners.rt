//! Who owns each label.

ghost use Rattle.std.specs.Prelude.{◌≡◌, IfOk, OnOk, None, Some, List, ℕ, map, if◌then◌else◌};
ghost use Rattle.std.specs.Option.{option_map, option_or};
ghost use Rattle.texml_token.specs.Token.{text_eq};
ghost use Rattle.texml_tree.specs.Plain.{mark_of as plain_mark};
ghost use Rattle.texml_xref.specs.Refs.{link_to};
ghost use Rattle.texml_xref.specs.Links.{link_of, kept_owner};

use indexmap::IndexMap;
use std::alloc::{AllocError, Global};
use texml_token::Bytes;
use texml_tree::Tag;

/// Where a reference leads: to the element with this place among those with ids, and the number of the label there.
#[derive(Clone, Copy)]
pub struct Link<'a> {
    pub(crate) owner: u64,
    pub(crate) number: &'a [u8],
}

/// The owner of each label so far.
#[derive(Drop)]
pub struct Owners<'a> {
    pub(crate) links: IndexMap<Bytes, Link<'a>>,
}

/// No label has an owner.
pub(crate) fn no_owners<'a>(alloc: Global) -> Owners<'a>
    ensures { (label : List ℕ) → kept_owner result label ≡ None }
{
    Owners {
        links: IndexMap::new(alloc),
    }
}

/// The owner of a label.
pub(crate) fn owner_of<'a>(
    alloc: Global,
    owners: &Owners<'a>,
    label: &[u8],
) -> Result<Option<Link<'a>>, AllocError>
    ensures { IfOk result (λ link. option_map link_of link ≡ kept_owner owners.now label.now) }
{
    let key = Bytes::from_slice(alloc, label)?;
    match owners.links.get(&key) {
        None => Ok(None),
        Some(link) => Ok(Some(*link)),
    }
}

/// The element at this place owns the label from now on.
pub(crate) fn own<'a>(
    alloc: Global,
    owners: &mut Owners<'a>,
    owner: u64,
    tag: &Tag<'a>,
) -> Result<(), AllocError>
    ensures { OnOk result ((label : List ℕ) → kept_owner owners.new label ≡ (if text_eq tag.now.label.now label then Some (record { owner = owner; number = tag.now.number.now }) else kept_owner owners.old label)) }
{
    let key = Bytes::from_slice(alloc, tag.label)?;
    owners.links.insert(
        key,
        Link {
            owner,
            number: tag.number,
        },
    )?;
    Ok(())
}

/// The element at this place owns all its labels from now on.
pub(crate) fn own_all<'a>(
    alloc: Global,
    owners: &mut Owners<'a>,
    owner: u64,
    labels: &[Tag<'a>],
) -> Result<(), AllocError>
    ensures { OnOk result ((label : List ℕ) → kept_owner owners.new label ≡ option_or (link_to owner label (map plain_mark labels.now)) (kept_owner owners.old label)) }
{
    for tag in labels {
        own(alloc, owners, owner, tag)?;
    }
    Ok(())
}
