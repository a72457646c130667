//! Trees become linked trees.

ghost use Rattle.std.specs.Prelude.{◌≡◌, IfOk, map};
ghost use Rattle.std.specs.Option.{option_map, option_and_then};
ghost use Rattle.texml_tree.specs.Plain.{tree_of};
ghost use Rattle.texml_model.specs.Rules.{rules_of};
ghost use Rattle.texml_xref.specs.Refs.{linked};
ghost use Rattle.texml_xref.specs.Linked.{linked_of};
ghost use Rattle.texml_xref.specs.Links.{link_of, links_of, kept_owner};
ghost use Rattle.texml_xref.specs.Found.{targets_of};

use crate::linked::Linked;
use crate::owners::{Link, Owners, owner_of};
use crate::walk::{Kinds, nothing, visit};
use std::alloc::{AllocError, Global};
use texml_model::Content;
use texml_tree::Tree;

/// Gives ids, and links each reference to the owner of its label: the last element in document order that has the label, and
/// of its marks the last. References are the elements that the table names `ref`, and sections those named `section`.
///
/// # Errors
///
/// `AllocError` where there is no memory. The tree is dropped.
pub fn resolve<'a>(
    alloc: Global,
    tree: Tree<'a>,
    content: &Content,
) -> Result<Linked<'a>, AllocError>
    ensures { IfOk result (λ l. linked_of l ≡ linked (rules_of content.now) (tree_of tree.entry)) }
{
    let kinds = Kinds {
        reference: content.named(b"ref"),
        section: content.named(b"section"),
    };
    let mut found = nothing(alloc, kinds);
    visit(alloc, kinds, &mut found, tree.root())?;
    let links = links_to(alloc, &found.owners, found.targets.as_slice())?;
    Ok(Linked {
        tree,
        reference: kinds.reference,
        sections: found.sections,
        ids: found.ids,
        links,
    })
}

/// The link of each label of a reference.
#[tactic(auto, using(crate::proofs::Leading::linked_more))]
fn links_to<'a>(
    alloc: Global,
    owners: &Owners<'a>,
    targets: &[Option<&'a [u8]>],
) -> Result<Vec<Option<Link<'a>>>, AllocError>
    ensures { IfOk result (λ links. links_of links.items ≡ map (option_and_then (kept_owner owners.now)) (targets_of targets.now)) }
{
    let mut links = Vec::new(alloc);
    for target in targets {
        let link = link_to(alloc, owners, target)?;
        links.push(link)?;
    }
    Ok(links)
}

/// The link of the label of a reference, if it has one.
fn link_to<'a>(
    alloc: Global,
    owners: &Owners<'a>,
    target: &Option<&'a [u8]>,
) -> Result<Option<Link<'a>>, AllocError>
    ensures { IfOk result (λ link. option_map link_of link ≡ option_and_then (kept_owner owners.now) (option_map (λ t. t.now) target.now)) }
{
    match target {
        None => Ok(None),
        Some(label) => owner_of(alloc, owners, *label),
    }
}
