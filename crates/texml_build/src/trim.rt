//! Spaces at the start and at the end of an element.

ghost use Rattle.std.specs.Prelude.{◌≡◌, map, OnOk};
ghost use Rattle.std.specs.Option.{option_to_list};
ghost use Rattle.texml_tree.specs.Plain.{plain};
ghost use Rattle.texml_build.specs.Trim.{strip_start as stripped_start, strip_end as stripped_end, trim_first as first_trimmed, trim_last as last_trimmed, trim_one};

use std::alloc::AllocError;
use texml_tree::Node;

const SPACE: u8 = 32;

/// The text without the spaces at its start.
fn strip_start(text: &[u8]) -> &[u8]
    ensures { result.now ≡ stripped_start text.now }
{
    let mut from = 0;
    while from < text.len() && text[from] == SPACE {
        from += 1;
    }
    &text[from..]
}

/// The text without the spaces at its end.
fn strip_end(text: &[u8]) -> &[u8]
    ensures { result.now ≡ stripped_end text.now }
{
    let mut to = text.len();
    while to > 0 && text[to - 1] == SPACE {
        to -= 1;
    }
    &text[..to]
}

/// Takes away the spaces at the start of the first child.
pub(crate) fn trim_first<'a>(kids: &mut Vec<Node<'a>>)
    ensures { map plain kids.new.items ≡ first_trimmed (map plain kids.old.items) }
{
    if let Some(Node::Text(text)) = kids.first() {
        let rest: &'a [u8] = strip_start(*text);
        if rest.is_empty() {
            kids.remove(0);
        } else {
            kids[0] = Node::Text(rest);
        }
    }
}

/// The last child without the spaces at its end.
#[tactic(auto, using(texml_tree::proofs::Nodes::plain_element))]
fn cut_last(last: Node<'_>) -> Option<Node<'_>>
    ensures { map plain (option_to_list result) ≡ trim_one (plain last.entry) }
{
    match last {
        Node::Element(head, children) => Some(Node::Element(head, children)),
        Node::Text(text) => {
            let rest = strip_end(text);
            if rest.is_empty() {
                None
            } else {
                Some(Node::Text(rest))
            }
        }
    }
}

/// Takes away the spaces at the end of the last child.
#[tactic(auto, using(crate::proofs::Trims::last_gone, crate::proofs::Trims::last_kept))]
pub(crate) fn trim_last(kids: &mut Vec<Node<'_>>) -> Result<(), AllocError>
    ensures { OnOk result (map plain kids.new.items ≡ last_trimmed (map plain kids.old.items)) }
{
    match kids.pop() {
        None => Ok(()),
        Some(last) => match cut_last(last) {
            None => Ok(()),
            Some(rest) => {
                kids.push(rest)?;
                Ok(())
            }
        },
    }
}
