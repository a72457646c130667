//! The page.

ghost use Rattle.std.specs.Prelude.{◌≡◌, codes};
ghost use Rattle.texml_base.specs.Outside.{Takes, HasCause};
ghost use Rattle.texml_model.specs.Rules.{rules_of};
ghost use Rattle.texml_xref.specs.Refs.{heads};
ghost use Rattle.texml_xref.specs.Linked.{linked_of};
ghost use Rattle.texml_html.specs.Html.{AllKnown, html};
ghost use Rattle.texml_html.specs.Walk.{rules_in, linked_in};
ghost use Rattle.texml_html.specs.Writing.{Wrote, lent_by};

use crate::nodes::put_node;
use crate::page::Page;
use crate::places::FIRST_PLACES;
use crate::texts::put_title;
use crate::writer::Writer;
use texml_base::{Sink, SinkFail};
use texml_model::Content;
use texml_xref::Linked;

const HEAD: &[u8] = b"<!DOCTYPE html>\n<html><head><meta charset=\"utf-8\"><title>";

const BODY: &[u8] = b"</title></head><body>";

const END: &[u8] = b"</body></html>\n";

/// Appends the page of a linked tree to the sink, in blocks of some kilobytes. It takes no memory.
///
/// The element that the table names `ref` is written as a link with the number of its label, or as `??` where it leads
/// nowhere, and `toc` as a list of the elements that are flagged for it. The title is all texts in the first element
/// `title`. Attributes stand in the order of the element's line, but for `number`, which isn't written.
///
/// The table has each element of the tree, and `ref` at the place that it had when the tree was linked.
///
/// # Errors
///
/// `SinkFail` only where the sink's count of faults rose. A prefix of the page is written then.
pub fn write<S: Sink>(linked: &Linked<'_>, content: &Content, out: &mut S) -> Result<(), SinkFail>
    requires known { AllKnown (rules_of content.now) (heads (linked_of linked.now).tree) }
    requires same_reference { (rules_of content.now).named (codes "ref") ≡ (linked_of linked.now).reference }
    ensures written { Takes (S.ink out.old) (S.ink out.new) result (html (rules_of content.now) (linked_of linked.now)) }
    ensures cause { HasCause (S.faults out.old) (S.faults out.new) result }
{
    let page = Page {
        content,
        linked,
        reference: content.named(b"ref"),
        contents: content.named(b"toc"),
    };
    let mut writer = Writer::new(out);
    put_page(&page, &mut writer);
    writer.flush();
    if writer.failed { Err(SinkFail) } else { Ok(()) }
}

/// Writes the page.
fn put_page<S: Sink>(page: &Page<'_, '_>, out: &mut Writer<'_, S>)
    ensures { Wrote (lent_by S.ink S.faults out.old) (html (rules_in page.now) (linked_in page.now)) (lent_by S.ink S.faults out.new) }
{
    let root = page.linked.tree().root();
    let mut places = FIRST_PLACES;
    out.put(HEAD);
    put_title(out, page.content.named(b"title"), root);
    out.put(BODY);
    put_node(page, &mut places, root, out);
    out.put(END);
}
