//! References.

ghost use Rattle.std.specs.Prelude.{◌≡◌, ◌<◌, length};
ghost use Rattle.texml_xref.specs.Refs.{link_at, links_in};
ghost use Rattle.texml_html.specs.Html.{link_start, link, reference};
ghost use Rattle.texml_html.specs.Walk.{linked_in};
ghost use Rattle.texml_html.specs.Writing.{Wrote, lent_by};

use crate::escape::{Inside, put_escaped};
use crate::page::Page;
use crate::writer::Writer;
use texml_base::Sink;

/// Writes the start tag of a link to the element with this id.
pub(crate) fn put_link_start<S: Sink>(out: &mut Writer<'_, S>, id: &[u8])
    ensures { Wrote (lent_by S.ink S.faults out.old) (link_start id.now) (lent_by S.ink S.faults out.new) }
{
    out.put_between(b"<a href=\"#", id, b"\">");
}

/// Writes the reference with this place.
pub(crate) fn put_reference<S: Sink>(page: &Page<'_, '_>, at: u64, out: &mut Writer<'_, S>)
    requires { at < length (links_in (linked_in page.now)) }
    ensures { Wrote (lent_by S.ink S.faults out.old) (reference (link_at (linked_in page.now) at)) (lent_by S.ink S.faults out.new) }
{
    match page.linked.owner(at) {
        None => out.put(b"<span class=\"undefined\">??</span>"),
        Some(owner) => put_link(out, page.linked.id(owner), page.linked.number(at)),
    }
}

/// Writes a link that shows a number.
fn put_link<S: Sink>(out: &mut Writer<'_, S>, id: &[u8], number: &[u8])
    ensures { Wrote (lent_by S.ink S.faults out.old) (link id.now number.now) (lent_by S.ink S.faults out.new) }
{
    put_link_start(out, id);
    put_escaped(out, Inside::Text, number);
    out.put(b"</a>");
}
