//! Start tags and end tags.

ghost use Rattle.std.specs.Prelude.{◌<◌, [], ◌∷◌};
ghost use Rattle.std.specs.Option.{option_map};
ghost use Rattle.std.specs.List.{flat_map};
ghost use Rattle.texml_tree.specs.Plain.{head_of};
ghost use Rattle.texml_html.specs.Html.{attribute, class, id, if_set, set_attribute, start_tag, end_tag};
ghost use Rattle.texml_html.specs.Walk.{places_of, rules_in, linked_in, Ahead};
ghost use Rattle.texml_html.specs.Writing.{Wrote, lent_by};

use crate::escape::{Inside, put_escaped};
use crate::page::Page;
use crate::places::Places;
use crate::writer::Writer;
use texml_base::Sink;
use texml_tree::Head;

/// Writes the start tag of an element.
pub(crate) fn put_start_tag<S: Sink>(
    page: &Page<'_, '_>,
    places: Places,
    head: &Head<'_>,
    out: &mut Writer<'_, S>,
)
    requires { Ahead (rules_in page.now) (linked_in page.now) (places_of places) (head_of head.now ∷ []) }
    ensures { Wrote (lent_by S.ink S.faults out.old) (start_tag (rules_in page.now) (places_of places) (head_of head.now)) (lent_by S.ink S.faults out.new) }
{
    out.put(b"<");
    out.put(page.content.tag(head.elem));
    put_class(out, page.content.class(head.elem));
    put_id(page, places, head, out);
    put_set_attributes(page, head, page.content.attrs(head.elem), out);
    out.put(b">");
}

/// Writes the end tag of an element.
pub(crate) fn put_end_tag<S: Sink>(page: &Page<'_, '_>, head: &Head<'_>, out: &mut Writer<'_, S>)
    requires { (head_of head.now).elem < (rules_in page.now).size }
    ensures { Wrote (lent_by S.ink S.faults out.old) (end_tag (rules_in page.now) (head_of head.now)) (lent_by S.ink S.faults out.new) }
{
    out.put_between(b"</", page.content.tag(head.elem), b">");
}

/// Writes the class, if there is one.
fn put_class<S: Sink>(out: &mut Writer<'_, S>, name: Option<&[u8]>)
    ensures { Wrote (lent_by S.ink S.faults out.old) (class (option_map (λ c. c.now) name.entry)) (lent_by S.ink S.faults out.new) }
{
    match name {
        None => {}
        Some(name) => put_attribute(out, b"class", name),
    }
}

/// Writes the id of an element, if it has one.
fn put_id<S: Sink>(page: &Page<'_, '_>, places: Places, head: &Head<'_>, out: &mut Writer<'_, S>)
    requires { Ahead (rules_in page.now) (linked_in page.now) (places_of places) (head_of head.now ∷ []) }
    ensures { Wrote (lent_by S.ink S.faults out.old) (id (places_of places) (head_of head.now)) (lent_by S.ink S.faults out.new) }
{
    if head.identified {
        out.put_between(b" id=\"", page.linked.id(places.ids), b"\"");
    }
}

/// Writes those of the attributes that are set.
fn put_set_attributes<S: Sink>(
    page: &Page<'_, '_>,
    head: &Head<'_>,
    attrs: &[usize],
    out: &mut Writer<'_, S>,
)
    ensures { Wrote (lent_by S.ink S.faults out.old) (flat_map (set_attribute (rules_in page.now) (head_of head.now)) attrs.now) (lent_by S.ink S.faults out.new) }
{
    for attr in attrs {
        put_set_attribute(out, page.content.attr_name(*attr), head.attr(*attr));
    }
}

/// Writes an attribute of the table, if it is set.
fn put_set_attribute<S: Sink>(out: &mut Writer<'_, S>, name: &[u8], value: Option<&[u8]>)
    ensures { Wrote (lent_by S.ink S.faults out.old) (if_set name.now (option_map (λ v. v.now) value.entry)) (lent_by S.ink S.faults out.new) }
{
    match value {
        None => {}
        Some(value) => {
            if name != b"number".as_slice() {
                put_attribute(out, name, value);
            }
        }
    }
}

/// Writes an attribute.
fn put_attribute<S: Sink>(out: &mut Writer<'_, S>, name: &[u8], value: &[u8])
    ensures { Wrote (lent_by S.ink S.faults out.old) (attribute name.now value.now) (lent_by S.ink S.faults out.new) }
{
    out.put_between(b" ", name, b"=\"");
    put_escaped(out, Inside::Attribute, value);
    out.put(b"\"");
}
