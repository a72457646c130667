//! The table of elements of the measured documents.

ghost use Rattle.std.specs.Prelude.{◌≡◌, map, IfOk};
ghost use Rattle.texml_bench.specs.Table.{table, line as spec_line};

use std::alloc::{AllocError, Global};
use texml_model::Content;
use texml_token::{ByteList, Bytes};
use texml_tree::{Elem, ElementLine, ElementLines, Elements, Flags};

pub(crate) const SECTION: Elem = Elem(1);

pub(crate) const TITLE: Elem = Elem(2);

pub(crate) const PARAGRAPH: Elem = Elem(3);

const PLAIN: Flags = Flags {
    text: false,
    block: false,
    opens: false,
    closes: false,
    id: false,
    toc: false,
    void: false,
};

const WORDS: Flags = Flags {
    text: true,
    block: true,
    opens: false,
    closes: false,
    id: false,
    toc: false,
    void: false,
};

const PART: Flags = Flags {
    text: false,
    block: false,
    opens: false,
    closes: false,
    id: true,
    toc: false,
    void: false,
};

const PARAGRAPH_FLAGS: Flags = Flags {
    text: true,
    block: true,
    opens: true,
    closes: true,
    id: false,
    toc: false,
    void: false,
};

#[tactic(auto, using(crate::proofs::Tables::is_model))]
pub(crate) fn model(alloc: Global) -> Result<Content, AllocError> {
    let elements = Elements {
        lines: lines(alloc)?,
        attributes: ByteList::new(alloc),
    };
    Content::new(alloc, &elements)
}

fn lines(alloc: Global) -> Result<ElementLines, AllocError>
    ensures { IfOk result (λ lines. lines ≡ table.lines) }
{
    let mut lines = ElementLines::new(alloc);
    lines.push(line(alloc, b"document", PLAIN, &[b"section", b"p"])?)?;
    lines.push(line(alloc, b"section", PART, &[b"title", b"p"])?)?;
    lines.push(line(alloc, b"title", WORDS, &[])?)?;
    lines.push(line(alloc, b"p", PARAGRAPH_FLAGS, &[b"ref"])?)?;
    lines.push(line(alloc, b"ref", PLAIN, &[])?)?;
    Ok(lines)
}

fn line(
    alloc: Global,
    name: &[u8],
    flags: Flags,
    holds: &[&[u8]],
) -> Result<ElementLine, AllocError>
    ensures { IfOk result (λ line. line ≡ spec_line name.now flags (map (λ t. t.now) holds.now)) }
{
    Ok(ElementLine {
        name: Bytes::from_slice(alloc, name)?,
        tag: Bytes::from_slice(alloc, name)?,
        class: None,
        flags,
        holds: texts(alloc, holds)?,
        attrs: ByteList::new(alloc),
    })
}

fn texts(alloc: Global, list: &[&[u8]]) -> Result<ByteList, AllocError>
    ensures { IfOk result (λ texts. texts ≡ map (λ t. t.now) list.now) }
{
    let mut texts = ByteList::new(alloc);
    for text in list {
        texts.push(Bytes::from_slice(alloc, *text)?)?;
    }
    Ok(texts)
}
