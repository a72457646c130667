//! A small table of elements, for the tests of the document.

ghost use Rattle.std.specs.Prelude.{◌≡◌, map, None, IfOk};
ghost use Rattle.texml_build.specs.Small.{small, line as line_of};

use std::alloc::{AllocError, Global};
use texml_model::Content;
use texml_token::{ByteList, Bytes};
use texml_tree::{ElementLine, ElementLines, Elements, Flags};

const PLAIN: Flags = Flags {
    text: false,
    block: false,
    opens: false,
    closes: false,
    id: false,
    toc: false,
    void: false,
};

const CELL: Flags = Flags {
    text: true,
    block: true,
    opens: true,
    closes: true,
    id: false,
    toc: false,
    void: false,
};

const ROW: Flags = Flags {
    text: false,
    block: false,
    opens: true,
    closes: true,
    id: false,
    toc: false,
    void: false,
};

const PART: Flags = Flags {
    text: false,
    block: false,
    opens: false,
    closes: true,
    id: true,
    toc: false,
    void: false,
};

const VOID: Flags = Flags {
    text: false,
    block: false,
    opens: false,
    closes: false,
    id: false,
    toc: false,
    void: true,
};

pub fn texts(alloc: Global, list: &[&[u8]]) -> Result<ByteList, AllocError>
    ensures { IfOk result (λ texts. texts ≡ map (λ t. t.now) list.now) }
{
    let mut texts = ByteList::new(alloc);
    for text in list {
        texts.push(Bytes::from_slice(alloc, *text)?)?;
    }
    Ok(texts)
}

fn line(
    alloc: Global,
    name: &[u8],
    flags: Flags,
    holds: &[&[u8]],
    attrs: &[&[u8]],
) -> Result<ElementLine, AllocError>
    ensures { IfOk result (λ line. line ≡ line_of name.now flags (map (λ t. t.now) holds.now) (map (λ t. t.now) attrs.now)) }
{
    Ok(ElementLine {
        name: Bytes::from_slice(alloc, name)?,
        tag: Bytes::from_slice(alloc, name)?,
        class: None,
        flags,
        holds: texts(alloc, holds)?,
        attrs: texts(alloc, attrs)?,
    })
}

fn lines(alloc: Global) -> Result<ElementLines, AllocError>
    ensures { IfOk result (λ lines. lines ≡ small.lines) }
{
    let mut lines = ElementLines::new(alloc);
    let parts: [&[u8]; 5] = [b"p", b"q", b"list", b"quote", b"tabular"];
    let inline: [&[u8]; 2] = [b"ref", b"break"];
    lines.push(line(alloc, b"document", PLAIN, &parts, &[])?)?;
    lines.push(line(alloc, b"p", CELL, &inline, &[])?)?;
    lines.push(line(alloc, b"q", CELL, &inline, &[])?)?;
    lines.push(line(alloc, b"list", PLAIN, &[b"item"], &[])?)?;
    lines.push(line(alloc, b"item", PART, &[b"p", b"list"], &[b"number"])?)?;
    lines.push(line(alloc, b"quote", PLAIN, &[b"quote", b"p"], &[])?)?;
    lines.push(line(alloc, b"tabular", PLAIN, &[b"tr"], &[])?)?;
    lines.push(line(alloc, b"tr", ROW, &[b"td"], &[])?)?;
    lines.push(line(alloc, b"td", CELL, &inline, &[b"span"])?)?;
    lines.push(line(alloc, b"ref", PLAIN, &[], &[])?)?;
    lines.push(line(alloc, b"break", VOID, &[], &[])?)?;
    Ok(lines)
}

#[tactic(auto, using(crate::proofs::Tables::is_model))]
pub fn small_model(alloc: Global) -> Result<Content, AllocError> {
    let elements = Elements {
        lines: lines(alloc)?,
        attributes: texts(alloc, &[b"number", b"span"])?,
    };
    Content::new(alloc, &elements)
}
