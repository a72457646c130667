//! Operations of a document of any size.

ghost use Rattle.std.specs.Prelude.{◌≡◌, OnOk};

use crate::model::{PARAGRAPH, SECTION, TITLE};
use std::alloc::{AllocError, Global};
use texml_build::GrowingTree;
use texml_token::Bytes;
use texml_tree::{Op, Sets};

/// What a document has.
#[derive(Clone, Copy)]
pub(crate) enum Sample {
    /// So many sections, each with a label, a paragraph of so many bytes where they aren't 0, and a reference to the section.
    Sections(usize, usize),
    /// So many paragraphs of one text with so many bytes.
    Paragraphs(usize, usize),
}

/// Adds the operations of a sample.
pub(crate) fn add_all(
    alloc: Global,
    tree: &mut GrowingTree<'_, '_>,
    sample: Sample,
) -> Result<(), AllocError>
    ensures { OnOk result (tree.new.table ≡ tree.old.table) }
{
    match sample {
        Sample::Sections(count, length) => add_sections(alloc, tree, count, length),
        Sample::Paragraphs(count, length) => add_paragraphs(alloc, tree, count, length),
    }
}

fn add_paragraphs(
    alloc: Global,
    tree: &mut GrowingTree<'_, '_>,
    count: usize,
    length: usize,
) -> Result<(), AllocError>
    ensures { OnOk result (tree.new.table ≡ tree.old.table) }
{
    let text = Op::Text(text_of(alloc, length)?);
    for _at in 0..count {
        add_paragraph(tree, &text)?;
    }
    Ok(())
}

fn add_paragraph(tree: &mut GrowingTree<'_, '_>, text: &Op) -> Result<(), AllocError>
    ensures { OnOk result (tree.new.table ≡ tree.old.table) }
{
    tree.add(text)?;
    tree.add(&Op::CloseIf(PARAGRAPH))
}

fn add_sections(
    alloc: Global,
    tree: &mut GrowingTree<'_, '_>,
    count: usize,
    length: usize,
) -> Result<(), AllocError>
    ensures { OnOk result (tree.new.table ≡ tree.old.table) }
{
    let text = Op::Text(text_of(alloc, length)?);
    for at in 0..count {
        begin_section(alloc, tree, at)?;
        add_body(tree, &text, length)?;
        end_section(alloc, tree, at)?;
    }
    Ok(())
}

fn begin_section(alloc: Global, tree: &mut GrowingTree<'_, '_>, at: usize) -> Result<(), AllocError>
    ensures { OnOk result (tree.new.table ≡ tree.old.table) }
{
    tree.add(&Op::Open(SECTION, Sets::new(alloc)))?;
    tree.add(&Op::Label(label(alloc, at)?, number(alloc, at)?))?;
    tree.add(&Op::Open(TITLE, Sets::new(alloc)))?;
    tree.add(&Op::Text(number(alloc, at)?))?;
    tree.add(&Op::Close(TITLE))
}

// A paragraph of the text, none where it has no bytes.
fn add_body(tree: &mut GrowingTree<'_, '_>, text: &Op, length: usize) -> Result<(), AllocError>
    ensures { OnOk result (tree.new.table ≡ tree.old.table) }
{
    if length == 0 {
        return Ok(());
    }
    add_paragraph(tree, text)
}

fn end_section(alloc: Global, tree: &mut GrowingTree<'_, '_>, at: usize) -> Result<(), AllocError>
    ensures { OnOk result (tree.new.table ≡ tree.old.table) }
{
    tree.add(&Op::Ref(label(alloc, at)?))?;
    tree.add(&Op::Close(SECTION))
}

fn text_of(alloc: Global, length: usize) -> Result<Bytes, AllocError> {
    let mut text = Bytes::new(alloc);
    for _ in 0..length {
        text.push(b'a')?;
    }
    Ok(text)
}

fn number(alloc: Global, at: usize) -> Result<Bytes, AllocError> {
    let text = format!(in alloc; "{at}")?;
    Bytes::from_slice(alloc, text.as_bytes())
}

fn label(alloc: Global, at: usize) -> Result<Bytes, AllocError> {
    let text = format!(in alloc; "s{at}")?;
    Bytes::from_slice(alloc, text.as_bytes())
}
