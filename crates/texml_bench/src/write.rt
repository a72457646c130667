//! A sample becomes a page.

use crate::model::model;
use crate::sample::{Sample, add_all};
use bumpalo::Bump;
use std::alloc::Global;
use texml_base::{Sink, Trouble};
use texml_build::GrowingTree;
use texml_html::write;
use texml_xref::resolve;

/// Writes the page of a sample, whose tree grows in an arena.
pub(crate) fn write_sample<S: Sink>(
    alloc: Global,
    sample: Sample,
    out: &mut S,
) -> Result<(), Trouble> {
    let Ok(content) = model(alloc) else {
        return Err(Trouble::NoMemory);
    };
    let arena = Bump::new(alloc);
    let mut tree = GrowingTree::new(alloc, &arena, &content);
    match add_all(alloc, &mut tree, sample) {
        Ok(()) => {}
        Err(_) => return Err(Trouble::NoMemory),
    }
    let Ok(tree) = tree.finish() else {
        return Err(Trouble::NoMemory);
    };
    let Ok(linked) = resolve(alloc, tree, &content) else {
        return Err(Trouble::NoMemory);
    };
    match write(&linked, &content, out) {
        Ok(()) => Ok(()),
        Err(_) => Err(Trouble::Failed),
    }
}
