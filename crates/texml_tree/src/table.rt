//! The table of elements: what each may have and hold, and how it is written.

ghost use Rattle.std.specs.Prelude.{◌≡◌, [], ◌∷◌, ◌++◌, OnOk, OnErr};

use std::alloc::{AllocError, Global};
use std::marker::Model;
use texml_token::{ByteList, Bytes};

/// An element, by its place in the table, the first being 0.
#[derive(Clone, Copy, Debug, PartialEq, Eq, PartialOrd, Ord, Hash)]
pub struct Elem(pub usize);

/// What an element is flagged.
#[derive(Clone, Copy, Debug, PartialEq, Eq)]
pub struct Flags {
    /// Texts may stand in it.
    pub text: bool,
    /// Spaces at its start and at its end go.
    pub block: bool,
    /// It may be opened between an element and what that can't hold itself.
    pub opens: bool,
    /// It may be closed where something doesn't fit into it.
    pub closes: bool,
    /// It gets an id, and labels go to it.
    pub id: bool,
    /// The contents of the document stand in it.
    pub toc: bool,
    /// It has no end tag and no children.
    pub void: bool,
}

/// A line of the table.
#[derive(Debug, Drop)]
pub struct ElementLine {
    /// The element's name.
    pub name: Bytes,
    /// The tag that it is written with.
    pub tag: Bytes,
    /// The class that it is written with, if there is one.
    pub class: Option<Bytes>,
    /// What it is flagged.
    pub flags: Flags,
    /// The names of the elements that it may hold.
    pub holds: ByteList,
    /// The names of the attributes that it may have, in the order in which they are written.
    pub attrs: ByteList,
}

impl Clone for ElementLine {
    ghost is_clone = { λ line copy. copy ≡ line };

    fn clone(&self) -> Result<ElementLine, AllocError> {
        Ok(ElementLine {
            name: self.name.clone()?,
            tag: self.tag.clone()?,
            class: self.class.clone()?,
            flags: self.flags,
            holds: self.holds.clone()?,
            attrs: self.attrs.clone()?,
        })
    }
}

/// A list of lines of the table.
#[derive(Debug, Drop)]
pub struct ElementLines {
    items: Vec<ElementLine>,
}

impl Model for ElementLines {
    ghost use Rattle.std.specs.Prelude.{List};
    ghost use Rattle.texml_tree.specs.declared.table.ElementLine.{ElementLine};

    ghost Value = { List ElementLine };

    ghost view = { λ l. l.items.items };
}

impl ElementLines {
    /// The empty list, which takes no memory.
    pub fn new(alloc: Global) -> ElementLines
        ensures { result ≡ [] }
    {
        ElementLines {
            items: Vec::new(alloc),
        }
    }

    /// Appends a line.
    ///
    /// # Errors
    ///
    /// `AllocError` where there is no memory. The list is then as before.
    pub fn push(&mut self, line: ElementLine) -> Result<(), AllocError>
        ensures ok { OnOk result (self.new ≡ self.old ++ line ∷ []) }
        ensures err { OnErr result (self.new ≡ self.old) }
    {
        self.items.push(line)?;
        Ok(())
    }

    /// The lines, the first in front.
    pub fn as_slice(&self) -> &[ElementLine]
        ensures { result.now ≡ self.now }
    {
        self.items.as_slice()
    }
}

impl Clone for ElementLines {
    ghost is_clone = { λ lines copy. copy ≡ lines };

    fn clone(&self) -> Result<ElementLines, AllocError> {
        Ok(ElementLines {
            items: self.items.clone()?,
        })
    }
}

/// The table of elements. An element's number is its place among the lines, an attribute's its place among the
/// attributes.
#[derive(Debug, Drop)]
pub struct Elements {
    /// The elements in table order.
    pub lines: ElementLines,
    /// The names of the attributes.
    pub attributes: ByteList,
}

impl Clone for Elements {
    ghost is_clone = { λ elements copy. copy ≡ elements };

    fn clone(&self) -> Result<Elements, AllocError> {
        Ok(Elements {
            lines: self.lines.clone()?,
            attributes: self.attributes.clone()?,
        })
    }
}
