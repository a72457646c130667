//! The table of elements: what each may have and hold, and how it is written.

ghost use Rattle.std.specs.Prelude.{◌≡◌, ◌++◌, map, IfOk, OnOk};
ghost use Rattle.std.specs.Option.{option_map};
ghost use Rattle.texml_top.specs.Table.{line_of as spec_line_of, flags_in, with_flag as spec_with_flag, names_in, elements as spec_elements};

use Flag::{Block, Closes, Id, Opens, Text, Toc, Void};
use Set::{Blocks, Inline, Nothing};
use std::alloc::{AllocError, Global};
use texml_token::{ByteList, Bytes};
use texml_tree::{Elem, ElementLine, ElementLines, Elements, Flags};

/// What an element is flagged, as `Flags` has it.
#[derive(Clone, Copy)]
pub enum Flag {
    Text,
    Block,
    Opens,
    Closes,
    Id,
    Toc,
    Void,
}

/// A set of elements that many others hold.
#[derive(Clone, Copy)]
pub enum Set {
    Nothing,
    /// What stands in texts.
    Inline,
    /// What stands beside paragraphs, and these.
    Blocks,
}

/// A line of the table: a name, a tag and perhaps a class that it is written with, flags, what it holds by name and by a set,
/// and its attributes.
pub type Row = (
    &'static str,
    &'static str,
    Option<&'static str>,
    &'static [Flag],
    &'static [&'static str],
    Set,
    &'static [&'static str],
);

pub const INLINE: [&str; 10] = [
    "math", "emph", "strong", "code", "link", "ref", "note", "graphics", "break", "num",
];

pub const BLOCKS: [&str; 13] = [
    "p",
    "list",
    "olist",
    "dlist",
    "quote",
    "verbatim",
    "figure",
    "float",
    "tabular",
    "equation",
    "display",
    "toc",
    "bibliography",
];

/// The elements in their order. An element is its place among them.
pub static ROWS: [Row; 40] = [
    (
        "document",
        "main",
        None,
        &[Id],
        &[
            "title",
            "author",
            "date",
            "abstract",
            "section",
            "subsection",
            "subsubsection",
        ],
        Blocks,
        &[],
    ),
    ("title", "h1", None, &[Text, Block], &[], Inline, &[]),
    (
        "author",
        "p",
        Some("author"),
        &[Text, Block],
        &[],
        Inline,
        &[],
    ),
    ("date", "p", Some("date"), &[Text, Block], &[], Inline, &[]),
    ("abstract", "div", Some("abstract"), &[], &[], Blocks, &[]),
    (
        "section",
        "section",
        None,
        &[Id, Closes, Toc],
        &["heading", "subsection", "subsubsection"],
        Blocks,
        &["number"],
    ),
    (
        "subsection",
        "section",
        None,
        &[Id, Closes, Toc],
        &["subheading", "subsubsection"],
        Blocks,
        &["number"],
    ),
    (
        "subsubsection",
        "section",
        None,
        &[Id, Closes, Toc],
        &["subsubheading"],
        Blocks,
        &["number"],
    ),
    ("heading", "h2", None, &[Text, Block], &[], Inline, &[]),
    ("subheading", "h3", None, &[Text, Block], &[], Inline, &[]),
    (
        "subsubheading",
        "h4",
        None,
        &[Text, Block],
        &[],
        Inline,
        &[],
    ),
    (
        "p",
        "p",
        None,
        &[Text, Block, Opens, Closes],
        &[],
        Inline,
        &[],
    ),
    ("list", "ul", None, &[], &["item"], Nothing, &[]),
    ("olist", "ol", None, &[], &["item"], Nothing, &[]),
    (
        "dlist",
        "ul",
        Some("description"),
        &[],
        &["item"],
        Nothing,
        &[],
    ),
    (
        "item",
        "li",
        None,
        &[Id, Closes],
        &["term"],
        Blocks,
        &["number"],
    ),
    ("term", "b", Some("term"), &[Text], &[], Inline, &[]),
    ("quote", "blockquote", None, &[], &[], Blocks, &[]),
    ("verbatim", "pre", None, &[Text], &[], Nothing, &[]),
    (
        "figure",
        "figure",
        None,
        &[Id],
        &["caption", "graphics"],
        Blocks,
        &["number"],
    ),
    (
        "float",
        "figure",
        Some("table"),
        &[Id],
        &["caption", "graphics"],
        Blocks,
        &["number"],
    ),
    (
        "caption",
        "figcaption",
        None,
        &[Text, Block],
        &[],
        Inline,
        &[],
    ),
    ("graphics", "img", None, &[Void], &[], Nothing, &["src"]),
    ("break", "br", None, &[Void], &[], Nothing, &[]),
    ("tabular", "table", None, &[], &["tr"], Nothing, &[]),
    ("tr", "tr", None, &[Opens, Closes], &["td"], Nothing, &[]),
    (
        "td",
        "td",
        None,
        &[Text, Block, Opens, Closes],
        &["tabular", "list", "olist"],
        Inline,
        &["colspan"],
    ),
    (
        "equation",
        "div",
        Some("equation"),
        &[Text, Block, Id],
        &["num"],
        Nothing,
        &["number"],
    ),
    (
        "display",
        "div",
        Some("display"),
        &[Text, Block],
        &[],
        Nothing,
        &[],
    ),
    ("toc", "ul", Some("toc"), &[], &[], Nothing, &[]),
    (
        "bibliography",
        "section",
        Some("bibliography"),
        &[],
        &["heading", "bibitem"],
        Nothing,
        &[],
    ),
    (
        "bibitem",
        "p",
        Some("bibitem"),
        &[Text, Block, Id, Closes],
        &[],
        Inline,
        &["number"],
    ),
    ("math", "span", Some("math"), &[Text], &[], Nothing, &[]),
    ("emph", "em", None, &[Text], &[], Inline, &[]),
    ("strong", "strong", None, &[Text], &[], Inline, &[]),
    ("code", "code", None, &[Text], &[], Inline, &[]),
    ("link", "a", None, &[Text], &[], Inline, &["href"]),
    ("ref", "a", None, &[], &[], Nothing, &[]),
    (
        "note",
        "span",
        Some("note"),
        &[Text, Id],
        &[],
        Inline,
        &["number"],
    ),
    ("num", "span", Some("num"), &[Text], &[], Nothing, &[]),
];

/// The attributes in the order of their first use.
pub const ATTRIBUTES: [&str; 4] = ["number", "src", "colspan", "href"];

const NO_FLAGS: Flags = Flags {
    text: false,
    block: false,
    opens: false,
    closes: false,
    id: false,
    toc: false,
    void: false,
};

// Elements that digestion opens and closes.

/// A paragraph.
pub const PARAGRAPH: Elem = Elem(11);

/// The end of a line in a paragraph.
pub const BREAK: Elem = Elem(23);

/// Characters as they stand.
pub const CODE: Elem = Elem(35);

/// The table.
///
/// # Errors
///
/// `AllocError` where there is no memory.
#[tactic(auto, unfolding(crate::specs::Table::elements))]
pub fn elements(alloc: Global) -> Result<Elements, AllocError>
    ensures { IfOk result (λ elements. elements ≡ spec_elements) }
{
    Ok(Elements {
        lines: lines(alloc, &ROWS)?,
        attributes: texts(alloc, &ATTRIBUTES)?,
    })
}

// The lines of these rows.
fn lines(alloc: Global, rows: &[Row]) -> Result<ElementLines, AllocError>
    ensures { IfOk result (λ lines. lines ≡ map spec_line_of rows.now) }
{
    let mut lines = ElementLines::new(alloc);
    for row in rows {
        lines.push(line_of(alloc, row)?)?;
    }
    Ok(lines)
}

// The line of a row.
#[tactic(auto, unfolding(crate::specs::Table::line_by))]
fn line_of(alloc: Global, row: &Row) -> Result<ElementLine, AllocError>
    ensures { IfOk result (λ line. line ≡ spec_line_of row.now) }
{
    let (name, tag, class, flags, names, set, attrs) = *row;
    Ok(ElementLine {
        name: Bytes::from_slice(alloc, name.as_bytes())?,
        tag: Bytes::from_slice(alloc, tag.as_bytes())?,
        class: copied(alloc, class)?,
        flags: flags_of(flags),
        holds: joined(alloc, names, set)?,
        attrs: texts(alloc, attrs)?,
    })
}

// These flags.
fn flags_of(list: &[Flag]) -> Flags
    ensures { result ≡ flags_in list.now }
{
    let mut flags = NO_FLAGS;
    for flag in list {
        flags = with_flag(flags, *flag);
    }
    flags
}

// This flag too.
fn with_flag(flags: Flags, flag: Flag) -> Flags
    ensures { result ≡ spec_with_flag flags flag }
{
    match flag {
        Text => Flags {
            text: true,
            ..flags
        },
        Block => Flags {
            block: true,
            ..flags
        },
        Opens => Flags {
            opens: true,
            ..flags
        },
        Closes => Flags {
            closes: true,
            ..flags
        },
        Id => Flags { id: true, ..flags },
        Toc => Flags { toc: true, ..flags },
        Void => Flags {
            void: true,
            ..flags
        },
    }
}

// The class with which an element is written, if there is one.
fn copied(alloc: Global, class: Option<&'static str>) -> Result<Option<Bytes>, AllocError>
    ensures { IfOk result (λ copy. copy ≡ option_map (λ c. c.now) class.entry) }
{
    match class {
        None => Ok(None),
        Some(class) => Ok(Some(Bytes::from_slice(alloc, class.as_bytes())?)),
    }
}

// These names, and those of a set.
fn joined(alloc: Global, names: &[&str], set: Set) -> Result<ByteList, AllocError>
    ensures { IfOk result (λ all. all ≡ map (λ t. t.now) names.now ++ names_in set) }
{
    let mut all = texts(alloc, names)?;
    match set {
        Nothing => {}
        Inline => push_all(alloc, &mut all, &INLINE)?,
        Blocks => push_all(alloc, &mut all, &BLOCKS)?,
    }
    Ok(all)
}

// Texts as a list.
fn texts(alloc: Global, texts: &[&str]) -> Result<ByteList, AllocError>
    ensures { IfOk result (λ all. all ≡ map (λ t. t.now) texts.now) }
{
    let mut all = ByteList::new(alloc);
    push_all(alloc, &mut all, texts)?;
    Ok(all)
}

// Appends texts.
fn push_all(alloc: Global, all: &mut ByteList, texts: &[&str]) -> Result<(), AllocError>
    ensures { OnOk result (all.new ≡ all.old ++ map (λ t. t.now) texts.now) }
{
    for text in texts {
        all.push(Bytes::from_slice(alloc, text.as_bytes())?)?;
    }
    Ok(())
}
