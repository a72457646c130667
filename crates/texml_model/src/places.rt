//! Names of a table turned into places.

ghost use Rattle.std.specs.Prelude.{◌≡◌, [], IfOk};
ghost use Rattle.std.specs.Option.{option_map, option_map_or};
ghost use Rattle.std.specs.List.{slice_get, position, position_or_len};
ghost use Rattle.texml_token.specs.Token.{text_eq};
ghost use Rattle.texml_model.specs.Rules.{lists};
ghost use Rattle.texml_model.specs.Levels.{rows_of};
ghost use Rattle.texml_model.specs.Prepared.{held_row, held_rows, attr_row, attr_rows};

use std::alloc::{AllocError, Global};
use texml_token::Bytes;
use texml_tree::{Elem, ElementLine};

/// For each line, and for each line again, whether the first lists the name of the second.
pub(crate) fn holdings(alloc: Global, lines: &[ElementLine]) -> Result<Vec<Vec<bool>>, AllocError>
    ensures { IfOk result (λ rows. rows_of rows.items ≡ held_rows lines.now) }
{
    let mut rows = Vec::new(alloc);
    for parent in lines {
        let row = holding(alloc, lines, parent)?;
        rows.push(row)?;
    }
    Ok(rows)
}

/// For each line whether the parent's line lists its name.
fn holding(
    alloc: Global,
    lines: &[ElementLine],
    parent: &ElementLine,
) -> Result<Vec<bool>, AllocError>
    ensures { IfOk result (λ row. row.items ≡ held_row lines.now parent.now) }
{
    lines
        .iter()
        .map(|child| is_listed(parent, child))
        .collect(alloc)
}

/// Whether the parent's line lists the name of the child.
fn is_listed(parent: &ElementLine, child: &ElementLine) -> bool
    ensures { result ≡ lists parent.now.holds child.now.name }
{
    parent.holds.as_slice().contains(&child.name)
}

/// For each line the numbers of its attributes.
pub(crate) fn attr_numbers(
    alloc: Global,
    attributes: &[Bytes],
    lines: &[ElementLine],
) -> Result<Vec<Vec<usize>>, AllocError>
    ensures { IfOk result (λ rows. rows_of rows.items ≡ attr_rows attributes.now lines.now) }
{
    let mut rows = Vec::new(alloc);
    for line in lines {
        let row = numbers(alloc, attributes, line)?;
        rows.push(row)?;
    }
    Ok(rows)
}

/// The numbers of the attributes of a line.
fn numbers(
    alloc: Global,
    attributes: &[Bytes],
    line: &ElementLine,
) -> Result<Vec<usize>, AllocError>
    ensures { IfOk result (λ row. row.items ≡ attr_row attributes.now line.now) }
{
    line.attrs
        .as_slice()
        .iter()
        .map(|name| place_or_len(attributes, name))
        .collect(alloc)
}

/// The numbers at a place, or none where there is no such place.
pub(crate) fn row_at(rows: &[Vec<usize>], at: usize) -> &[usize]
    ensures { result.now ≡ option_map_or (λ row. row.items) (slice_get rows.now at) [] }
{
    match rows.get(at) {
        None => &[],
        Some(row) => row.as_slice(),
    }
}

/// The first place of a text, or the number of texts where it isn't there.
#[tactic(auto, using(crate::proofs::Positions::found_place, crate::proofs::Positions::no_place))]
fn place_or_len(texts: &[Bytes], text: &Bytes) -> usize
    ensures { result ≡ position_or_len (λ t. text_eq t text.now) texts.now }
{
    match place(texts, text) {
        None => texts.len(),
        Some(at) => at,
    }
}

/// The first place of a text.
fn place(texts: &[Bytes], text: &Bytes) -> Option<usize>
    ensures { result ≡ position (λ t. text_eq t text.now) texts.now }
{
    texts.iter().position(|listed| listed == text)
}

/// The element of a name.
pub(crate) fn place_of(lines: &[ElementLine], name: &[u8]) -> Option<Elem>
    ensures { option_map (λ e. e.0) result ≡ position (λ line. text_eq line.name name.now) lines.now }
{
    match line_of(lines, name) {
        None => None,
        Some(at) => Some(Elem(at)),
    }
}

/// The place of the line with a name.
fn line_of(lines: &[ElementLine], name: &[u8]) -> Option<usize>
    ensures { result ≡ position (λ line. text_eq line.name name.now) lines.now }
{
    lines.iter().position(|line| line.name.as_slice() == name)
}
