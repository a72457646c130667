//! How a line is loaded.
ghost use Rattle.std.specs.Prelude.{◌≡◌, IfOk};
ghost use Rattle.texml_text.specs.Lines.{loaded, trim_end};
ghost use Rattle.std.specs.Char.{IsScalar};
ghost use Rattle.std.specs.List.{All};
ghost use Rattle.std.specs.Str.{chars};

use std::alloc::{AllocError, Global};
use texml_token::Line;

/// A line as it is read: without spaces at its end, and with the end character there, if there is one.
///
/// # Errors
///
/// `AllocError` where there is no memory.
pub(crate) fn load(alloc: Global, line: &[char], end: Option<char>) -> Result<Line, AllocError>
    ensures codes { IfOk result (λ l. l ≡ loaded end line.now) }
    ensures scalars { IfOk result (All IsScalar) }
{
    let mut codes = codes_of(alloc, without_spaces(line))?;
    if let Some(c) = end {
        codes.push(c as u32)?;
    }
    Line::from_slice(alloc, &codes)
}

// The codes of characters, with room for one more.
fn codes_of(alloc: Global, text: &[char]) -> Result<Vec<u32>, AllocError>
    ensures codes { IfOk result (λ v. v.items ≡ text.now) }
    ensures scalars { IfOk result (λ v. All IsScalar v.items) }
{
    let mut codes = Vec::with_capacity(alloc, text.len().saturating_add(1))?;
    for c in text {
        codes.push(*c as u32)?;
    }
    Ok(codes)
}

#[tactic(auto, using(crate::proofs::Trimmed::trimmed))]
fn without_spaces(line: &[char]) -> &[char]
    ensures { result.now ≡ trim_end line.now }
{
    let mut end = line.len();
    while end > 0 {
        if line[end - 1] != ' ' {
            return &line[..end];
        }
        end -= 1;
    }
    &[]
}

/// The characters of a text.
///
/// # Errors
///
/// `AllocError` where there is no memory.
pub fn chars_of(alloc: Global, text: &str) -> Result<Vec<char>, AllocError>
    ensures { IfOk result (λ v. v.items ≡ chars text.now) }
{
    text.chars().collect(alloc)
}
