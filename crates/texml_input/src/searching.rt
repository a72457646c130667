//! How a file is found by its name.
ghost use Rattle.std.specs.Prelude.{◌≡◌, ◌<◌, ◌∷◌, [], length, IfOk, string_bytes};
ghost use Rattle.texml_base.specs.Outside.{HasTroubleCause};
ghost use Rattle.texml_input.specs.Searching.{has_dot, with_ending, names_tried, OpensFirst};

use std::alloc::{AllocError, Global};
use texml_base::{Files, Trouble};
use texml_token::Bytes;

/// A file that was opened: its id, and the name under which it was found.
#[derive(Debug, Drop)]
pub struct TextFile {
    /// The id.
    pub id: u32,
    /// The name.
    pub name: Bytes,
}

/// Opens the file that a name means, or answers None where there is none. A name without a dot is tried with `.tex` behind it, and
/// then as it is; a name with a dot first as it is, and then with `.tex` (The TeXbook, chapter 25).
///
/// # Errors
///
/// `Failed` where the files failed, and `NoMemory` where there is no memory. Nothing is open then that wasn't before.
pub fn open_text<F: Files>(
    alloc: Global,
    files: &mut F,
    name: &str,
) -> Result<Option<TextFile>, Trouble>
    requires { length (F.shelf files.old).ids < 1000 }
    ensures opens { OpensFirst (F.shelf files.old) (F.shelf files.new) (names_tried name.now) result }
    ensures cause { HasTroubleCause (F.faults files.old) (F.faults files.new) result }
{
    let longer = with_ending(alloc, name)?;
    if has_dot(name) {
        open_either(alloc, files, name, longer.as_str())
    } else {
        open_either(alloc, files, longer.as_str(), name)
    }
}

// Opens the file of the first of two names, or else that of the second.
fn open_either<F: Files>(
    alloc: Global,
    files: &mut F,
    first: &str,
    second: &str,
) -> Result<Option<TextFile>, Trouble>
    requires { length (F.shelf files.old).ids < 1000 }
    ensures opens { OpensFirst (F.shelf files.old) (F.shelf files.new) (first.now ∷ second.now ∷ []) result }
    ensures cause { HasTroubleCause (F.faults files.old) (F.faults files.new) result }
{
    match open(alloc, files, first)? {
        Some(file) => Ok(Some(file)),
        None => open(alloc, files, second),
    }
}

// Opens the file of exactly this name. Memory for the name is taken before it is opened.
fn open<F: Files>(alloc: Global, files: &mut F, name: &str) -> Result<Option<TextFile>, Trouble>
    requires { length (F.shelf files.old).ids < 1000 }
    ensures opens { OpensFirst (F.shelf files.old) (F.shelf files.new) (name.now ∷ []) result }
    ensures cause { HasTroubleCause (F.faults files.old) (F.faults files.new) result }
{
    let copy = Bytes::from_slice(alloc, name.as_bytes())?;
    match files.open_file(alloc, name)? {
        Some(id) => Ok(Some(TextFile { id, name: copy })),
        None => Ok(None),
    }
}

// Whether a name has a dot.
fn has_dot(name: &str) -> bool
    ensures { result ≡ has_dot name.now }
{
    name.as_bytes().contains(&b'.')
}

// A name with `.tex` behind it.
fn with_ending(alloc: Global, name: &str) -> Result<String, AllocError>
    ensures { IfOk result (λ text. string_bytes text ≡ with_ending name.now) }
{
    let mut text = String::from_str(alloc, name)?;
    text.push_str(".tex")?;
    Ok(text)
}
