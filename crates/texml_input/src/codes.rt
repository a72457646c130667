//! The categories of characters and the end character, as a scope has them.
ghost use Rattle.std.specs.Prelude.{◌≡◌};
ghost use Rattle.texml_scope.specs.Shown.{world_of};
ghost use Rattle.texml_input.specs.Codes.{end_of};

use texml_mouth::Codes;
use texml_scope::{Key, Scope};

/// The categories that characters have in a scope.
#[derive(Clone, Copy)]
pub struct ScopeCodes<'a>(pub &'a Scope);

impl<'a> Codes for ScopeCodes<'a> {
    ghost use Rattle.texml_scope.specs.Shown.{world_of};
    ghost use Rattle.texml_input.specs.Codes.{cats_of};

    ghost cats = { λ codes. cats_of (world_of codes.0.now) };

    fn category(&self, code: u32) -> u8 {
        self.0.category(code)
    }
}

/// The character at the end of each line that is loaded, if there is one.
pub fn end_character(scope: &Scope) -> Option<char>
    ensures { result ≡ end_of (world_of scope.now) }
{
    match scope.number(&Key::EndLineChar) {
        Some(code) if code >= 0 => char::from_u32(code as u32),
        _ => None,
    }
}
