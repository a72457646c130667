//! What a quantity is read from: an internal quantity, or a list of tokens.

ghost use Rattle.std.specs.Prelude.{◌≡◌};
ghost use Rattle.texml_expand.specs.VariableCodes.{held_by};

use texml_fixed::{Glue, Scaled};
use texml_scan::Held;
use texml_token::Tokens;

/// An internal quantity, or a list of tokens (The TeXbook, chapter 24).
#[derive(Drop)]
pub enum Internal {
    Number(i32),
    Dimension(Scaled),
    Glue(Glue),
    Tokens(Tokens),
}

/// What is held of it for a look. A list of tokens is no quantity.
pub(crate) fn held_of(internal: &Internal) -> Held
    ensures { result ≡ held_by internal.now }
{
    match internal {
        Internal::Number(value) => Held::Int(*value),
        Internal::Dimension(value) => Held::Dimen(*value),
        Internal::Glue(value) => Held::Glue(*value),
        Internal::Tokens(_) => Held::Nothing,
    }
}
