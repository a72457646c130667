//! Whether two meanings are the same.

ghost use Rattle.std.specs.Prelude.{◌≡◌, ◌↔◌, IsTrue};

use crate::values::{Key, Macro, Meaning};
use texml_token::{same_params, same_tokens};

/// Whether two meanings are the same: macros where both are long or neither is and their parameter texts and bodies are the
/// same, others where they are the same.
pub fn same_meaning(a: &Meaning, b: &Meaning) -> bool
    ensures { IsTrue result ↔ (a.now ≡ b.now) }
{
    match (a, b) {
        (Meaning::Undefined, Meaning::Undefined) => true,
        (Meaning::Macro(a), Meaning::Macro(b)) => same_macro(a, b),
        (Meaning::Builtin(a), Meaning::Builtin(b)) => *a == *b,
        (Meaning::Char(a, k), Meaning::Char(b, l)) => *a == *b && *k == *l,
        (Meaning::Quantity(a), Meaning::Quantity(b)) => same_key(*a, *b),
        (Meaning::Number(a), Meaning::Number(b)) => *a == *b,
        (Meaning::Constructor(a), Meaning::Constructor(b)) => *a == *b,
        _ => false,
    }
}

// Whether two macros are the same.
fn same_macro(a: &Macro, b: &Macro) -> bool
    ensures { IsTrue result ↔ (a.now ≡ b.now) }
{
    a.long == b.long && same_params(&a.params, &b.params) && same_tokens(&a.body, &b.body)
}

// Whether two keys are the same.
fn same_key(a: Key, b: Key) -> bool
    ensures { IsTrue result ↔ (a ≡ b) }
{
    a == b
}
