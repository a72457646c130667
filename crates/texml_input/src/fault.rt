//! What is taken from an input, and why nothing is.

use std::alloc::AllocError;
use texml_token::Token;

/// A token that was taken.
#[derive(Clone, Copy, Debug, PartialEq, Eq)]
pub struct Read {
    /// The token.
    pub token: Token,
    /// Whether it is kept from being expanded.
    pub frozen: bool,
    /// Whether a file has ended before it.
    pub crossed: bool,
}

/// Why there is no next token.
#[derive(Clone, Copy, Debug, PartialEq, Eq)]
pub enum InputFault {
    /// A character of category 15, with its code, where it would begin a token.
    Invalid(u32),
    /// A line that is not UTF-8.
    NotUtf8,
    /// The files failed: their count of faults rose.
    Failed,
    /// There is no memory.
    NoMemory,
}

impl From<AllocError> for InputFault {
    ghost use Rattle.std.specs.Prelude.{◌≡◌};
    ghost use Rattle.texml_input.specs.declared.fault.InputFault.TheVariants.{NoMemory};

    ghost from_gives = { λ _ fault. fault ≡ NoMemory };

    fn from(_error: AllocError) -> InputFault {
        InputFault::NoMemory
    }
}
