//! Faults of operations that the table of elements doesn't allow.

ghost use Rattle.std.specs.Prelude.{◌≡◌};

use std::alloc::AllocError;
use texml_token::Bytes;

/// The element has no place in the innermost open one.
pub const NO_PLACE: u8 = 1;

/// A text has no place in the innermost open element.
pub const NO_TEXT: u8 = 2;

/// No such element is open, or one inside it may not be closed.
pub const NOTHING_TO_CLOSE: u8 = 3;

/// The element is still open at the end.
pub const UNCLOSED: u8 = 4;

/// No open element may have the attribute.
pub const BAD_ATTRIBUTE: u8 = 5;

/// The element would stand too deep.
pub const TREE_DEPTH: u8 = 6;

// The numbers are promised to users.
const _: () = prove!(NO_PLACE == 1);

const _: () = prove!(NO_TEXT == 2);

const _: () = prove!(NOTHING_TO_CLOSE == 3);

const _: () = prove!(UNCLOSED == 4);

const _: () = prove!(BAD_ATTRIBUTE == 5);

const _: () = prove!(TREE_DEPTH == 6);

/// What is wrong with an operation.
#[derive(Debug, Drop, PartialEq, Eq)]
pub struct ModelFault {
    /// The number of the fault, one of the constants beside it.
    pub code: u8,
    /// The name of the element or attribute, empty for a text.
    pub child: Bytes,
    /// The name of the innermost open element, empty where an element is still open at the end.
    pub parent: Bytes,
}

impl Clone for ModelFault {
    ghost is_clone = { λ fault copy. copy ≡ fault };

    fn clone(&self) -> Result<ModelFault, AllocError> {
        Ok(ModelFault {
            code: self.code,
            child: self.child.clone()?,
            parent: self.parent.clone()?,
        })
    }
}
