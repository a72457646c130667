//! A list of lists of bytes.

ghost use Rattle.std.specs.Prelude.{◌≡◌, [], ◌∷◌, ◌++◌, OnOk, OnErr};

use crate::bytes::Bytes;
use std::alloc::{AllocError, Global};
use std::marker::Model;

/// A list of lists of bytes.
#[derive(Debug, Drop)]
pub struct ByteList {
    items: Vec<Bytes>,
}

impl Model for ByteList {
    ghost use Rattle.std.specs.Prelude.{List, ℕ};

    ghost Value = { List (List ℕ) };

    ghost view = { λ b. b.items.items };
}

impl ByteList {
    /// The empty list, which takes no memory.
    pub fn new(alloc: Global) -> ByteList
        ensures { result ≡ [] }
    {
        ByteList {
            items: Vec::new(alloc),
        }
    }

    /// Appends a list of bytes.
    ///
    /// # Errors
    ///
    /// `AllocError` where there is no memory. The list is then as before.
    pub fn push(&mut self, bytes: Bytes) -> Result<(), AllocError>
        ensures ok { OnOk result (self.new ≡ self.old ++ bytes ∷ []) }
        ensures err { OnErr result (self.new ≡ self.old) }
    {
        self.items.push(bytes)?;
        Ok(())
    }

    /// The lists of bytes, the first in front.
    pub fn as_slice(&self) -> &[Bytes]
        ensures { result.now ≡ self.now }
    {
        self.items.as_slice()
    }
}

impl Clone for ByteList {
    ghost is_clone = { λ list copy. copy ≡ list };

    fn clone(&self) -> Result<ByteList, AllocError> {
        Ok(ByteList {
            items: self.items.clone()?,
        })
    }
}
