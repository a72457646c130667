//! Faults of the input.

ghost use Rattle.std.specs.Prelude.{◌≡◌};

use crate::bytes::Bytes;
use std::alloc::AllocError;

/// A fault of the input. A copy of it is equal, and may find no memory.
#[derive(Debug, Drop, PartialEq, Eq)]
pub struct Fault {
    /// The number of the fault, as in `fault_code`.
    pub code: u8,
    /// The name of the file where it was found.
    pub file: Bytes,
    /// The number of the line that was read last there.
    pub line: u64,
    /// What it is about.
    pub about: Bytes,
}

impl Clone for Fault {
    ghost is_clone = { λ fault copy. copy ≡ fault };

    fn clone(&self) -> Result<Fault, AllocError> {
        Ok(Fault {
            code: self.code,
            file: self.file.clone()?,
            line: self.line,
            about: self.about.clone()?,
        })
    }
}
