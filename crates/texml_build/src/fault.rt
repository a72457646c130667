//! What `build` answers where there is no tree.

ghost use Rattle.std.specs.Prelude.{◌≡◌, IfOk};
ghost use Rattle.texml_build.specs.Brackets.{fault_of};
ghost use Rattle.texml_build.specs.Held.{Refuses};

use std::alloc::{AllocError, Global};
use texml_token::Bytes;
use texml_tree::ModelFault;

/// Why there is no tree.
#[derive(Debug, Drop, PartialEq, Eq)]
pub enum BuildFault {
    /// The content model doesn't allow the operations.
    Model(ModelFault),
    /// There is no memory.
    NoMemory,
}

/// The fault with this number and these names, or want of memory.
pub(crate) fn refuse(alloc: Global, code: u8, child: &[u8], parent: &[u8]) -> BuildFault
    ensures { Refuses (fault_of code child.now parent.now) result }
{
    match name_fault(alloc, code, child, parent) {
        Ok(fault) => BuildFault::Model(fault),
        Err(_) => BuildFault::NoMemory,
    }
}

fn name_fault(
    alloc: Global,
    code: u8,
    child: &[u8],
    parent: &[u8],
) -> Result<ModelFault, AllocError>
    ensures { IfOk result (λ fault. fault ≡ fault_of code child.now parent.now) }
{
    Ok(ModelFault {
        code,
        child: Bytes::from_slice(alloc, child)?,
        parent: Bytes::from_slice(alloc, parent)?,
    })
}
