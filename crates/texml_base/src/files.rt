//! Files that are opened by name and read through ids.
ghost use Rattle.std.specs.Prelude.{◌≡◌, ℕ, ◌<◌, length, IsTrue, IsErrOf};
ghost use Rattle.texml_base.specs.declared.files.Trouble.TheVariants.{NoMemory};
ghost use Rattle.texml_base.specs.Outside.{Shelf, Opens, ReadsFile, IsClosed, HasTroubleCause, in_use};

use std::alloc::{AllocError, AllocFailed, Global};

/// Why a call on files was refused.
#[derive(Clone, Copy, Debug, PartialEq, Eq, Drop)]
pub enum Trouble {
    /// The files failed: their count of faults rose in that call.
    Failed,
    /// Memory was refused.
    NoMemory,
}

impl From<AllocError> for Trouble {
    ghost from_gives = { λ _ e. e ≡ NoMemory };

    fn from(_: AllocError) -> Self {
        Trouble::NoMemory
    }
}

impl<T: Drop> From<AllocFailed<T>> for Trouble {
    ghost from_gives = { λ _ e. e ≡ NoMemory };

    fn from(_: AllocFailed<T>) -> Self {
        Trouble::NoMemory
    }
}

/// A folder of files. An open file has an id, and fewer than a thousand ids may be in use when one more is opened.
pub trait Files {
    /// What the folder stands for: what its names hold, where it tells that, and what each id has given and has left.
    ghost shelf: { Self → Shelf };

    /// How often the folder has failed. Only a call that answers `Failed` changes it. It ends at the greatest u64.
    ghost faults: { Self → ℕ };

    /// Opens the file of a name, or answers `None` where there is none.
    /// It fails with `Failed` only where the count of faults rose, and with `NoMemory` where memory was refused; nothing is open then.
    fn open_file(&mut self, alloc: Global, name: &str) -> Result<Option<u32>, Trouble>
        requires { length (shelf self.old).ids < 1000 }
        ensures opened { Opens (shelf self.old) (shelf self.new) name.now result }
        ensures cause { HasTroubleCause (faults self.old) (faults self.new) result };

    /// Reads the next bytes of an open file to the start of `into`, and answers their number; 0 is the file's end.
    /// It fails with `Failed` only where the count of faults rose, and then nothing was given. It takes no memory.
    fn read_file(&mut self, id: u32, into: &mut [u8]) -> Result<usize, Trouble>
        requires open { IsTrue (in_use (shelf self.old).ids id) }
        requires room { 0 < length into.old }
        ensures read { ReadsFile (shelf self.old) (shelf self.new) id result into.new }
        ensures cause { HasTroubleCause (faults self.old) (faults self.new) result }
        ensures memory { IsErrOf result Trouble.NoMemory → ⊥ };

    /// Closes an open file. It can't fail.
    fn close_file(&mut self, id: u32)
        requires { IsTrue (in_use (shelf self.old).ids id) }
        ensures closed { IsClosed (shelf self.old) (shelf self.new) id }
        ensures faults { faults self.new ≡ faults self.old };
}
