//! The files of the real folder.
ghost use Rattle.std.specs.Prelude.{◌≡◌, ◌≢◌, ℕ, ◌≤◌, ◌<◌, ◌+◌, length, [], MatchResult, IfOk, IfErr, IfSome, IsErr, IsTrue, IsErrOf};
ghost use Rattle.std.specs.Io.{ReadsAtMost};
ghost use Rattle.std.specs.Io.KnownBytes.{ReadConsumes};
ghost use Rattle.std.specs.IoError.{error_kind};
ghost use Rattle.texml_base.specs.Outside.{Opens, ReadsFile, IsClosed, HasTroubleCause, in_use};
ghost use Rattle.texml_base.specs.Rising.{add_up};

use crate::faults::FaultCount;
use crate::files::{Files, Trouble};
use crate::opened::{Opened, free_id, place_of};
use std::alloc::Global;
use std::io::{ErrorKind, Read};
use std::{fs, io, rt};

/// An open file of the real folder, over anything that can be read.
#[derive(Drop)]
pub struct DiskFile<F> {
    pub file: F,
    /// How many bytes it may still give.
    pub budget: u64,
}

/// The real folder. It tells nothing of what its files hold. A name that isn't there is no file; what else the system
/// refuses is a failure. An open file gives up to the greatest u64 of bytes, and fails then, so that a loop over an
/// endless file ends.
#[derive(Drop)]
pub struct DiskFiles<R: rt::Files> {
    rt: R,
    opened: Vec<Opened<DiskFile<R::File>>>,
    faults: FaultCount,
}

impl<R: rt::Files> DiskFiles<R> {
    ghost use Rattle.texml_base.specs.Disk.{folder_shelf, folder_faults, untold};

    /// The folder that the runtime reaches, with no file open.
    pub fn new(alloc: Global, rt: R) -> Self
        ensures shelf { folder_shelf result ≡ untold [] (λ _. 0) }
        ensures faults { folder_faults result ≡ 0 }
    {
        DiskFiles {
            rt,
            opened: Vec::new(alloc),
            faults: FaultCount::new(),
        }
    }
}

impl<R: rt::Files> Files for DiskFiles<R> {
    ghost use Rattle.texml_base.specs.Disk.{folder_shelf, folder_faults, remaining_at};

    ghost shelf = { folder_shelf };

    ghost faults = { folder_faults };

    /// Opens the file of a name, or answers `None` where none is there. It takes its memory from the allocator of `new`.
    ///
    /// # Errors
    ///
    /// `Failed` where the system refuses to open what is there, or to look, as where a file stands in the place of a
    /// folder. `NoMemory` where memory was refused.
    fn open_file(&mut self, alloc: Global, name: &str) -> Result<Option<u32>, Trouble>
        requires { length (folder_shelf self.old).ids < 1000 }
        ensures opened { Opens (folder_shelf self.old) (folder_shelf self.new) name.now result }
        ensures number { IfOk result (λ found. IfSome found (λ id. (folder_shelf self.new).number id ≡ u64.MAX)) }
        ensures others { (k : ℕ) → IsTrue (in_use (folder_shelf self.old).ids k)
            → remaining_at ⟦<R::File as Read>⟧.remaining self.new k ≡ remaining_at ⟦<R::File as Read>⟧.remaining self.old k }
        ensures cause { HasTroubleCause (folder_faults self.old) (folder_faults self.new) result }
        ensures raised { IsErrOf result Trouble.Failed → folder_faults self.new ≡ add_up (folder_faults self.old) 1 }
    {
        match fs::open(&self.rt, name) {
            Ok(file) => {
                let id = free_id(&self.opened);
                let file = DiskFile {
                    file,
                    budget: u64::MAX,
                };
                self.opened.insert(0, Opened { id, file })?;
                Ok(Some(id))
            }
            Err(e) if e.kind() == ErrorKind::NotFound => Ok(None),
            Err(_) => {
                self.faults.raise();
                Err(Trouble::Failed)
            }
        }
    }

    /// Reads the next bytes of an open file.
    ///
    /// # Errors
    ///
    /// `Failed` where the system fails to read, and where the file has given all that one may give. No byte is lost then.
    fn read_file(&mut self, id: u32, into: &mut [u8]) -> Result<usize, Trouble>
        requires open { IsTrue (in_use (folder_shelf self.old).ids id) }
        requires room { 0 < length into.old }
        ensures read { ReadsFile (folder_shelf self.old) (folder_shelf self.new) id result into.new }
        ensures bytes { ReadConsumes (remaining_at ⟦<R::File as Read>⟧.remaining self.old id)
            (remaining_at ⟦<R::File as Read>⟧.remaining self.new id) result into.new }
        ensures others { (k : ℕ) → k ≢ id
            → remaining_at ⟦<R::File as Read>⟧.remaining self.new k ≡ remaining_at ⟦<R::File as Read>⟧.remaining self.old k }
        ensures spent { (folder_shelf self.old).number id ≡ 0 → IsErrOf result Trouble.Failed }
        ensures cause { HasTroubleCause (folder_faults self.old) (folder_faults self.new) result }
        ensures raised { IsErrOf result Trouble.Failed → folder_faults self.new ≡ add_up (folder_faults self.old) 1 }
        ensures memory { IsErrOf result Trouble.NoMemory → ⊥ }
    {
        let place = place_of(&self.opened, id);
        let file = &mut self.opened[place].file;
        match file.give(into) {
            Ok(count) => Ok(count),
            Err(_) => {
                self.faults.raise();
                Err(Trouble::Failed)
            }
        }
    }

    fn close_file(&mut self, id: u32)
        requires { IsTrue (in_use (folder_shelf self.old).ids id) }
        ensures closed { IsClosed (folder_shelf self.old) (folder_shelf self.new) id }
        ensures others { (k : ℕ) → k ≢ id
            → remaining_at ⟦<R::File as Read>⟧.remaining self.new k ≡ remaining_at ⟦<R::File as Read>⟧.remaining self.old k }
        ensures faults { folder_faults self.new ≡ folder_faults self.old }
    {
        let place = place_of(&self.opened, id);
        let _ = self.opened.remove(place);
    }
}

impl<F: Read> DiskFile<F> {
    /// Gives the next bytes to the start of `into` and answers their number. A read that the system interrupts is made again.
    ///
    /// # Errors
    ///
    /// Where the system fails, or no more bytes may be given. Then no byte is lost.
    pub fn give(&mut self, into: &mut [u8]) -> io::Result<usize>
        ensures budget { MatchResult result (λ n. (n ≤ length into.new) × (self.new.budget + n ≡ self.old.budget)) (λ _. self.new.budget ≡ self.old.budget) }
        ensures bytes { ReadConsumes (F.remaining self.old.file) (F.remaining self.new.file) result into.new }
        ensures spent { self.old.budget ≡ 0 → IsErr result }
    {
        if self.budget == 0 {
            return Err(io::Error::from(ErrorKind::FileTooLarge));
        }
        let most = into.len().min(self.budget as usize);
        let count = read_once(&mut self.file, &mut into[..most])?;
        self.budget -= count as u64;
        Ok(count)
    }
}

// Reads once, and again where the system interrupts that.
fn read_once<F: Read>(file: &mut F, into: &mut [u8]) -> io::Result<usize>
    ensures bound { ReadsAtMost result into.new }
    ensures bytes { ReadConsumes (F.remaining file.old) (F.remaining file.new) result into.new }
    ensures again { IfErr result (λ e. error_kind e ≢ ErrorKind.Interrupted) }
{
    'tries: for _ in 0..u64::MAX {
        match file.read(into) {
            Ok(count) => return Ok(count),
            Err(e) if e.kind() == ErrorKind::Interrupted => {}
            Err(e) => return Err(e),
        }
    }
    Err(io::Error::from(ErrorKind::TimedOut))
}
