//! Files in memory.
ghost use Rattle.std.specs.Prelude.{◌≡◌, ◌<◌, ◌≤◌, ◌↔◌, length, min, IsTrue, ℕ, List, [], IfOk, OnOk, OnErr, None, Some, IsErrOf, if◌then◌else◌, ◌==◌};
ghost use Rattle.std.specs.Str.{bytes_eq};
ghost use Rattle.texml_base.specs.Outside.{Opens, ReadsFile, IsClosed, HasTroubleCause, in_use};
ghost use Rattle.texml_base.specs.Rising.{add_up};

use crate::faults::{Alarm, FaultCount};
use crate::files::{Files, Trouble};
use crate::named::{NamedFile, find_named};
use crate::opened::{Opened, free_id, place_of};
use crate::reading::Reading;
use std::alloc::{AllocError, Global};

/// Files in memory that never fail, and give at most so many bytes a read. They tell what they hold.
#[derive(Drop)]
pub struct CalmFiles {
    named: Vec<NamedFile>,
    opened: Vec<Opened<Reading>>,
    piece: usize,
    given: u64,
    ghost some: { 1 ≤ piece },
}

impl CalmFiles {
    ghost use Rattle.texml_base.specs.Memory.{calm_shelf, calm_piece};

    /// No files yet; a read will give at most `piece` bytes.
    pub fn new(alloc: Global, piece: usize) -> Self
        requires { 1 ≤ piece }
        ensures piece { calm_piece result ≡ piece }
        ensures contents { (name : List ℕ) → (calm_shelf result).contents name ≡ None }
        ensures ids { (calm_shelf result).ids ≡ [] }
        ensures total { (calm_shelf result).total ≡ 0 }
    {
        CalmFiles {
            named: Vec::new(alloc),
            opened: Vec::new(alloc),
            piece,
            given: 0,
        }
    }

    /// Sets what a name holds, while no file is open. It fails only where memory was refused, and changes nothing then.
    pub fn add(&mut self, alloc: Global, name: &str, bytes: &[u8]) -> Result<(), AllocError>
        requires { (calm_shelf self.old).ids ≡ [] }
        ensures piece { calm_piece self.new ≡ calm_piece self.old }
        ensures contents { OnOk result ((other : List ℕ) → (calm_shelf self.new).contents other
            ≡ (if bytes_eq name.now other then Some bytes.now else (calm_shelf self.old).contents other)) }
        ensures ids { (calm_shelf self.new).ids ≡ [] }
        ensures total { (calm_shelf self.new).total ≡ (calm_shelf self.old).total }
        ensures refused { OnErr result (calm_shelf self.new ≡ calm_shelf self.old) }
    {
        let name = String::from_str(alloc, name)?;
        let bytes = bytes.to_vec(alloc)?;
        self.named.insert(0, NamedFile { name, bytes })?;
        Ok(())
    }

    /// How many bytes all reads have given so far.
    pub fn given(&self) -> u64
        ensures given { result ≡ (calm_shelf self.now).total }
    {
        self.given
    }
}

impl Files for CalmFiles {
    ghost use Rattle.texml_base.specs.Memory.{calm_shelf, calm_faults, calm_piece};

    ghost shelf = { calm_shelf };

    ghost faults = { calm_faults };

    fn open_file(&mut self, alloc: Global, name: &str) -> Result<Option<u32>, Trouble>
        requires { length (calm_shelf self.old).ids < 1000 }
        ensures opened { Opens (calm_shelf self.old) (calm_shelf self.new) name.now result }
        ensures cause { HasTroubleCause (calm_faults self.old) (calm_faults self.new) result }
        ensures piece { calm_piece self.new ≡ calm_piece self.old }
    {
        let Some(bytes) = find_named(&self.named, name) else {
            return Ok(None);
        };
        let bytes = bytes.to_vec(alloc)?;
        let id = free_id(&self.opened);
        let file = Reading { bytes, at: 0 };
        self.opened.insert(0, Opened { id, file })?;
        Ok(Some(id))
    }

    fn read_file(&mut self, id: u32, into: &mut [u8]) -> Result<usize, Trouble>
        requires open { IsTrue (in_use (calm_shelf self.old).ids id) }
        requires room { 0 < length into.old }
        ensures read { ReadsFile (calm_shelf self.old) (calm_shelf self.new) id result into.new }
        ensures cause { HasTroubleCause (calm_faults self.old) (calm_faults self.new) result }
        ensures memory { IsErrOf result Trouble.NoMemory → ⊥ }
        ensures count { IfOk result (λ n. n ≡ min (min (length ((calm_shelf self.old).left id)) (calm_piece self.old)) (length into.old)) }
        ensures piece { calm_piece self.new ≡ calm_piece self.old }
    {
        let place = place_of(&self.opened, id);
        let count = self.opened[place].file.give(self.piece, into);
        self.given = self.given.saturating_add(count as u64);
        Ok(count)
    }

    fn close_file(&mut self, id: u32)
        requires { IsTrue (in_use (calm_shelf self.old).ids id) }
        ensures closed { IsClosed (calm_shelf self.old) (calm_shelf self.new) id }
        ensures faults { calm_faults self.new ≡ calm_faults self.old }
        ensures piece { calm_piece self.new ≡ calm_piece self.old }
    {
        let place = place_of(&self.opened, id);
        let _ = self.opened.remove(place);
    }
}

/// Files in memory, of which one call can be told to fail. They tell what they hold.
#[derive(Drop)]
pub struct MemoryFiles {
    files: CalmFiles,
    alarm: Alarm,
    faults: FaultCount,
}

impl MemoryFiles {
    ghost use Rattle.texml_base.specs.Memory.{memory_shelf, memory_faults, memory_piece, failing_call, next_call};

    /// No files yet; a read will give at most `piece` bytes. Of the calls that open or read, the first being 1, that of the number `fail_call` fails; none does where it is 0.
    pub fn new(alloc: Global, piece: usize, fail_call: u64) -> Self
        requires { 1 ≤ piece }
        ensures piece { memory_piece result ≡ piece }
        ensures contents { (name : List ℕ) → (memory_shelf result).contents name ≡ None }
        ensures ids { (memory_shelf result).ids ≡ [] }
        ensures total { (memory_shelf result).total ≡ 0 }
        ensures calls { next_call result ≡ 1 }
        ensures fails { failing_call result ≡ fail_call }
        ensures faults { memory_faults result ≡ 0 }
    {
        MemoryFiles {
            files: CalmFiles::new(alloc, piece),
            alarm: Alarm::new(fail_call),
            faults: FaultCount::new(),
        }
    }

    /// Sets what a name holds, while no file is open. It fails only where memory was refused, and changes nothing then.
    pub fn add(&mut self, alloc: Global, name: &str, bytes: &[u8]) -> Result<(), AllocError>
        requires { (memory_shelf self.old).ids ≡ [] }
        ensures piece { memory_piece self.new ≡ memory_piece self.old }
        ensures contents { OnOk result ((other : List ℕ) → (memory_shelf self.new).contents other
            ≡ (if bytes_eq name.now other then Some bytes.now else (memory_shelf self.old).contents other)) }
        ensures ids { (memory_shelf self.new).ids ≡ [] }
        ensures total { (memory_shelf self.new).total ≡ (memory_shelf self.old).total }
        ensures calls { next_call self.new ≡ next_call self.old }
        ensures fails { failing_call self.new ≡ failing_call self.old }
        ensures faults { memory_faults self.new ≡ memory_faults self.old }
        ensures refused { OnErr result (memory_shelf self.new ≡ memory_shelf self.old) }
    {
        self.files.add(alloc, name, bytes)
    }
}

impl Files for MemoryFiles {
    ghost use Rattle.texml_base.specs.Memory.{memory_shelf, memory_faults, memory_piece, failing_call, next_call};

    ghost shelf = { memory_shelf };

    ghost faults = { memory_faults };

    fn open_file(&mut self, alloc: Global, name: &str) -> Result<Option<u32>, Trouble>
        requires { length (memory_shelf self.old).ids < 1000 }
        ensures opened { Opens (memory_shelf self.old) (memory_shelf self.new) name.now result }
        ensures cause { HasTroubleCause (memory_faults self.old) (memory_faults self.new) result }
        ensures piece { memory_piece self.new ≡ memory_piece self.old }
        ensures exact { IsErrOf result Trouble.Failed ↔ (next_call self.old ≡ failing_call self.old) }
        ensures raised { memory_faults self.new ≡ (if next_call self.old == failing_call self.old
            then add_up (memory_faults self.old) 1 else memory_faults self.old) }
        ensures calls { next_call self.new ≡ add_up (next_call self.old) 1 }
        ensures fails { failing_call self.new ≡ failing_call self.old }
    {
        if self.alarm.rings() {
            self.faults.raise();
            return Err(Trouble::Failed);
        }
        self.files.open_file(alloc, name)
    }

    fn read_file(&mut self, id: u32, into: &mut [u8]) -> Result<usize, Trouble>
        requires open { IsTrue (in_use (memory_shelf self.old).ids id) }
        requires room { 0 < length into.old }
        ensures read { ReadsFile (memory_shelf self.old) (memory_shelf self.new) id result into.new }
        ensures cause { HasTroubleCause (memory_faults self.old) (memory_faults self.new) result }
        ensures memory { IsErrOf result Trouble.NoMemory → ⊥ }
        ensures count { IfOk result (λ n. n ≡ min (min (length ((memory_shelf self.old).left id)) (memory_piece self.old)) (length into.old)) }
        ensures piece { memory_piece self.new ≡ memory_piece self.old }
        ensures exact { IsErrOf result Trouble.Failed ↔ (next_call self.old ≡ failing_call self.old) }
        ensures raised { memory_faults self.new ≡ (if next_call self.old == failing_call self.old
            then add_up (memory_faults self.old) 1 else memory_faults self.old) }
        ensures calls { next_call self.new ≡ add_up (next_call self.old) 1 }
        ensures fails { failing_call self.new ≡ failing_call self.old }
    {
        if self.alarm.rings() {
            self.faults.raise();
            return Err(Trouble::Failed);
        }
        self.files.read_file(id, into)
    }

    fn close_file(&mut self, id: u32)
        requires { IsTrue (in_use (memory_shelf self.old).ids id) }
        ensures closed { IsClosed (memory_shelf self.old) (memory_shelf self.new) id }
        ensures faults { memory_faults self.new ≡ memory_faults self.old }
        ensures piece { memory_piece self.new ≡ memory_piece self.old }
        ensures calls { next_call self.new ≡ next_call self.old }
        ensures fails { failing_call self.new ≡ failing_call self.old }
    {
        self.files.close_file(id);
    }
}
