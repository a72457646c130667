// Starts an engine on a file.
ghost use Rattle.std.specs.Prelude.{◌≡◌, [], None, IfOk, OnErr};
ghost use Rattle.texml_expand.specs.Held.{Sound, Owns};
ghost use Rattle.texml_top.specs.Start.{IsEmpty, IsBefore, Starts, StartBlames, SameOutside};

use crate::status::Status;
use std::alloc::{AllocError, Global};
use texml_base::Files;
use texml_expand::Engine;
use texml_input::open_text;
use texml_scope::first_scope;
use texml_token::fault_code::MISSING_FILE;
use texml_token::{Bytes, Names};

// An engine that stands before the first line of the file that a name means, in which so many expansions may begin. It holds the file
// open; where it answers no engine nothing is open.
pub fn start_engine<F: Files>(
    alloc: Global,
    files: &mut F,
    name: &str,
    limit: u64,
) -> Result<Engine, Status>
    requires { (F.shelf files.old).ids ≡ [] }
    ensures starts { Starts (F.shelf files.old) (F.shelf files.new) name.now limit result }
    ensures blames { StartBlames result (F.faults files.old) (F.faults files.new) }
    ensures limit { IfOk result (λ engine. engine.limit ≡ limit) }
    ensures running { IfOk result (λ engine. engine.stop ≡ None) }
    ensures sound { IfOk result Sound }
    ensures owns { IfOk result (Owns (F.shelf files.new)) }
    ensures same { SameOutside (F.shelf files.old) (F.shelf files.new) }
    ensures closed { OnErr result ((F.shelf files.new).ids ≡ []) }
    ensures before { IfOk result IsBefore }
    ensures total { (F.shelf files.new).total ≡ (F.shelf files.old).total }
{
    let mut engine = empty_engine(alloc, name, limit)?;
    let file = match open_text(alloc, files, name) {
        Ok(Some(file)) => file,
        Ok(None) => return Err(Status::fault(alloc, MISSING_FILE, name, name.as_bytes())),
        Err(trouble) => return Err(Status::from(trouble)),
    };
    match engine.input().push_file(file.id, &file.name) {
        Ok(()) => Ok(engine),
        Err(_) => {
            files.close_file(file.id);
            Err(Status::NoMemory)
        }
    }
}

// An engine that has nothing to read, in which names mean what they mean before the first line.
fn empty_engine(alloc: Global, name: &str, limit: u64) -> Result<Engine, AllocError>
    ensures { IfOk result (IsEmpty name.now limit) }
{
    let main = Bytes::from_slice(alloc, name.as_bytes())?;
    let mut names = Names::new(alloc);
    let scope = first_scope(alloc, &mut names)?;
    Ok(Engine::new(alloc, scope, names, main, limit))
}
