//! What a run ends with.
ghost use Rattle.std.specs.Prelude.{◌≡◌};

use std::alloc::{AllocError, Global};
use texml_base::Trouble;
use texml_build::BuildFault;
use texml_expand::Stop;
use texml_token::{Bytes, Fault};
use texml_tree::ModelFault;

/// What a run ends with.
#[derive(Debug, Drop)]
pub enum Status {
    /// All that was asked for was written.
    Done,
    /// The words are no command line: 1, the first word is no command; 2, the words behind it don't fit.
    Usage(u8),
    /// The first fault of the text.
    Tex(Fault),
    /// The first thing that the table of elements doesn't allow.
    Model(ModelFault),
    /// So many expansions were begun, the limit, and another would begin.
    Limit(u64),
    /// The files failed.
    ReadFault,
    /// The sink failed.
    WriteFault,
    /// Memory was refused.
    NoMemory,
}

impl From<AllocError> for Status {
    ghost use Rattle.texml_top.specs.declared.status.Status.TheVariants.{NoMemory};

    ghost from_gives = { λ _ s. s ≡ NoMemory };

    fn from(_: AllocError) -> Self {
        Status::NoMemory
    }
}

impl From<Trouble> for Status {
    ghost use Rattle.texml_top.specs.Run.{unread};

    ghost from_gives = { λ trouble s. s ≡ unread trouble };

    fn from(trouble: Trouble) -> Self {
        match trouble {
            Trouble::Failed => Status::ReadFault,
            Trouble::NoMemory => Status::NoMemory,
        }
    }
}

impl From<BuildFault> for Status {
    ghost use Rattle.texml_top.specs.Run.{unbuilt};

    ghost from_gives = { λ fault s. s ≡ unbuilt fault };

    fn from(fault: BuildFault) -> Self {
        match fault {
            BuildFault::Model(fault) => Status::Model(fault),
            BuildFault::NoMemory => Status::NoMemory,
        }
    }
}

impl From<Stop> for Status {
    ghost use Rattle.texml_top.specs.Run.{stopped};

    ghost from_gives = { λ stop s. s ≡ stopped stop };

    fn from(stop: Stop) -> Self {
        match stop {
            Stop::Tex(fault) => Status::Tex(fault),
            Stop::Limit(limit) => Status::Limit(limit),
            Stop::ReadFailed => Status::ReadFault,
            Stop::TellFailed => Status::WriteFault,
            Stop::NoMemory => Status::NoMemory,
        }
    }
}

impl Status {
    ghost use Rattle.texml_top.specs.Outcome.{before};
    ghost use Rattle.texml_top.specs.Start.{IsStatusAt};

    // A fault at the place before the first line of a file, or want of memory.
    pub(crate) fn fault(alloc: Global, code: u8, file: &str, about: &[u8]) -> Self
        ensures { IsStatusAt code about.now (before file.now) result }
    {
        match (
            Bytes::from_slice(alloc, file.as_bytes()),
            Bytes::from_slice(alloc, about),
        ) {
            (Ok(file), Ok(about)) => Status::Tex(Fault {
                code,
                file,
                line: 0,
                about,
            }),
            _ => Status::NoMemory,
        }
    }
}
