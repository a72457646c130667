//! A sink takes bytes, and counts its own faults.
ghost use Rattle.std.specs.Prelude.{◌≡◌, ◌≢◌, ℕ, None, OnErr, IfErr};
ghost use Rattle.std.specs.IoError.{error_kind};
ghost use Rattle.texml_base.specs.Outside.{Ink, Takes, HasCause};
ghost use Rattle.texml_base.specs.Rising.{add_up};
ghost use Rattle.texml_base.specs.Stream.{AppendsPiece};

use crate::faults::FaultCount;
use std::io;
use std::io::{ErrorKind, Write};

/// A write that failed: the sink's count of faults rose in that call.
#[derive(Clone, Copy, Debug, PartialEq, Eq, Drop)]
pub struct SinkFail;

/// What takes bytes, one piece after the other.
pub trait Sink {
    /// The bytes so far and their number, each where it is told.
    ghost ink: { Self → Ink };

    /// How often the sink has failed. Only a write that fails changes it. It ends at the greatest u64.
    ghost faults: { Self → ℕ };

    /// Appends the piece. Where it fails, what it appended is a first part of the piece, and it fails only where the count of faults rose. It takes no memory.
    fn write(&mut self, piece: &[u8]) -> Result<(), SinkFail>
        ensures written { Takes (ink self.old) (ink self.new) result piece.now }
        ensures cause { HasCause (faults self.old) (faults self.new) result };
}

/// A sink over any writer of std, as a standard stream. It tells nothing of what it took.
#[derive(Drop)]
pub struct StreamSink<W: Write> {
    stream: W,
    faults: FaultCount,
}

impl<W: Write> StreamSink<W> {
    ghost use Rattle.texml_base.specs.Stream.{stream_bytes, stream_faults};

    /// A sink that writes to the stream.
    pub fn new(stream: W) -> Self
        ensures bytes { stream_bytes W.contents result ≡ W.contents stream }
        ensures faults { stream_faults result ≡ 0 }
    {
        StreamSink {
            stream,
            faults: FaultCount::new(),
        }
    }
}

impl<W: Write> Sink for StreamSink<W> {
    ghost use Rattle.texml_base.specs.Stream.{stream_bytes, stream_faults, AppendsPiece};

    ghost ink = { λ _. record { bytes = None; count = None } };

    ghost faults = { stream_faults };

    /// Writes the piece whole, or a first part of it and fails. A write that the system interrupts is tried again, and
    /// nothing is that failed.
    fn write(&mut self, piece: &[u8]) -> Result<(), SinkFail>
        ensures written { Takes (record { bytes = None; count = None }) (record { bytes = None; count = None }) result piece.now }
        ensures bytes { AppendsPiece (stream_bytes W.contents self.old) (stream_bytes W.contents self.new) result piece.now }
        ensures cause { HasCause (stream_faults self.old) (stream_faults self.new) result }
        ensures raised { OnErr result (stream_faults self.new ≡ add_up (stream_faults self.old) 1) }
    {
        match write_whole(&mut self.stream, piece) {
            Ok(()) => Ok(()),
            Err(_) => {
                self.faults.raise();
                Err(SinkFail)
            }
        }
    }
}

// Writes a piece whole, or a first part of it and fails.
fn write_whole<W: Write>(stream: &mut W, piece: &[u8]) -> io::Result<()>
    ensures bytes { AppendsPiece (W.contents stream.old) (W.contents stream.new) result piece.now }
    ensures again { IfErr result (λ e. error_kind e ≢ ErrorKind.Interrupted) }
{
    let mut rest = piece;
    'writes: for _ in 0..u64::MAX {
        if rest.is_empty() {
            return Ok(());
        }
        match stream.write(rest) {
            Ok(0) => return Err(io::Error::from(ErrorKind::WriteZero)),
            Ok(count) => rest = &rest[count..],
            Err(e) if e.kind() == ErrorKind::Interrupted => {}
            Err(e) => return Err(e),
        }
    }
    Err(io::Error::from(ErrorKind::TimedOut))
}
