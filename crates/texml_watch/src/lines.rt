//! A teller that writes trace lines to a sink.
ghost use Rattle.std.specs.Prelude.{◌≡◌, ◌++◌, true, MatchResult, IsErrOf};
ghost use Rattle.texml_base.specs.Outside.{Takes, HasCause, HasTroubleCause};
ghost use Rattle.texml_base.specs.declared.files.Trouble.TheVariants.{NoMemory};
ghost use Rattle.texml_watch.specs.Trace.{trace_line};
ghost use Rattle.texml_watch.specs.Lending.{lent_by};
ghost use Rattle.texml_watch.specs.Writing.{Wrote, BrokeOff};

use crate::record::Record;
use crate::teller::Teller;
use texml_base::{Sink, SinkFail, Trouble};

/// A sink that is lent for trace lines. It wants every record.
///
/// The line of a record is the token's spelling, ` -> `, the shown list, and a line feed. What it hears is its line, appended
/// to what the sink has taken; at an error a prefix of the line is. Its count of faults is the sink's. It takes no memory.
#[derive(Drop)]
pub struct Lines<'a, S: Sink> {
    /// The sink as it is now. When the loan ends it is what it then is here.
    pub sink: &'a mut S,
}

impl<'a, S: Sink> Lines<'a, S> {
    /// Lends the sink, and writes nothing.
    pub fn new(sink: &'a mut S) -> Self
        ensures loan { result.sink.ghost_name ≡ sink.entry.ghost_name }
        ensures value { result.sink.now ≡ sink.old }
    {
        Lines { sink }
    }
}

impl<'a, S: Sink> Teller for Lines<'a, S> {
    ghost wanting = { λ _. true };

    ghost heard = { λ old news new. Wrote (lent_by S.ink S.faults old) (trace_line news) (lent_by S.ink S.faults new) };

    ghost part = { λ old news new. BrokeOff (lent_by S.ink S.faults old) (trace_line news) (lent_by S.ink S.faults new) };

    ghost faults = { λ l. S.faults l.sink.now };

    ghost loan = { λ l. l.sink.ghost_name };

    fn wants(&self) -> bool {
        true
    }

    /// Writes the trace line of the record.
    ///
    /// # Errors
    ///
    /// `Failed` only where the sink's count of faults rose in this call. A prefix of the line is written then. `NoMemory` never.
    fn tell(&mut self, news: &Record) -> Result<(), Trouble>
        ensures loan { self.new.sink.ghost_name ≡ self.old.sink.ghost_name }
        ensures told { MatchResult result
            (λ _. Wrote (lent_by S.ink S.faults self.old) (trace_line news.now) (lent_by S.ink S.faults self.new))
            (λ _. BrokeOff (lent_by S.ink S.faults self.old) (trace_line news.now) (lent_by S.ink S.faults self.new)) }
        ensures cause { HasTroubleCause (S.faults self.old.sink.now) (S.faults self.new.sink.now) result }
        ensures memory { IsErrOf result NoMemory → ⊥ }
    {
        match write_line(self.sink, news) {
            Ok(()) => Ok(()),
            Err(SinkFail) => Err(Trouble::Failed),
        }
    }
}

// Writes the trace line of a record.
fn write_line<S: Sink>(sink: &mut S, news: &Record) -> Result<(), SinkFail>
    ensures written { Takes (S.ink sink.old) (S.ink sink.new) result (trace_line news.now) }
    ensures cause { HasCause (S.faults sink.old) (S.faults sink.new) result }
{
    match write_both(sink, news.token.as_slice(), b" -> ") {
        Ok(()) => write_both(sink, news.put.as_slice(), b"\n"),
        Err(fail) => Err(fail),
    }
}

// Writes one piece after the other.
fn write_both<S: Sink>(sink: &mut S, first: &[u8], second: &[u8]) -> Result<(), SinkFail>
    ensures written { Takes (S.ink sink.old) (S.ink sink.new) result (first.now ++ second.now) }
    ensures cause { HasCause (S.faults sink.old) (S.faults sink.new) result }
{
    match sink.write(first) {
        Ok(()) => sink.write(second),
        Err(fail) => Err(fail),
    }
}
