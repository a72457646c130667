//! A sink that is lent for a page.

ghost use Rattle.std.specs.Prelude.{◌≡◌, ◌++◌, [], false};
ghost use Rattle.texml_base.specs.Outside.{Takes, HasCause};

use arrayvec::ArrayVec;
use texml_base::{Sink, SinkFail};

/// A sink that is lent for a page. Small pieces are held until they fill a block. It remembers a write that failed, and
/// writes nothing behind it, so that a walk through a tree has one way only.
#[derive(Drop)]
pub struct Writer<'s, S: Sink> {
    pub(crate) sink: &'s mut S,
    pub(crate) held: ArrayVec<u8, 4096>,
    pub(crate) failed: bool,
}

impl<'s, S: Sink> Writer<'s, S> {
    ghost use Rattle.texml_html.specs.Writing.{Wrote, lent_by};

    /// Lends the sink, and writes nothing.
    pub(crate) fn new(sink: &'s mut S) -> Self
        ensures loan { result.sink.ghost_name ≡ sink.entry.ghost_name }
        ensures value { result.sink.now ≡ sink.old }
        ensures held { result.held.items ≡ [] }
        ensures failed { result.failed ≡ false }
    {
        Writer {
            sink,
            held: ArrayVec::new(),
            failed: false,
        }
    }

    /// Writes a piece, unless a write has failed.
    pub(crate) fn put(&mut self, piece: &[u8])
        ensures { Wrote (lent_by S.ink S.faults self.old) piece.now (lent_by S.ink S.faults self.new) }
    {
        if self.failed {
            return;
        }
        match self.held.try_extend_from_slice(piece) {
            Ok(()) => {}
            Err(_) => {
                self.flush();
                self.pass(piece);
            }
        }
    }

    /// Gives the sink what is held.
    pub(crate) fn flush(&mut self)
        ensures written { Wrote (lent_by S.ink S.faults self.old) [] (lent_by S.ink S.faults self.new) }
        ensures held { self.new.held.items ≡ [] }
    {
        if self.failed {
            self.held.clear();
            return;
        }
        match self.sink.write(self.held.as_slice()) {
            Ok(()) => self.held.clear(),
            Err(SinkFail) => {
                self.held.clear();
                self.failed = true;
            }
        }
    }

    /// Gives the sink a piece, where nothing is held.
    fn pass(&mut self, piece: &[u8])
        requires { self.old.held.items ≡ [] }
        ensures { Wrote (lent_by S.ink S.faults self.old) piece.now (lent_by S.ink S.faults self.new) }
    {
        if self.failed {
            return;
        }
        match self.sink.write(piece) {
            Ok(()) => {}
            Err(SinkFail) => {
                self.failed = true;
            }
        }
    }

    /// Writes a piece with one before it and one behind it.
    pub(crate) fn put_between(&mut self, before: &[u8], piece: &[u8], after: &[u8])
        ensures { Wrote (lent_by S.ink S.faults self.old) (before.now ++ piece.now ++ after.now) (lent_by S.ink S.faults self.new) }
    {
        self.put(before);
        self.put(piece);
        self.put(after);
    }
}
