//! Sinks in memory: one with room for so many bytes, and one that only counts.
ghost use Rattle.std.specs.Prelude.{◌≡◌, ◌≤◌, ◌==◌, ◌++◌, [], take, IfOk, None, Some, is_ok, if◌then◌else◌, vec_len, vec_capacity};
ghost use Rattle.texml_base.specs.Outside.{Takes, HasCause};
ghost use Rattle.texml_base.specs.Rising.{add_up};

use crate::faults::{Alarm, FaultCount};
use crate::sink::{Sink, SinkFail};
use std::alloc::{AllocError, Global};

/// A sink that never fails. It keeps no bytes, and tells their number up to the greatest u64.
#[derive(Drop)]
pub struct CalmSink {
    count: u64,
}

impl CalmSink {
    ghost use Rattle.texml_base.specs.MemorySinks.{calm_ink};

    /// A sink that has taken nothing.
    pub fn new() -> Self
        ensures { calm_ink result ≡ record { bytes = None; count = Some 0 } }
    {
        CalmSink { count: 0 }
    }

    /// The number of bytes taken, up to the greatest u64.
    pub fn count(&self) -> u64
        ensures { Some result ≡ (calm_ink self.now).count }
    {
        self.count
    }
}

impl Sink for CalmSink {
    ghost use Rattle.texml_base.specs.MemorySinks.{calm_ink};

    ghost ink = { calm_ink };

    ghost faults = { λ _. 0 };

    fn write(&mut self, piece: &[u8]) -> Result<(), SinkFail> {
        self.count = self.count.saturating_add(piece.len() as u64);
        Ok(())
    }
}

/// A sink in memory, with room for so many bytes. One write can be told to fail.
#[derive(Drop)]
pub struct MemorySink {
    bytes: Vec<u8>,
    room: usize,
    alarm: Alarm,
    faults: FaultCount,
    ghost reserved: { room ≤ vec_capacity bytes },
    ghost within: { vec_len bytes ≤ room },
}

impl MemorySink {
    ghost use Rattle.texml_base.specs.MemorySinks.{sink_bytes, sink_faults, sink_room, failing_write, next_write};

    /// A sink with this room, which it takes at once. The write of this number, counted from 1, fails and adds nothing; 0 means none.
    /// It fails only where memory was refused.
    pub fn new(alloc: Global, room: usize, fail_write: u64) -> Result<Self, AllocError>
        ensures bytes { IfOk result (λ s. sink_bytes s ≡ []) }
        ensures room { IfOk result (λ s. sink_room s ≡ room) }
        ensures fails { IfOk result (λ s. failing_write s ≡ fail_write) }
        ensures writes { IfOk result (λ s. next_write s ≡ 1) }
        ensures faults { IfOk result (λ s. sink_faults s ≡ 0) }
    {
        Ok(MemorySink {
            bytes: Vec::with_capacity(alloc, room)?,
            room,
            alarm: Alarm::new(fail_write),
            faults: FaultCount::new(),
        })
    }

    /// The bytes taken so far.
    pub fn bytes(&self) -> &[u8]
        ensures { result.now ≡ sink_bytes self.now }
    {
        &self.bytes
    }
}

impl Sink for MemorySink {
    ghost use Rattle.texml_base.specs.MemorySinks.{sink_ink, sink_faults, sink_bytes, sink_room, failing_write, next_write, fits_in};

    ghost ink = { sink_ink };

    ghost faults = { sink_faults };

    /// Appends the piece, or what fits of it and fails. The write that is to fail adds nothing.
    fn write(&mut self, piece: &[u8]) -> Result<(), SinkFail>
        ensures written { Takes (sink_ink self.old) (sink_ink self.new) result piece.now }
        ensures cause { HasCause (sink_faults self.old) (sink_faults self.new) result }
        ensures bytes { sink_bytes self.new ≡ (if next_write self.old == failing_write self.old then sink_bytes self.old
            else take (sink_room self.old) (sink_bytes self.old ++ piece.now)) }
        ensures exact { is_ok result ≡ fits_in self.old piece.now }
        ensures raised { sink_faults self.new ≡ (if is_ok result then sink_faults self.old else add_up (sink_faults self.old) 1) }
        ensures writes { next_write self.new ≡ add_up (next_write self.old) 1 }
        ensures room { sink_room self.new ≡ sink_room self.old }
        ensures fails { failing_write self.new ≡ failing_write self.old }
    {
        if self.alarm.rings() {
            self.faults.raise();
            return Err(SinkFail);
        }
        let taken = piece.len().min(self.room - self.bytes.len());
        let kept = self.bytes.extend_from_slice(&piece[..taken]);
        if kept.is_err() || taken < piece.len() {
            self.faults.raise();
            return Err(SinkFail);
        }
        Ok(())
    }
}
