// A source and a sink in memory, in pieces, whose listed calls fail.
ghost use Rattle.std.specs.Prelude.{◌≡◌, ◌+◌, ◌-◌, ◌<◌, ◌≤◌, ◌↔◌, Some, [], length, drop, take, min, Contains, IfOk, IsErr, IsErrOf};
ghost use Rattle.std.specs.Io.{ReadsAtMost};
ghost use Rattle.std.specs.Io.KnownBytes.{ReadConsumes, WriteAppends};
ghost use Rattle.pd_io.specs.Faults.{HasReadCause, HasWriteCause, TakesSome};

use crate::{Failed, PutFault, Sink, Source};
use std::alloc::Global;

/// A source in memory, for tests: it gives at most `piece` bytes a call, and the calls with the
/// listed numbers fail, counted from 1.
#[derive(Drop)]
pub struct MemSource {
    bytes: Vec<u8>,
    at: usize,
    piece: usize,
    fails: Vec<u32>,
    calls: u32,
    faults: u64,
    ghost within: { at ≤ length bytes.items },
    ghost some: { 0 < piece },
}

impl MemSource {
    ghost use Rattle.pd_io.specs.Memory.{source_calls, source_fails, source_faults, source_left, source_piece};

    /// A source of these bytes; `piece` is positive.
    pub fn new(bytes: Vec<u8>, piece: usize, fails: Vec<u32>) -> Self
        requires piece { 0 < piece }
        ensures left { source_left result ≡ bytes.items }
        ensures fails { source_fails result ≡ fails.items }
        ensures calls { source_calls result ≡ 0 }
        ensures most { source_piece result ≡ piece }
        ensures faults { source_faults result ≡ 0 }
    {
        MemSource {
            bytes,
            at: 0,
            piece,
            fails,
            calls: 0,
            faults: 0,
        }
    }
}

/// Copies the front of `from` into `to`, at most `most` bytes, and says how many.
pub fn copy_front(from: &[u8], to: &mut [u8], most: usize) -> usize
    ensures count { result ≡ min (min (length from.now) (length to.old)) most }
    ensures front { take result to.new ≡ take result from.now }
{
    let count = from.len().min(to.len()).min(most);
    to[..count].copy_from_slice(&from[..count]);
    count
}

impl Source for MemSource {
    ghost use Rattle.pd_io.specs.Memory.{next_call, source_calls, source_fails, source_faults, source_left, source_piece};

    ghost left = { λ s. Some (drop s.at s.bytes.items) };

    ghost faults = { λ s. s.faults };

    #[tactic(auto, using(crate::proofs::Pieces::gives_front))]
    fn take(&mut self, buf: &mut [u8]) -> Result<usize, Failed>
        requires room { 0 < length buf.old }
        ensures bound { ReadsAtMost result buf.new }
        ensures bytes { ReadConsumes (Some (source_left self.old)) (Some (source_left self.new)) result buf.new }
        ensures cause { HasReadCause (source_faults self.old) (source_faults self.new) result }

        // What this source promises besides: it fails just at the listed calls.
        ensures failed { IsErr result ↔ Contains (source_fails self.old) (next_call (source_calls self.old)) }
        ensures count { IfOk result (λ n. n ≡ min (min (length (source_left self.old)) (length buf.old)) (source_piece self.old)) }
        ensures calls { source_calls self.new ≡ next_call (source_calls self.old) }
        ensures fails { source_fails self.new ≡ source_fails self.old }
        ensures most { source_piece self.new ≡ source_piece self.old }
    {
        self.calls = self.calls.saturating_add(1);
        if self.fails.contains(&self.calls) {
            self.faults = self.faults.saturating_add(1);
            return Err(Failed);
        }
        let count = copy_front(&self.bytes[self.at..], buf, self.piece);
        self.at += count;
        Ok(count)
    }
}

/// A sink in memory, for tests: it takes at most `piece` bytes a call, and the calls with the
/// listed numbers fail, counted from 1.
#[derive(Drop)]
pub struct MemSink {
    bytes: Vec<u8>,
    piece: usize,
    fails: Vec<u32>,
    calls: u32,
    faults: u64,
    ghost some: { 0 < piece },
}

impl MemSink {
    ghost use Rattle.pd_io.specs.Memory.{sink_calls, sink_fails, sink_faults, sink_held, sink_piece};

    /// An empty sink; `piece` is positive.
    pub fn new(alloc: Global, piece: usize, fails: Vec<u32>) -> Self
        requires piece { 0 < piece }
        ensures held { sink_held result ≡ [] }
        ensures fails { sink_fails result ≡ fails.items }
        ensures calls { sink_calls result ≡ 0 }
        ensures most { sink_piece result ≡ piece }
        ensures faults { sink_faults result ≡ 0 }
    {
        MemSink {
            bytes: Vec::new(alloc),
            piece,
            fails,
            calls: 0,
            faults: 0,
        }
    }

    /// What it took so far.
    pub fn bytes(&self) -> &[u8]
        ensures value { result.now ≡ sink_held self.now }
    {
        &self.bytes
    }
}

impl Sink for MemSink {
    ghost use Rattle.pd_io.specs.Memory.{next_call, sink_calls, sink_fails, sink_faults, sink_held, sink_piece};

    ghost held = { λ s. Some s.bytes.items };

    ghost faults = { λ s. s.faults };

    fn put(&mut self, bytes: &[u8]) -> Result<usize, PutFault>
        requires some { 0 < length bytes.now }
        ensures bound { TakesSome result bytes.now }
        ensures bytes { WriteAppends (Some (sink_held self.old)) (Some (sink_held self.new)) result bytes.now }
        ensures cause { HasWriteCause (sink_faults self.old) (sink_faults self.new) result }

        // What this sink promises besides: its writes fail just at the listed calls.
        ensures failed { IsErrOf result PutFault.Failed ↔ Contains (sink_fails self.old) (next_call (sink_calls self.old)) }
        ensures count { IfOk result (λ n. n ≡ min (length bytes.now) (sink_piece self.old)) }
        ensures calls { sink_calls self.new ≡ next_call (sink_calls self.old) }
        ensures fails { sink_fails self.new ≡ sink_fails self.old }
        ensures most { sink_piece self.new ≡ sink_piece self.old }
    {
        self.calls = self.calls.saturating_add(1);
        if self.fails.contains(&self.calls) {
            self.faults = self.faults.saturating_add(1);
            return Err(PutFault::Failed);
        }
        let count = bytes.len().min(self.piece);
        match self.bytes.extend_from_slice(&bytes[..count]) {
            Ok(()) => Ok(count),
            Err(_) => Err(PutFault::NoMemory),
        }
    }
}
