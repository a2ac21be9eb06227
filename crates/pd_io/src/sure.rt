// A source and a sink in memory that never fail.
ghost use Rattle.std.specs.Prelude.{◌≡◌, ◌+◌, ◌-◌, ◌<◌, ◌≤◌, Some, [], length, drop};

use crate::memory::copy_front;
use crate::{Failed, PutFault, Sink, Source};
use std::alloc::Global;

/// A source in memory that never fails.
#[derive(Drop)]
pub struct SureSource {
    bytes: Vec<u8>,
    at: usize,
    ghost within: { at ≤ length bytes.items },
}

impl SureSource {
    ghost use Rattle.pd_io.specs.Sure.{sure_left};

    /// A source of these bytes.
    pub fn new(bytes: Vec<u8>) -> Self
        ensures left { sure_left result ≡ bytes.items }
    {
        SureSource { bytes, at: 0 }
    }
}

impl Source for SureSource {
    ghost left = { λ s. Some (drop s.at s.bytes.items) };

    ghost faults = { λ _. 0 };

    #[tactic(auto, using(crate::proofs::Pieces::gives_front))]
    fn take(&mut self, buf: &mut [u8]) -> Result<usize, Failed> {
        let count = copy_front(&self.bytes[self.at..], buf, usize::MAX);
        self.at += count;
        Ok(count)
    }
}

/// A sink in memory that never fails, but for want of memory.
#[derive(Drop)]
pub struct SureSink {
    bytes: Vec<u8>,
}

impl SureSink {
    ghost use Rattle.pd_io.specs.Sure.{sure_held};

    /// An empty sink.
    pub fn new(alloc: Global) -> Self
        ensures held { sure_held result ≡ [] }
    {
        SureSink {
            bytes: Vec::new(alloc),
        }
    }

    /// What it took so far.
    pub fn bytes(&self) -> &[u8]
        ensures value { result.now ≡ sure_held self.now }
    {
        &self.bytes
    }
}

impl Sink for SureSink {
    ghost held = { λ s. Some s.bytes.items };

    ghost faults = { λ _. 0 };

    fn put(&mut self, bytes: &[u8]) -> Result<usize, PutFault> {
        match self.bytes.extend_from_slice(bytes) {
            Ok(()) => Ok(bytes.len()),
            Err(_) => Err(PutFault::NoMemory),
        }
    }
}
