ghost use Rattle.std.specs.Prelude.{◌<◌, List, ℕ, length};
ghost use Rattle.std.specs.Io.{ReadsAtMost};
ghost use Rattle.std.specs.Io.KnownBytes.{ReadConsumes, WriteAppends};
ghost use Rattle.std.specs.declared.option.Option.{Option};
ghost use Rattle.pd_io.specs.Faults.{HasReadCause, HasWriteCause, TakesSome};

use thiserror::Error;

/// A source could not give its next bytes. Nothing was taken, and its count of faults has risen.
#[derive(Clone, Copy, Debug, PartialEq, Eq, Error)]
#[error("the read failed")]
pub struct Failed;

/// Why a sink took nothing.
#[derive(Clone, Copy, Debug, PartialEq, Eq, Error)]
pub enum PutFault {
    /// The write failed, and the sink's count of faults has risen.
    #[error("the write failed")]
    Failed,
    #[error("out of memory")]
    NoMemory,
}

/// Where bytes come from, in pieces, until its end.
pub trait Source {
    /// The bytes that are left, where the source tells them.
    ghost left: { Self → Option (List ℕ) };

    /// How often it has failed. The count never falls, and stands still at its type's end.
    ghost faults: { Self → ℕ };

    /// Writes the next bytes to the front of `buf` and says how many, 0 only at the end.
    fn take(&mut self, buf: &mut [u8]) -> Result<usize, Failed>
        requires room { 0 < length buf.old }
        ensures bound { ReadsAtMost result buf.new }
        ensures bytes { ReadConsumes (left self.old) (left self.new) result buf.new }
        ensures cause { HasReadCause (faults self.old) (faults self.new) result };
}

/// Where bytes go to, in pieces.
pub trait Sink {
    /// The bytes that it holds, where the sink tells them.
    ghost held: { Self → Option (List ℕ) };

    /// How often it has failed. The count never falls, and stands still at its type's end.
    ghost faults: { Self → ℕ };

    /// Takes bytes from the front, at least one, and says how many.
    fn put(&mut self, bytes: &[u8]) -> Result<usize, PutFault>
        requires some { 0 < length bytes.now }
        ensures bound { TakesSome result bytes.now }
        ensures bytes { WriteAppends (held self.old) (held self.new) result bytes.now }
        ensures cause { HasWriteCause (faults self.old) (faults self.new) result };
}
