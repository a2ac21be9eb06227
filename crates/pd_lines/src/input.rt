ghost use Rattle.std.specs.Prelude.{◌≡◌, ◌+◌, IfOk, IsErrOf};
ghost use Rattle.pd_lines.specs.Input.{HasRefusalCause, ReadsWhole, TakesFew, TakesMore};

use pd_io::Source;
use pd_types::Bytes;
use std::alloc::Global;
use thiserror::Error;

/// How many bytes a source is asked for at once.
pub const PIECE: usize = 4096;

const _: () = prove!(PIECE == 4_096);

/// Why an input was not read whole. What was taken of the source stays taken.
#[derive(Clone, Copy, Debug, PartialEq, Eq, Error)]
pub enum ReadRefusal {
    /// A read failed before more than the limit was there.
    #[error("the read failed")]
    ReadFault,
    /// More bytes than the limit were taken; the source wasn't asked again after that.
    #[error("the input is too long")]
    TooLong,
    #[error("out of memory")]
    NoMemory,
}

/// Reads all bytes to the end, at most `limit` of them, in pieces of at most 4,096.
pub fn read_all<S: Source>(
    alloc: Global,
    source: &mut S,
    limit: usize,
) -> Result<Bytes, ReadRefusal>
    ensures ok { IfOk result (λ text. ReadsWhole (S.left source.old) (S.left source.new) limit text) }
    ensures too_long { IsErrOf result ReadRefusal.TooLong → TakesMore (S.left source.old) (S.left source.new) limit }
    ensures read_fault { IsErrOf result ReadRefusal.ReadFault → TakesFew (S.left source.old) (S.left source.new) limit }
    ensures asked { TakesFew (S.left source.old) (S.left source.new) (limit + PIECE) }
    ensures cause { HasRefusalCause (S.faults source.old) (S.faults source.new) result }
{
    let mut text = Vec::new(alloc);
    let mut piece = [0u8; PIECE];
    while text.len() <= limit {
        let count = match source.take(&mut piece) {
            Ok(count) => count,
            Err(_) => return Err(ReadRefusal::ReadFault),
        };
        if count == 0 {
            return Ok(Bytes::of(text));
        }
        match text.extend_from_slice(&piece[..count]) {
            Ok(()) => {}
            Err(_) => return Err(ReadRefusal::NoMemory),
        }
    }
    Err(ReadRefusal::TooLong)
}
