// The stored text of a window of ids.
ghost use Rattle.std.specs.Prelude.{◌≡◌, ◌^◌, ◌<◌, ℕ, Some, IfOk};
ghost use Rattle.std.specs.Fmt.{decimal};
ghost use Rattle.pd_lines.specs.Numeral.{number_of};

use pd_lines::number;
use pd_types::{Bytes, NoMemory};
use std::alloc::Global;

/// The end of a window of ids, in decimal.
pub fn id_text(alloc: Global, end: u64) -> Result<Bytes, NoMemory>
    ensures value { IfOk result (λ text. text ≡ decimal end) }
{
    let text = format!(in alloc; "{end}")?;
    Ok(Bytes::of(text.into_bytes()))
}

/// The end that the bytes tell; none exactly where `number` refuses them.
pub fn read_id_text(bytes: &[u8]) -> Option<u64>
    ensures value { result ≡ number_of bytes.now }
{
    number(bytes)
}

/// Each end is read from the text that is written of it.
pub fn ids_are_read_as_they_are_written()
    ensures read { (end : ℕ) → end < 2 ^ 64 → number_of (decimal end) ≡ Some end }
{}
