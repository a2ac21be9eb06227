// Words that are addresses, labels or keys.
ghost use Rattle.std.specs.Prelude.{◌≡◌, IfOk, IfErr, Ok};
ghost use Rattle.pd_script.specs.Forms.{address_form, key_form, labels_form};
ghost use Rattle.pd_script.specs.Refusals.{IsLineRefusal};

use crate::Reason;
use crate::refusal::LineRefusal;
use pd_types::{Bytes, Labels, Text};
use std::alloc::Global;

/// The address that a word is.
pub fn address(alloc: Global, word: &[u8]) -> Result<Text, LineRefusal>
    ensures ok { IfOk result (λ text. address_form word.now ≡ Ok text) }
    ensures refused { IfErr result (IsLineRefusal (address_form word.now)) }
{
    match pd_lines::address(alloc, word)? {
        Some(address) => Ok(address),
        None => Err(LineRefusal::Fault(Reason::BadWord)),
    }
}

/// The labels that a word lists.
pub fn labels(alloc: Global, word: &[u8]) -> Result<Labels, LineRefusal>
    ensures ok { IfOk result (λ labels. labels_form word.now ≡ Ok labels) }
    ensures refused { IfErr result (IsLineRefusal (labels_form word.now)) }
{
    match pd_lines::labels(alloc, word)? {
        Some(labels) => Ok(labels),
        None => Err(LineRefusal::Fault(Reason::BadWord)),
    }
}

/// The key that a word spells.
pub fn key_form(alloc: Global, word: &[u8]) -> Result<Bytes, LineRefusal>
    ensures ok { IfOk result (λ key. key_form word.now ≡ Ok key) }
    ensures refused { IfErr result (IsLineRefusal (key_form word.now)) }
{
    match pd_lines::key(alloc, word)? {
        Some(key) => Ok(key),
        None => Err(LineRefusal::Fault(Reason::BadWord)),
    }
}
