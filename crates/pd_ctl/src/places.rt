// What the words behind the fixed ones stand for.
ghost use Rattle.std.specs.Prelude.{◌≡◌, Ok, IfOk, IfErr};
ghost use Rattle.pd_ctl.specs.Commands.{IsRefusal};
ghost use Rattle.pd_ctl.specs.Places.{key, kind, name, number, rate};

use crate::CtlFault;
use pd_types::{Bytes, Text};
use std::alloc::Global;
use store_limit::{LimitKind, MAX_RATE};

/// A number of 64 bits.
pub fn number(word: &[u8]) -> Result<u64, CtlFault>
    ensures value { result ≡ number word.now }
{
    match pd_lines::number(word) {
        Some(number) => Ok(number),
        None => Err(CtlFault::BadNumber),
    }
}

/// A rate of a store's limit.
pub fn rate(word: &[u8]) -> Result<u64, CtlFault>
    ensures value { result ≡ rate word.now }
{
    match pd_lines::number(word) {
        Some(rate) if rate <= MAX_RATE => Ok(rate),
        _ => Err(CtlFault::BadNumber),
    }
}

/// Which of a store's two limits.
pub fn kind(word: &[u8]) -> Result<LimitKind, CtlFault>
    ensures value { result ≡ kind word.now }
{
    if word == b"add-peer".as_slice() {
        Ok(LimitKind::AddPeer)
    } else if word == b"remove-peer".as_slice() {
        Ok(LimitKind::RemovePeer)
    } else {
        Err(CtlFault::BadNumber)
    }
}

/// A key in hexadecimal digits.
pub fn key(alloc: Global, word: &[u8]) -> Result<Bytes, CtlFault>
    ensures ok { IfOk result (λ bytes. key word.now ≡ Ok bytes) }
    ensures refused { IfErr result (IsRefusal (key word.now)) }
{
    match pd_lines::key(alloc, word)? {
        Some(key) => Ok(key),
        None => Err(CtlFault::BadNumber),
    }
}

/// The name of a scheduler.
pub fn name(alloc: Global, word: &[u8]) -> Result<Text, CtlFault>
    ensures ok { IfOk result (λ text. name word.now ≡ Ok text) }
    ensures refused { IfErr result (IsRefusal (name word.now)) }
{
    match str::from_utf8(word) {
        Ok(name) => Ok(Text::of(String::from_str(alloc, name)?)),
        Err(_) => Err(CtlFault::BadNumber),
    }
}
