ghost use Rattle.std.specs.Prelude.{◌≡◌, ◌∷◌, [], Some, None, IfOk, codes};
ghost use Rattle.pd_lines.specs.Keys.{key_of};

use hex::FromHexError;
use pd_types::{Bytes, NoMemory};
use std::alloc::Global;

/// How keys are spelled: the empty one by `-`, a byte by its two digits, the greater one first, of
/// either case; one digit or two dashes spell none.
pub fn keys_are_spelled_in_hexadecimal()
    ensures empty { key_of (codes "-") ≡ Some [] }
    ensures bytes { key_of (codes "1f80") ≡ Some (31 ∷ 128 ∷ []) }
    ensures cases { key_of (codes "aBAb") ≡ Some (171 ∷ 171 ∷ []) }
    ensures odd { key_of (codes "1f8") ≡ None }
    ensures dashes { key_of (codes "--") ≡ None }
{}

/// The key that a word spells: the empty one by `-`, else its bytes by two hexadecimal digits each,
/// of either case; none for another spelling.
pub fn key(alloc: Global, word: &[u8]) -> Result<Option<Bytes>, NoMemory>
    ensures value { IfOk result (λ key. key ≡ key_of word.now) }
{
    if word == b"-".as_slice() {
        return Ok(Some(Bytes::new(alloc)));
    }
    match hex::decode(alloc, word) {
        Ok(bytes) => Ok(Some(Bytes::of(bytes))),
        Err(FromHexError::OutOfMemory) => Err(NoMemory),
        Err(_) => Ok(None),
    }
}
