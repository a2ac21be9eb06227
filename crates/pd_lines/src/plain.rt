// Words of plain characters.
ghost use Rattle.std.specs.Prelude.{◌≡◌, true, IfOk};
ghost use Rattle.std.specs.List.{list_all};
ghost use Rattle.pd_lines.specs.Plain.{address_of, is_plain, is_plain_byte};
ghost use Rattle.pd_lines.specs.declared.plain.WordFault.TheVariants as word_faults;

use pd_types::{NoMemory, Text};
use std::alloc::{AllocError, Global};

/// How many characters an address has at most.
pub const MOST_ADDRESS_BYTES: usize = 64;

const _: () = prove!(MOST_ADDRESS_BYTES == 64);

// Why a word isn't read.
#[derive(Clone, Copy)]
pub enum WordFault {
    Form,
    NoMemory,
}

impl From<NoMemory> for WordFault {
    ghost from_gives = { λ _ fault. fault ≡ word_faults.NoMemory };

    fn from(_: NoMemory) -> Self {
        WordFault::NoMemory
    }
}

impl From<AllocError> for WordFault {
    ghost from_gives = { λ _ fault. fault ≡ word_faults.NoMemory };

    fn from(_: AllocError) -> Self {
        WordFault::NoMemory
    }
}

fn is_plain_byte(byte: u8) -> bool
    ensures value { result ≡ is_plain_byte byte }
{
    byte.is_ascii_alphanumeric()
        || byte == b'.'
        || byte == b'_'
        || byte == b':'
        || byte == b'/'
        || byte == b'-'
}

fn are_plain(word: &[u8]) -> bool
    ensures value { result ≡ list_all is_plain_byte word.now }
{
    word.iter().all(|byte| is_plain_byte(*byte))
}

/// Whether a word is one to so many plain characters.
pub fn is_plain(most: usize, word: &[u8]) -> bool
    ensures value { result ≡ is_plain most word.now }
{
    !word.is_empty() && word.len() <= most && are_plain(word)
}

/// The text of plain characters.
pub fn plain_text(alloc: Global, word: &[u8]) -> Result<Text, NoMemory>
    requires plain { list_all is_plain_byte word.now ≡ true }
    ensures ok { IfOk result (λ text. text ≡ word.now) }
{
    Ok(Text::of(String::from_utf8_lossy(alloc, word)?))
}

/// The address that a word is, 1 to 64 characters of `A-Z a-z 0-9 . _ : / -`; none for another word.
pub fn address(alloc: Global, word: &[u8]) -> Result<Option<Text>, NoMemory>
    ensures value { IfOk result (λ text. text ≡ address_of word.now) }
{
    if !is_plain(MOST_ADDRESS_BYTES, word) {
        return Ok(None);
    }
    Ok(Some(plain_text(alloc, word)?))
}
