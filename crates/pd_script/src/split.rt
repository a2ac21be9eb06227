// The words of a line.
ghost use Rattle.std.specs.Prelude.{◌≡◌, ◌≢◌, ◌<◌, ◌∷◌, [], get_or, length, IfOk, IfSome, MatchOption, MatchResult};
ghost use Rattle.pd_script.specs.Words.{behind_word, from_space, from_word, to_word, trimmed, words};

use crate::Reason;

// The line from its first byte that is no space.
fn skip_spaces(line: &[u8]) -> &[u8]
    ensures words { words result.now ≡ words line.now }
    ensures value { result.now ≡ from_word line.now }
    ensures first { get_or result.now 0 0 ≢ 32 }
{
    for (i, byte) in line.iter().enumerate() {
        if *byte != b' ' {
            return &line[i..];
        }
    }
    &[]
}

// The line up to its last byte that is no space.
fn drop_spaces(line: &[u8]) -> &[u8]
    ensures value { result.now ≡ to_word line.now }
{
    let mut end = line.len();
    while end > 0 && line[end - 1] == b' ' {
        end -= 1;
    }
    &line[..end]
}

/// The line without the spaces at its two ends.
pub fn trimmed(line: &[u8]) -> &[u8]
    ensures value { result.now ≡ trimmed line.now }
{
    drop_spaces(skip_spaces(line))
}

// The first word of a line that begins with one, and what stands behind it.
fn first_word(line: &[u8]) -> (&[u8], &[u8])
    requires some { 0 < length line.now }
    requires first { get_or line.now 0 0 ≢ 32 }
    ensures value { words line.now ≡ result.0.now ∷ words result.1.now }
    ensures behind { result.1.now ≡ from_space line.now }
{
    for (i, byte) in line.iter().enumerate() {
        if *byte == b' ' {
            return (&line[..i], &line[i..]);
        }
    }
    (line, &[])
}

/// The first word and what stands behind it; none where the line has no word.
pub fn next_word(line: &[u8]) -> Option<(&[u8], &[u8])>
    ensures value { MatchOption result (words line.now ≡ []) (λ p. words line.now ≡ p.0.now ∷ words p.1.now) }
    ensures behind { IfSome result (λ p. p.1.now ≡ behind_word line.now) }
{
    let line = skip_spaces(line);
    if line.is_empty() {
        return None;
    }
    Some(first_word(line))
}

/// The next word, which may not be missing.
pub fn word(rest: &[u8]) -> Result<(&[u8], &[u8]), Reason>
    ensures value { MatchResult result (λ p. words rest.now ≡ p.0.now ∷ words p.1.now) (λ reason. (words rest.now ≡ []) × (reason ≡ Reason.MissingWord)) }
    ensures behind { IfOk result (λ p. p.1.now ≡ behind_word rest.now) }
{
    match next_word(rest) {
        Some(parts) => Ok(parts),
        None => Err(Reason::MissingWord),
    }
}
