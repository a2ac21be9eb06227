// The words of a command.
ghost use Rattle.std.specs.Prelude.{◌≡◌, ◌∷◌, [], Some, MatchOption, IfOk, IfErr};
ghost use Rattle.pd_ctl.specs.Words.{words};
ghost use Rattle.pd_ctl.specs.Table.{miscount};

use crate::CtlFault;
use pd_lines::cut;

/// The first word and what stands behind it; none where there is no word.
pub fn next_word(line: &[u8]) -> Option<(&[u8], &[u8])>
    ensures value { MatchOption result (words line.now ≡ []) (λ p. words line.now ≡ p.0.now ∷ words p.1.now) }
{
    let mut left = line;
    loop {
        match cut(left, b' ') {
            (word, None) => {
                return if word.is_empty() {
                    None
                } else {
                    Some((word, &[]))
                };
            }
            (word, Some(rest)) => {
                if !word.is_empty() {
                    return Some((word, rest));
                }
                left = rest;
            }
        }
    }
}

/// Where words must end: a further one is too many.
pub fn no_word(line: &[u8]) -> Result<(), CtlFault>
    ensures ok { IfOk result (λ _. words line.now ≡ []) }
    ensures err { IfErr result (λ fault. miscount 0 0 (words line.now) ≡ Some fault) }
{
    match next_word(line) {
        None => Ok(()),
        Some(_) => Err(CtlFault::ExtraWord),
    }
}

/// One word and no other.
pub fn one_word(line: &[u8]) -> Result<&[u8], CtlFault>
    ensures ok { IfOk result (λ word. words line.now ≡ word.now ∷ []) }
    ensures err { IfErr result (λ fault. miscount 1 1 (words line.now) ≡ Some fault) }
{
    let Some((word, rest)) = next_word(line) else {
        return Err(CtlFault::MissingWord);
    };
    match next_word(rest) {
        None => Ok(word),
        Some(_) => Err(CtlFault::ExtraWord),
    }
}

/// Two words and no other.
pub fn two_words(line: &[u8]) -> Result<(&[u8], &[u8]), CtlFault>
    ensures ok { IfOk result (λ p. words line.now ≡ p.0.now ∷ p.1.now ∷ []) }
    ensures err { IfErr result (λ fault. miscount 2 2 (words line.now) ≡ Some fault) }
{
    let Some((first, rest)) = next_word(line) else {
        return Err(CtlFault::MissingWord);
    };
    let Some((second, rest)) = next_word(rest) else {
        return Err(CtlFault::MissingWord);
    };
    match next_word(rest) {
        None => Ok((first, second)),
        Some(_) => Err(CtlFault::ExtraWord),
    }
}

/// Three words and no other.
pub fn three_words(line: &[u8]) -> Result<(&[u8], &[u8], &[u8]), CtlFault>
    ensures ok { IfOk result (λ p. words line.now ≡ p.0.now ∷ p.1.now ∷ p.2.now ∷ []) }
    ensures err { IfErr result (λ fault. miscount 3 3 (words line.now) ≡ Some fault) }
{
    let (first, rest) = next_word(line).ok_or(CtlFault::MissingWord)?;
    let (second, rest) = next_word(rest).ok_or(CtlFault::MissingWord)?;
    let (third, rest) = next_word(rest).ok_or(CtlFault::MissingWord)?;
    match next_word(rest) {
        None => Ok((first, second, third)),
        Some(_) => Err(CtlFault::ExtraWord),
    }
}
