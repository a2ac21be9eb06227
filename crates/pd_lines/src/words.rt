ghost use Rattle.std.specs.Prelude.{◌≡◌, ◌<◌, ◌≤◌, ◌^◌, ◌+◌, ◌*◌, ◌∷◌, [], ℕ, List, length, nat_eq, Some, ◌↔◌, IfSome, IfNone, MatchOption};
ghost use Rattle.std.specs.Char.{digit_value};
ghost use Rattle.std.specs.List.{slice_split};
ghost use Rattle.std.specs.Option.{SomeIff};
ghost use Rattle.std.specs.Str.Parse.{AllDigits, digits_value};
ghost use Rattle.pd_lines.specs.Numeral.{IsNumeral, number_of};

/// The number that a word spells in decimal digits, with no sign and no leading zero but in `0`
/// itself; none for another spelling or a number of 2^64 and more.
pub fn number(word: &[u8]) -> Option<u64>
    ensures value { result ≡ number_of word.now }
{
    spelled(word)
}

/// A word spells a number exactly where it is how the number is written, and it is below 2^64.
pub fn spells_its_number()
    ensures spelling { (word : List ℕ) (n : ℕ) → (number_of word ≡ Some n) ↔ IsNumeral word n }
{}

fn spelled(word: &[u8]) -> Option<u64>
    ensures some { IfSome result (λ n. IsNumeral word.now n) }
    ensures none { IfNone result ((n : ℕ) → IsNumeral word.now n → ⊥) }
{
    if word.is_empty() {
        return None;
    }
    if word[0] != b'0' {
        return digits(word);
    }
    if word.len() == 1 { Some(0) } else { None }
}

/// The value of decimal digits, leading zeros too; none for another word or a value of 2^64 and more.
/// No digits have the value 0.
pub fn digits(word: &[u8]) -> Option<u64>
    ensures some { IfSome result (λ n. AllDigits 10 word.now × (n ≡ digits_value 10 word.now) × (n < 2 ^ 64)) }
    ensures none { IfNone result (AllDigits 10 word.now → 2 ^ 64 ≤ digits_value 10 word.now) }
{
    let mut value = 0u64;
    for byte in word {
        match with_digit(value, *byte) {
            Some(next) => value = next,
            None => return None,
        }
    }
    Some(value)
}

/// What stands in front of the first such byte, and what stands behind it; a word without the byte
/// stands in front alone.
pub fn cut(word: &[u8], byte: u8) -> (&[u8], Option<&[u8]>)
    ensures value { MatchOption result.1 (slice_split (λ b. nat_eq b byte) word.now ≡ result.0.now ∷ []) (λ rest. slice_split (λ b. nat_eq b byte) word.now ≡ result.0.now ∷ slice_split (λ b. nat_eq b byte) rest.now) }
    ensures shorter { IfSome result.1 (λ rest. length rest.now < length word.now) }
{
    for (i, b) in word.iter().enumerate() {
        if *b == byte {
            return (&word[..i], Some(&word[i + 1..]));
        }
    }
    (word, None)
}

// The number with one more digit at its end, where it fits.
fn with_digit(value: u64, byte: u8) -> Option<u64>
    ensures { SomeIff result ((digit_value byte < 10) × (value * 10 + digit_value byte < 2 ^ 64)) (value * 10 + digit_value byte) }
{
    if byte.is_ascii_digit() {
        value.checked_mul(10)?.checked_add(u64::from(byte - b'0'))
    } else {
        None
    }
}
