// Words that list labels.
ghost use Rattle.std.specs.Prelude.{◌≡◌, ◌<◌, ◌∷◌, ◌++◌, [], ℕ, List, codes, length, replicate, true, false, is_some, IfOk, IfErr, OnOk, Some, None};
ghost use Rattle.pd_types.specs.declared.store.Label.{Label};
ghost use Rattle.pd_lines.specs.Labels.{AreLabels, has_key, label_by, label_of, labels_of, labels_text, with_label};
ghost use Rattle.pd_lines.specs.Plain.{address_of, is_plain};
ghost use Rattle.pd_lines.specs.Refused.{IsWordFault};

use crate::cut;
use crate::plain::{WordFault, is_plain, plain_text};
use pd_types::{Label, Labels, NoMemory};
use std::alloc::Global;

/// How many labels a store has at most.
pub const MOST_LABELS: usize = 4;

/// How many characters the key or the value of a label has at most.
pub const MOST_LABEL_BYTES: usize = 32;

const _: () = prove!(MOST_LABELS == 4 && MOST_LABEL_BYTES == 32);

/// The labels that a word lists: one to four, each `key=value` with 1 to 32 plain characters on
/// either side, joined by commas, and no key twice; none for another word.
pub fn labels(alloc: Global, word: &[u8]) -> Result<Option<Labels>, NoMemory>
    ensures value { IfOk result (λ labels. labels ≡ labels_of word.now) }
{
    match listed(alloc, word) {
        Ok(labels) => Ok(Some(labels)),
        Err(WordFault::Form) => Ok(None),
        Err(WordFault::NoMemory) => Err(NoMemory),
    }
}

/// A word lists labels exactly where it is how they are written, and they are one to four, each in
/// its form, and no key twice.
pub fn labels_are_read_as_they_are_written()
    ensures read { (word : List ℕ) (labels : List Label) → labels_of word ≡ Some labels →
        AreLabels labels × (0 < length labels) × (word ≡ labels_text labels) }
    ensures written { (labels : List Label) → AreLabels labels → 0 < length labels →
        labels_of (labels_text labels) ≡ Some labels }
{}

/// An address has 1 to 64 plain characters, the key and the value of a label have 1 to 32; a fifth
/// label, a key twice, an empty part or another byte spell none.
pub fn addresses_and_labels_have_their_bounds()
    ensures plain { is_plain 64 (codes "AZaz09._:/-") ≡ true }
    ensures other { (is_plain 64 (codes "a b") ≡ false) × (is_plain 64 (codes "a,b") ≡ false) × (is_plain 64 (codes "a=b") ≡ false) }
    ensures address { (is_some (address_of (replicate 64 97)) ≡ true) × (address_of (replicate 65 97) ≡ None) × (address_of [] ≡ None) }
    ensures label { labels_of (codes "k=v") ≡ Some (record { key = codes "k"; value = codes "v" } ∷ []) }
    ensures lengths { (is_some (labels_of (replicate 32 97 ++ codes "=v")) ≡ true) × (labels_of (replicate 33 97 ++ codes "=v") ≡ None) × (labels_of (codes "k=") ≡ None) }
    ensures four { (is_some (labels_of (codes "a=1,b=2,c=3,d=4")) ≡ true) × (labels_of (codes "a=1,b=2,c=3,d=4,e=5") ≡ None) }
    ensures twice { labels_of (codes "a=1,a=2") ≡ None }
{}

// The label of a key and a value.
fn pair(alloc: Global, key: &[u8], value: &[u8]) -> Result<Label, WordFault>
    ensures ok { IfOk result (λ label. label_by (key.now ∷ value.now ∷ []) ≡ Some label) }
    ensures refused { IfErr result (IsWordFault (label_by (key.now ∷ value.now ∷ []))) }
{
    if !is_plain(MOST_LABEL_BYTES, key) || !is_plain(MOST_LABEL_BYTES, value) {
        return Err(WordFault::Form);
    }
    Ok(Label {
        key: plain_text(alloc, key)?,
        value: plain_text(alloc, value)?,
    })
}

// The label that a part is.
fn label(alloc: Global, part: &[u8]) -> Result<Label, WordFault>
    ensures ok { IfOk result (λ label. label_of part.now ≡ Some label) }
    ensures refused { IfErr result (IsWordFault (label_of part.now)) }
{
    let (key, behind) = cut(part, b'=');
    let Some(rest) = behind else {
        return Err(WordFault::Form);
    };
    match cut(rest, b'=') {
        (value, None) => pair(alloc, key, value),
        (_, Some(_)) => Err(WordFault::Form),
    }
}

fn has_key(key: &[u8], labels: &[Label]) -> bool
    ensures value { result ≡ has_key key.now labels.now }
{
    labels.iter().any(|label| label.key.as_bytes() == key)
}

// Keeps a label behind others.
fn keep_label(labels: &mut Labels, label: Label) -> Result<(), WordFault>
    ensures ok { OnOk result (with_label labels.old label ≡ Some labels.new) }
    ensures refused { IfErr result (IsWordFault (with_label labels.old label)) }
{
    if labels.len() >= MOST_LABELS || has_key(label.key.as_bytes(), labels.as_slice()) {
        return Err(WordFault::Form);
    }
    labels.push(label)?;
    Ok(())
}

fn listed(alloc: Global, word: &[u8]) -> Result<Labels, WordFault>
    ensures ok { IfOk result (λ labels. labels_of word.now ≡ Some labels) }
    ensures refused { IfErr result (IsWordFault (labels_of word.now)) }
{
    let mut labels = Labels::new(alloc);
    let mut left = word;
    loop {
        let (part, behind) = cut(left, b',');
        keep_label(&mut labels, label(alloc, part)?)?;
        match behind {
            None => return Ok(labels),
            Some(rest) => left = rest,
        }
    }
}
