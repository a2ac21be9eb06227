// The stored record of a store.
ghost use Rattle.std.specs.Prelude.{◌≡◌, ◌<◌, ◌∷◌, [], ◌++◌, ℕ, List, codes, IfOk, OnOk, MatchOption, Some, None};
ghost use Rattle.std.specs.Option.{option_and_then};
ghost use Rattle.pd_types.specs.declared.store.StoreRec.{StoreRec};
ghost use Rattle.pd_types.specs.declared.store.StoreState.TheVariants.{Up, Offline, Tombstone};
ghost use Rattle.pd_lines.specs.Labels.{label_text, labels_text};
ghost use Rattle.meta_store.specs.Stores.{IsStore, fields_of, id_of, labels_word, state_of, state_word, store_by, store_bytes, store_key, store_of, stored_labels};

use pd_lines::{address, cut, digits, labels};
use pd_types::{Bytes, Label, Labels, NoMemory, StoreRec, StoreState};
use std::alloc::Global;

/// The key of a store's record: `store/` and the id in 20 decimal digits.
pub fn store_key(alloc: Global, id: u64) -> Result<Bytes, NoMemory>
    ensures value { IfOk result (λ key. key ≡ store_key id) }
{
    let key = format!(in alloc; "store/{id:020}")?;
    Ok(Bytes::of(key.into_bytes()))
}

/// The bytes of a store's record: `STATE ADDRESS LABELS`, with `up`, `offline` or `tombstone`, and
/// the labels as `key=value` joined by commas, or `-`.
pub fn store_text(alloc: Global, store: &StoreRec) -> Result<Bytes, NoMemory>
    ensures value { IfOk result (λ text. text ≡ store_bytes store.now) }
{
    let mut text = Vec::new(alloc);
    text.extend_from_slice(state_word(store.state))?;
    text.push(b' ')?;
    text.extend_from_slice(store.address.as_bytes())?;
    text.push(b' ')?;
    put_labels(&mut text, store.labels.as_slice())?;
    Ok(Bytes::of(text))
}

/// The store whose record has this key and these bytes; none where no store within the ranges has.
pub fn read_store_text(
    alloc: Global,
    key: &[u8],
    bytes: &[u8],
) -> Result<Option<StoreRec>, NoMemory>
    ensures value { IfOk result (λ store. store ≡ store_of key.now bytes.now) }
{
    match id_of(alloc, key)? {
        Some(id) => read_fields(alloc, id, bytes),
        None => Ok(None),
    }
}

/// A store is read exactly of the key and the bytes that are written of it.
pub fn stores_are_read_as_they_are_written()
    ensures read { (key bytes : List ℕ) (store : StoreRec) → store_of key bytes ≡ Some store →
        IsStore store × (key ≡ store_key store.id) × (bytes ≡ store_bytes store) }
    ensures written { (store : StoreRec) → IsStore store →
        store_of (store_key store.id) (store_bytes store) ≡ Some store }
{}

/// How stores are spelled, by one of each state.
pub fn a_stored_store_is_spelled()
    ensures key { store_key 12 ≡ codes "store/00000000000000000012" }
    ensures up { store_bytes (record { id = 12; address = codes "a1"; labels = record { key = codes "zone"; value = codes "z1" } ∷ record { key = codes "k"; value = codes "v" } ∷ []; state = Up }) ≡ codes "up a1 zone=z1,k=v" }
    ensures offline { store_bytes (record { id = 12; address = codes "h:1"; labels = []; state = Offline }) ≡ codes "offline h:1 -" }
    ensures tombstone { store_bytes (record { id = 12; address = codes "h"; labels = record { key = codes "a"; value = codes "b" } ∷ []; state = Tombstone }) ≡ codes "tombstone h a=b" }
{}

fn state_word(state: StoreState) -> &'static [u8]
    ensures value { result.now ≡ state_word state }
{
    match state {
        StoreState::Up => b"up",
        StoreState::Offline => b"offline",
        StoreState::Tombstone => b"tombstone",
    }
}

fn put_label(text: &mut Vec<u8>, label: &Label) -> Result<(), NoMemory>
    ensures ok { OnOk result (text.new.items ≡ text.old.items ++ label_text label.now) }
{
    text.extend_from_slice(label.key.as_bytes())?;
    text.push(b'=')?;
    text.extend_from_slice(label.value.as_bytes())?;
    Ok(())
}

// A label, with a comma before it where it isn't the first.
fn put_next(text: &mut Vec<u8>, place: usize, label: &Label) -> Result<(), NoMemory>
    ensures first { OnOk result (place ≡ 0 → text.new.items ≡ text.old.items ++ label_text label.now) }
    ensures next { OnOk result (0 < place → text.new.items ≡ (text.old.items ++ 44 ∷ []) ++ label_text label.now) }
{
    if place == 0 {
        return put_label(text, label);
    }
    text.push(b',')?;
    put_label(text, label)
}

fn put_labels(text: &mut Vec<u8>, labels: &[Label]) -> Result<(), NoMemory>
    ensures ok { OnOk result (text.new.items ≡ text.old.items ++ labels_word labels.now) }
{
    if labels.is_empty() {
        text.push(b'-')?;
        return Ok(());
    }
    for (place, label) in labels.iter().enumerate() {
        put_next(text, place, label)?;
    }
    Ok(())
}

// The store whose key this is.
fn id_of(alloc: Global, key: &[u8]) -> Result<Option<u64>, NoMemory>
    ensures value { IfOk result (λ id. id ≡ id_of key.now) }
{
    if key.len() < 6 {
        return Ok(None);
    }
    let Some(id) = digits(&key[6..]) else {
        return Ok(None);
    };
    if id == 0 || id >= 1 << 63 {
        return Ok(None);
    }
    let written = store_key(alloc, id)?;
    if written.as_slice() != key {
        return Ok(None);
    }
    Ok(Some(id))
}

// The three words of a record.
fn three(bytes: &[u8]) -> Option<(&[u8], &[u8], &[u8])>
    ensures value { MatchOption result (fields_of bytes.now ≡ None) (λ words. fields_of bytes.now ≡ Some (record { state = words.0.now; address = words.1.now; labels = words.2.now })) }
{
    let (state, behind) = cut(bytes, b' ');
    let Some(rest) = behind else {
        return None;
    };
    let (address, last) = cut(rest, b' ');
    let Some(listed) = last else {
        return None;
    };
    match cut(listed, b' ') {
        (labels, None) => Some((state, address, labels)),
        (_, Some(_)) => None,
    }
}

fn state_of(word: &[u8]) -> Option<StoreState>
    ensures value { result ≡ state_of word.now }
{
    if word == b"up".as_slice() {
        return Some(StoreState::Up);
    }
    if word == b"offline".as_slice() {
        return Some(StoreState::Offline);
    }
    if word == b"tombstone".as_slice() {
        return Some(StoreState::Tombstone);
    }
    None
}

fn stored_labels(alloc: Global, word: &[u8]) -> Result<Option<Labels>, NoMemory>
    ensures value { IfOk result (λ labels. labels ≡ stored_labels word.now) }
{
    if word == b"-".as_slice() {
        return Ok(Some(Labels::new(alloc)));
    }
    labels(alloc, word)
}

fn read_fields(alloc: Global, id: u64, bytes: &[u8]) -> Result<Option<StoreRec>, NoMemory>
    ensures value { IfOk result (λ store. store ≡ option_and_then (store_by id) (fields_of bytes.now)) }
{
    let Some((state, place, listed)) = three(bytes) else {
        return Ok(None);
    };
    let Some(state) = state_of(state) else {
        return Ok(None);
    };
    let Some(address) = address(alloc, place)? else {
        return Ok(None);
    };
    let Some(labels) = stored_labels(alloc, listed)? else {
        return Ok(None);
    };
    Ok(Some(StoreRec {
        id,
        address,
        labels,
        state,
    }))
}
