// Words that list peers, cut at each `:` and `,`.
ghost use Rattle.std.specs.Prelude.{◌≡◌, List, [], ◌∷◌, ◌<◌, length, IfOk, IfErr, IsSome, MatchResult, Result, Ok, Err, refl};
ghost use Rattle.pd_script.specs.Forms.{Item, before_colon, downs_from, downs_of, ids_from, in_front, is_colon, is_separator, items_behind, items_of, peers_from, peers_of, pending_of, role_of, unless_colon};
ghost use Rattle.pd_script.specs.Refusals.{IsLineRefusal};
ghost use Rattle.pd_script.specs.declared.refusal.Reason.{Reason};

use crate::Reason;
use crate::place::{Place, read_place};
use crate::refusal::LineRefusal;
use pd_types::{DownPeer, Downs, Ids, Peer, Peers, Role, Seq};
use std::alloc::Global;

fn is_separator(byte: u8) -> bool
    ensures value { result ≡ is_separator byte }
{
    byte == b':' || byte == b','
}

// The first item, the separator behind it, and what stands behind that.
fn item(word: &[u8]) -> (&[u8], Option<u8>, &[u8])
    ensures value { items_of word.now ≡ record { text = result.0.now; behind = result.1 } ∷ items_behind result.1 result.2.now }
    ensures shorter { IsSome result.1 → length result.2.now < length word.now }
{
    for (i, byte) in word.iter().enumerate() {
        if is_separator(*byte) {
            return (&word[..i], Some(*byte), &word[i + 1..]);
        }
    }
    (word, None, &[])
}

fn is_colon(behind: Option<u8>) -> bool
    ensures value { result ≡ is_colon behind }
{
    behind == Some(b':')
}

// The number that an item spells, which has `:` behind it.
fn before_colon(place: Place, text: &[u8], behind: Option<u8>) -> Result<u64, Reason>
    ensures value { result ≡ before_colon place (record { text = text.now; behind = behind }) }
{
    let number = read_place(place, text)?;
    if is_colon(behind) {
        Ok(number)
    } else {
        Err(Reason::BadWord)
    }
}

fn role(word: &[u8]) -> Result<Role, Reason>
    ensures value { result ≡ role_of word.now }
{
    if word == b"v".as_slice() {
        Ok(Role::Voter)
    } else if word == b"l".as_slice() {
        Ok(Role::Learner)
    } else {
        Err(Reason::BadWord)
    }
}

/// What a word lists, with commas between its elements.
trait Listed: Drop + Sized {
    /// The list that these items spell.
    ghost read_items: { List Item → Result (List Self) Reason };

    /// The first element of a list, the separator behind it, and what stands behind that.
    fn first(word: &[u8]) -> Result<(Self, Option<u8>, &[u8]), Reason>
        ensures value { MatchResult result (λ p. read_items (items_of word.now) ≡ in_front p.0 (unless_colon p.1 (read_items (items_behind p.1 p.2.now)))) (λ reason. read_items (items_of word.now) ≡ Err reason) }
        ensures shorter { IfOk result (λ p. IsSome p.1 → length p.2.now < length word.now) };

    ghost none: { read_items [] ≡ Ok [] };
}

impl Listed for Peer {
    ghost read_items = { peers_from };

    ghost none = { refl };

    fn first(word: &[u8]) -> Result<(Peer, Option<u8>, &[u8]), Reason> {
        let (id, behind_id, rest) = item(word);
        let id = before_colon(Place::Id, id, behind_id)?;
        let (store, behind_store, rest) = item(rest);
        let store = before_colon(Place::Id, store, behind_store)?;
        let (word, behind, rest) = item(rest);
        let role = role(word)?;
        Ok((Peer { id, store, role }, behind, rest))
    }
}

impl Listed for DownPeer {
    ghost read_items = { downs_from };

    ghost none = { refl };

    fn first(word: &[u8]) -> Result<(DownPeer, Option<u8>, &[u8]), Reason> {
        let (peer, behind_peer, rest) = item(word);
        let peer = before_colon(Place::Id, peer, behind_peer)?;
        let (seconds, behind, rest) = item(rest);
        let seconds = read_place(Place::Seconds, seconds)?;
        Ok((DownPeer { peer, seconds }, behind, rest))
    }
}

impl Listed for u64 {
    ghost read_items = { ids_from };

    ghost none = { refl };

    fn first(word: &[u8]) -> Result<(u64, Option<u8>, &[u8]), Reason> {
        let (id, behind, rest) = item(word);
        Ok((read_place(Place::Id, id)?, behind, rest))
    }
}

// The elements of a list.
fn elements<T: Listed>(alloc: Global, word: &[u8]) -> Result<Seq<T>, LineRefusal>
    ensures ok { IfOk result (λ list. T.read_items (items_of word.now) ≡ Ok list) }
    ensures refused { IfErr result (IsLineRefusal (T.read_items (items_of word.now))) }
{
    let mut list = Seq::new(alloc);
    let mut left = word;
    'left: loop {
        let (element, behind, rest) = T::first(left)?;
        list.push(element)?;
        if is_colon(behind) {
            return Err(LineRefusal::Fault(Reason::BadWord));
        }
        if behind.is_none() {
            return Ok(list);
        }
        left = rest;
    }
}

/// The peers that a word lists; none for `-`.
pub fn peers(alloc: Global, word: &[u8]) -> Result<Peers, LineRefusal>
    ensures ok { IfOk result (λ peers. peers_of word.now ≡ Ok peers) }
    ensures refused { IfErr result (IsLineRefusal (peers_of word.now)) }
{
    if word == b"-".as_slice() {
        return Ok(Peers::new(alloc));
    }
    elements(alloc, word)
}

/// The down peers that a word lists behind `down=`.
pub fn downs(alloc: Global, word: &[u8]) -> Result<Downs, LineRefusal>
    ensures ok { IfOk result (λ downs. downs_of word.now ≡ Ok downs) }
    ensures refused { IfErr result (IsLineRefusal (downs_of word.now)) }
{
    match word.strip_prefix(b"down=") {
        Some(list) => elements(alloc, list),
        None => Err(LineRefusal::Fault(Reason::BadWord)),
    }
}

/// The peer ids that a word lists behind `pending=`.
pub fn pending(alloc: Global, word: &[u8]) -> Result<Ids, LineRefusal>
    ensures ok { IfOk result (λ ids. pending_of word.now ≡ Ok ids) }
    ensures refused { IfErr result (IsLineRefusal (pending_of word.now)) }
{
    match word.strip_prefix(b"pending=") {
        Some(list) => elements(alloc, list),
        None => Err(LineRefusal::Fault(Reason::BadWord)),
    }
}
