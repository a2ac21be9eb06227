// Which command the first words name.
ghost use Rattle.std.specs.Prelude.{◌≡◌, ◌∷◌, [], codes, None, MatchOption};
ghost use Rattle.pd_ctl.specs.Table.{verb_of, IsVerb};
ghost use Rattle.pd_ctl.specs.Words.{words};

use crate::words::next_word;

/// The commands by their fixed words.
#[derive(Clone, Copy, Debug, PartialEq, Eq)]
pub enum Verb {
    Store,
    StoreDelete,
    StoreLimit,
    Region,
    RegionKey,
    OperatorShow,
    AddPeer,
    RemovePeer,
    TransferLeader,
    TransferPeer,
    OperatorRemove,
    OperatorCheck,
    SchedulerShow,
    SchedulerRemove,
    LeaderShow,
    LeaderResign,
    Tso,
}

// Behind `store`.
fn store_verb(line: &[u8]) -> (Verb, &[u8])
    ensures { IsVerb (codes "store" ∷ words line.now) result.0 (words result.1.now) }
{
    match next_word(line) {
        Some((word, rest)) if word == b"delete".as_slice() => (Verb::StoreDelete, rest),
        Some((word, rest)) if word == b"limit".as_slice() => (Verb::StoreLimit, rest),
        _ => (Verb::Store, line),
    }
}

// Behind `region`.
fn region_verb(line: &[u8]) -> (Verb, &[u8])
    ensures { IsVerb (codes "region" ∷ words line.now) result.0 (words result.1.now) }
{
    match next_word(line) {
        Some((word, rest)) if word == b"key".as_slice() => (Verb::RegionKey, rest),
        _ => (Verb::Region, line),
    }
}

// What `operator add` names.
fn wish_verb(word: &[u8]) -> Option<Verb>
    ensures { result ≡ verb_of (codes "operator" ∷ codes "add" ∷ word.now ∷ []) }
{
    if word == b"add-peer".as_slice() {
        Some(Verb::AddPeer)
    } else if word == b"remove-peer".as_slice() {
        Some(Verb::RemovePeer)
    } else if word == b"transfer-leader".as_slice() {
        Some(Verb::TransferLeader)
    } else if word == b"transfer-peer".as_slice() {
        Some(Verb::TransferPeer)
    } else {
        None
    }
}

// Behind `operator add`.
fn add_verb(line: &[u8]) -> Option<(Verb, &[u8])>
    ensures { MatchOption result (verb_of (codes "operator" ∷ codes "add" ∷ words line.now) ≡ None) (λ p. IsVerb (codes "operator" ∷ codes "add" ∷ words line.now) p.0 (words p.1.now)) }
{
    let (word, rest) = next_word(line)?;
    let verb = wish_verb(word)?;
    Some((verb, rest))
}

// Behind `operator`.
fn operator_verb(line: &[u8]) -> Option<(Verb, &[u8])>
    ensures { MatchOption result (verb_of (codes "operator" ∷ words line.now) ≡ None) (λ p. IsVerb (codes "operator" ∷ words line.now) p.0 (words p.1.now)) }
{
    let (word, rest) = next_word(line)?;
    if word == b"show".as_slice() {
        Some((Verb::OperatorShow, rest))
    } else if word == b"add".as_slice() {
        add_verb(rest)
    } else if word == b"remove".as_slice() {
        Some((Verb::OperatorRemove, rest))
    } else if word == b"check".as_slice() {
        Some((Verb::OperatorCheck, rest))
    } else {
        None
    }
}

// Behind `scheduler`.
fn scheduler_verb(line: &[u8]) -> Option<(Verb, &[u8])>
    ensures { MatchOption result (verb_of (codes "scheduler" ∷ words line.now) ≡ None) (λ p. IsVerb (codes "scheduler" ∷ words line.now) p.0 (words p.1.now)) }
{
    let (word, rest) = next_word(line)?;
    if word == b"show".as_slice() {
        Some((Verb::SchedulerShow, rest))
    } else if word == b"remove".as_slice() {
        Some((Verb::SchedulerRemove, rest))
    } else {
        None
    }
}

// Behind `member leader`.
fn leader_verb(line: &[u8]) -> Option<(Verb, &[u8])>
    ensures { MatchOption result (verb_of (codes "member" ∷ codes "leader" ∷ words line.now) ≡ None) (λ p. IsVerb (codes "member" ∷ codes "leader" ∷ words line.now) p.0 (words p.1.now)) }
{
    let (word, rest) = next_word(line)?;
    if word == b"show".as_slice() {
        Some((Verb::LeaderShow, rest))
    } else if word == b"resign".as_slice() {
        Some((Verb::LeaderResign, rest))
    } else {
        None
    }
}

// Behind `member`.
fn member_verb(line: &[u8]) -> Option<(Verb, &[u8])>
    ensures { MatchOption result (verb_of (codes "member" ∷ words line.now) ≡ None) (λ p. IsVerb (codes "member" ∷ words line.now) p.0 (words p.1.now)) }
{
    let (word, rest) = next_word(line)?;
    if word == b"leader".as_slice() {
        leader_verb(rest)
    } else {
        None
    }
}

/// The command of the table whose fixed words agree, with the most of them, and what stands behind
/// them; none where no command's fixed words do.
pub fn verb_of(line: &[u8]) -> Option<(Verb, &[u8])>
    ensures { MatchOption result (verb_of (words line.now) ≡ None) (λ p. IsVerb (words line.now) p.0 (words p.1.now)) }
{
    let (word, rest) = next_word(line)?;
    if word == b"store".as_slice() {
        Some(store_verb(rest))
    } else if word == b"region".as_slice() {
        Some(region_verb(rest))
    } else if word == b"operator".as_slice() {
        operator_verb(rest)
    } else if word == b"scheduler".as_slice() {
        scheduler_verb(rest)
    } else if word == b"member".as_slice() {
        member_verb(rest)
    } else if word == b"tso".as_slice() {
        Some((Verb::Tso, rest))
    } else {
        None
    }
}
