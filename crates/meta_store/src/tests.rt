use crate::{
    Cells, Known, Meta, MetaFault, MetaVerdict, ask_delete, ask_lead, ask_put, id_text,
    read_id_text, read_store_text, store_key, store_text,
};
use pd_types::{Bytes, Label, Labels, NoMemory, StoreRec, StoreState, Text};
use std::alloc::Global;
use std::process::Abort;
use std::test::Fail;

// Whether a call is made whole, or there is no memory for it and neither an entry nor a record
// changes.
fn is_whole(meta: &Meta, before: usize, revision: u64, done: Result<u64, MetaFault>) -> bool {
    let entries = meta.journal().len();
    match done {
        Err(MetaFault::NoMemory) => entries == before && revision_of(meta) == revision,
        _ => entries == before.saturating_add(1),
    }
}

// The revision of the key `a`; 0 where it has no record, or there is no memory to copy it.
fn revision_of(meta: &Meta) -> u64 {
    match meta.get(b"a") {
        Ok(Some(cell)) => cell.revision,
        _ => 0,
    }
}

// How many records were handed out.
fn count_of(led: Result<Cells, MetaFault>) -> Result<u64, MetaFault> {
    match led {
        Ok(cells) => Ok(cells.len() as u64),
        Err(fault) => Err(fault),
    }
}

// A new key, another, a known one, a lead that hands two out, and a deletion. With
// `rt try --test --fail-alloc N` the Nth allocation fails, and this test is the first.
#[test]
fn a_call_without_memory_changes_nothing(rt: HostRuntime) {
    let mut meta = Meta::new(rt.alloc());
    let mut lost = 0;
    let first = meta.put_if(1, 1, b"a", 0, b"x");
    assert!(rt; is_whole(&meta, 0, 0, first), "a new key");
    if first == Err(MetaFault::NoMemory) {
        lost = 1;
        assert_eq!(rt; meta.put_if(1, 1, b"a", 0, b"x"), Ok(1));
    }
    let second = meta.put_if(1, 1, b"b", 0, b"y");
    assert!(rt; is_whole(&meta, 1, 1, second), "another key");
    if second == Err(MetaFault::NoMemory) {
        lost = 2;
        assert_eq!(rt; meta.put_if(1, 1, b"b", 0, b"y"), Ok(2));
    }
    let known = meta.put_if(1, 1, b"a", 1, b"zz");
    assert!(rt; is_whole(&meta, 2, 1, known), "a known key");
    if known == Err(MetaFault::NoMemory) {
        lost = 3;
        assert_eq!(rt; meta.put_if(1, 1, b"a", 1, b"zz"), Ok(3));
    }
    let led = count_of(meta.lead(1, 2));
    assert!(rt; is_whole(&meta, 3, 3, led), "a lead");
    if led == Err(MetaFault::NoMemory) {
        lost = 4;
        assert_eq!(rt; count_of(meta.lead(1, 2)), Ok(2));
    }
    let gone = meta.delete_if(1, 2, b"a", 3);
    assert!(rt; is_whole(&meta, 4, 3, gone), "a deletion");
    if gone == Err(MetaFault::NoMemory) {
        lost = 5;
        assert_eq!(rt; meta.delete_if(1, 2, b"a", 3), Ok(4));
    }
    assert!(rt; lost <= 5);
    assert_eq!(rt; meta.journal().len(), 5);
    assert_eq!(rt; revision_of(&meta), 0);
}

// The fence is 2, the key `a` has the revision 1 and the key `b` none. In each row that is refused
// at a term below 2 two faults hold at once, but for the last.
#[test]
fn the_first_of_two_faults_is_told(rt: HostRuntime) -> Result<(), Fail> {
    let mut meta = Meta::new(rt.alloc());
    assert!(rt; meta.lead(1, 2).is_ok());
    assert_eq!(rt; meta.put_if(1, 2, b"a", 0, b"x"), Ok(1));
    let old = Err(MetaFault::OldTerm { fence: 2 });
    let rows: [(u64, &[u8], u64, Result<u64, MetaFault>); 7] = [
        (1, b"a", 5, old),
        (0, b"a", 0, old),
        (1, b"b", 1, old),
        (2, b"a", 0, Err(MetaFault::Conflict { found: 1 })),
        (3, b"a", 2, Err(MetaFault::Conflict { found: 1 })),
        (2, b"b", 1, Err(MetaFault::Conflict { found: 0 })),
        (1, b"a", 1, old),
    ];
    for (term, key, expected, answer) in rows {
        assert_eq!(rt;
            meta.put_if(1, term, key, expected, b"y"),
            answer,
            "at {term} {expected}"
        );
        assert_eq!(rt;
            meta.delete_if(1, term, key, expected),
            answer,
            "at {term} {expected}"
        );
    }
    assert_eq!(rt; count_of(meta.lead(2, 1)), old);
    assert_eq!(rt; meta.journal().len(), 17);
    assert_eq!(rt; revision_of(&meta), 1);
    Ok(())
}

// The term is the fence, nothing is expected, and the key is there since the fifth accepted write.
#[test]
fn a_key_at_revision_5_conflicts(rt: HostRuntime) -> Result<(), Fail> {
    let mut meta = Meta::new(rt.alloc());
    assert!(rt; meta.lead(1, 2).is_ok());
    for revision in 0..5u64 {
        assert_eq!(rt; meta.put_if(1, 2, b"a", revision, b"x"), Ok(revision + 1));
    }
    assert_eq!(rt;
        meta.put_if(1, 2, b"a", 0, b"y"),
        Err(MetaFault::Conflict { found: 5 })
    );
    Ok(())
}

#[test]
fn a_deleted_key_is_not_handed_out(rt: HostRuntime) -> Result<(), Fail> {
    let mut meta = Meta::new(rt.alloc());
    assert_eq!(rt; meta.put_if(1, 0, b"b", 0, b"x"), Ok(1));
    assert_eq!(rt; meta.put_if(1, 0, b"a", 0, b"y"), Ok(2));
    assert_eq!(rt; meta.delete_if(1, 0, b"b", 1), Ok(3));
    let cells = meta.lead(2, 1)?;
    assert_eq!(rt; cells.len(), 1);
    assert_eq!(rt; cells.as_slice()[0].revision, 2);
    Ok(())
}

// What a write of the key `a` is answered.
fn put(
    alloc: Global,
    meta: &mut Meta,
    driver: u8,
    term: u64,
    expected: u64,
) -> Result<MetaVerdict, Fail> {
    let answer = ask_put(
        alloc,
        meta,
        driver,
        term,
        key_of(alloc)?,
        expected,
        key_of(alloc)?,
    )?;
    Ok(answer.verdict)
}

// What a deletion of the key `a` at revision 1 is answered.
fn delete(alloc: Global, meta: &mut Meta, driver: u8, term: u64) -> Result<MetaVerdict, Fail> {
    Ok(ask_delete(alloc, meta, driver, term, key_of(alloc)?, 1)?.verdict)
}

// What a lead is answered, and how many records it is handed.
fn lead(
    alloc: Global,
    meta: &mut Meta,
    driver: u8,
    term: u64,
) -> Result<(MetaVerdict, usize), Fail> {
    let answer = ask_lead(alloc, meta, driver, term)?;
    Ok((answer.verdict, answer.cells.len()))
}

fn expect_verdicts(rt: &impl Abort, alloc: Global, meta: &mut Meta) -> Result<(), Fail> {
    assert_eq!(rt;
        put(alloc, meta, 1, 1, 0)?,
        MetaVerdict::Accepted { revision: 1 }
    );
    assert_eq!(rt;
        lead(alloc, meta, 2, 3)?,
        (MetaVerdict::Accepted { revision: 0 }, 1)
    );
    assert_eq!(rt;
        delete(alloc, meta, 1, 1)?,
        MetaVerdict::OldTerm { fence: 3 }
    );
    assert_eq!(rt;
        put(alloc, meta, 2, 3, 7)?,
        MetaVerdict::Conflict { found: 1 }
    );
    assert_eq!(rt;
        delete(alloc, meta, 2, 3)?,
        MetaVerdict::Accepted { revision: 2 }
    );
    assert_eq!(rt; meta.journal().len(), 5);
    Ok(())
}

#[test]
fn a_door_is_asked_and_answers(rt: HostRuntime) -> Result<(), Fail> {
    expect_verdicts(&rt, rt.alloc(), &mut Meta::new(rt.alloc()))
}

// A write of a key at an expected revision, of which the driver hears.
fn hear_put(
    alloc: Global,
    meta: &mut Meta,
    known: &mut Known,
    key: &[u8],
    expected: u64,
) -> Result<(), Fail> {
    let key = Bytes::of(key.to_vec(alloc)?);
    let put = ask_put(alloc, meta, 1, 2, key, expected, key_of(alloc)?)?;
    known.hear(alloc, &put)?;
    Ok(())
}

// A lead, of which it hears.
fn hear_lead(alloc: Global, meta: &mut Meta, known: &mut Known) -> Result<(), Fail> {
    let lead = ask_lead(alloc, meta, 1, 2)?;
    known.hear(alloc, &lead)?;
    Ok(())
}

// A deletion of the key `a` at revision 2, of which it hears.
fn hear_delete(alloc: Global, meta: &mut Meta, known: &mut Known) -> Result<(), Fail> {
    let gone = ask_delete(alloc, meta, 1, 2, key_of(alloc)?, 2)?;
    known.hear(alloc, &gone)?;
    Ok(())
}

// The revisions that are known of the keys `a` and `b`.
fn revisions(known: &Known) -> (u64, u64) {
    (known.revision(b"a"), known.revision(b"b"))
}

// A lead hands one record out; then come a write of it, one of another key, a refused write and a deletion.
// Behind each stand the revisions that are known after the call.
fn expect_known(
    rt: &impl Abort,
    alloc: Global,
    meta: &mut Meta,
    known: &mut Known,
) -> Result<(), Fail> {
    assert_eq!(rt; meta.put_if(1, 0, b"a", 0, b"x"), Ok(1));
    hear_lead(alloc, meta, known)?;
    assert_eq!(rt; revisions(known), (1, 0));
    hear_put(alloc, meta, known, b"a", 1)?;
    assert_eq!(rt; revisions(known), (2, 0));
    hear_put(alloc, meta, known, b"b", 0)?;
    assert_eq!(rt; revisions(known), (2, 3));
    hear_put(alloc, meta, known, b"b", 0)?;
    assert_eq!(rt; revisions(known), (2, 3));
    hear_delete(alloc, meta, known)?;
    assert_eq!(rt; revisions(known), (0, 3));
    Ok(())
}

#[test]
fn a_driver_knows_what_it_heard(rt: HostRuntime) -> Result<(), Fail> {
    let alloc = rt.alloc();
    expect_known(&rt, alloc, &mut Meta::new(alloc), &mut Known::new(alloc))
}

fn key_of(alloc: Global) -> Result<Bytes, NoMemory> {
    Ok(Bytes::of(b"a".to_vec(alloc)?))
}

#[test]
fn keys_under_a_prefix_are_listed(rt: HostRuntime) -> Result<(), Fail> {
    let mut meta = Meta::new(rt.alloc());
    let keys: [&[u8]; 5] = [b"store/2", b"rule/a", b"store", b"store/1", b"stor"];
    for (place, key) in keys.iter().enumerate() {
        assert_eq!(rt; meta.put_if(1, 1, key, 0, b"x"), Ok(place as u64 + 1));
    }
    let rows: [(&[u8], usize, u64); 5] = [
        (b"", 5, 2),
        (b"store/", 2, 4),
        (b"store", 3, 3),
        (b"rule/", 1, 2),
        (b"store/3", 0, 0),
    ];
    for (prefix, count, first) in rows {
        let cells = meta.list(prefix)?;
        assert_eq!(rt; cells.len(), count);
        assert_eq!(rt;
            cells.as_slice().first().map_or(0, |cell| cell.revision),
            first
        );
    }
    Ok(())
}

fn text(alloc: Global, word: &str) -> Result<Text, NoMemory> {
    Ok(Text::of(word.to_string(alloc)?))
}

fn labels(alloc: Global, rows: &[(&str, &str)]) -> Result<Labels, NoMemory> {
    let mut labels = Labels::new(alloc);
    for (key, value) in rows {
        let key = text(alloc, key)?;
        let value = text(alloc, value)?;
        labels.push(Label { key, value })?;
    }
    Ok(labels)
}

// The stored text of a store, and the lengths at which what was cut off is a store all the same.
struct Stored {
    state: StoreState,
    address: &'static str,
    labels: &'static [(&'static str, &'static str)],
    bytes: &'static [u8],
    lengths: &'static [usize],
}

const STORED: [Stored; 3] = [
    Stored {
        state: StoreState::Up,
        address: "a1",
        labels: &[("zone", "z1"), ("k", "v")],
        bytes: b"up a1 zone=z1,k=v",
        lengths: &[12, 13, 17],
    },
    Stored {
        state: StoreState::Offline,
        address: "10.0.0.1:20160",
        labels: &[],
        bytes: b"offline 10.0.0.1:20160 -",
        lengths: &[24],
    },
    Stored {
        state: StoreState::Tombstone,
        address: "h",
        labels: &[("a", "b")],
        bytes: b"tombstone h a=b",
        lengths: &[15],
    },
];

#[test]
fn a_stored_store_is_read_whole_or_not_at_all(rt: HostRuntime) -> Result<(), Fail> {
    let alloc = rt.alloc();
    let key: &[u8] = b"store/00000000000000000012";
    assert_eq!(rt; store_key(alloc, 12)?.as_slice(), key);
    for row in &STORED {
        let store = StoreRec {
            id: 12,
            address: text(alloc, row.address)?,
            labels: labels(alloc, row.labels)?,
            state: row.state,
        };
        assert_eq!(rt; store_text(alloc, &store)?.as_slice(), row.bytes);
        for length in 0..row.bytes.len() {
            let read = read_store_text(alloc, key, &row.bytes[..length])?;
            assert_eq!(rt;
                read.is_some(),
                row.lengths.contains(&length),
                "at {length}"
            );
            assert!(rt; read != Some(store_of(alloc, row)?), "at {length}");
        }
        assert!(rt; read_store_text(alloc, key, row.bytes)? == Some(store));
        for length in 0..key.len() {
            assert!(rt;
                read_store_text(alloc, &key[..length], row.bytes)?.is_none(),
                "at {length}"
            );
        }
    }
    Ok(())
}

fn store_of(alloc: Global, row: &Stored) -> Result<StoreRec, NoMemory> {
    Ok(StoreRec {
        id: 12,
        address: text(alloc, row.address)?,
        labels: labels(alloc, row.labels)?,
        state: row.state,
    })
}

// Records that look like a store's, and are none.
const OTHERS: [(&[u8], &[u8]); 12] = [
    (b"store/00000000000000000000", b"up a1 -"),
    (b"store/09223372036854775808", b"up a1 -"),
    (b"store/18446744073709551617", b"up a1 -"),
    (b"store/1", b"up a1 -"),
    (b"store/000000000000000000001", b"up a1 -"),
    (b"store/+0000000000000000001", b"up a1 -"),
    (b"stores00000000000000000001", b"up a1 -"),
    (b"store/00000000000000000001", b"Up a1 -"),
    (b"store/00000000000000000001", b"up a1  -"),
    (b"store/00000000000000000001", b"up a1 - "),
    (b"store/00000000000000000001", b"up a,1 -"),
    (b"store/00000000000000000001", b"up a1 k=v,k=w"),
];

#[test]
fn other_records_are_no_stores(rt: HostRuntime) -> Result<(), Fail> {
    for (key, bytes) in OTHERS {
        assert!(rt; read_store_text(rt.alloc(), key, bytes)?.is_none());
    }
    let last: &[u8] = b"store/09223372036854775807";
    assert_eq!(rt;
        id_in(read_store_text(rt.alloc(), last, b"up a1 -")?),
        9_223_372_036_854_775_807
    );
    Ok(())
}

fn id_in(store: Option<StoreRec>) -> u64 {
    store.map_or(0, |store| store.id)
}

#[test]
fn an_end_is_read_as_it_is_written(rt: HostRuntime) -> Result<(), Fail> {
    let written: Bytes = id_text(rt.alloc(), 1_001_000)?;
    assert_eq!(rt; written.as_slice(), b"1001000".as_slice());
    let rows = [
        None,
        Some(1),
        Some(10),
        Some(100),
        Some(1001),
        Some(10010),
        Some(100_100),
    ];
    for (length, end) in rows.iter().enumerate() {
        assert_eq!(rt; read_id_text(&written.as_slice()[..length]), *end);
    }
    assert_eq!(rt; read_id_text(b"01"), None);
    Ok(())
}
