use crate::{IdFault, IdWindow};
use meta_store::{Meta, MetaCall, id_text};
use std::test::Fail;

// Two windows of one lead, and one of a later lead: the first ids of each, by hand. The second
// window of the first term was made of records that the first one has since written over.
#[test]
fn windows_take_turns_by_what_was_saved(rt: HostRuntime) -> Result<(), Fail> {
    let alloc = rt.alloc();
    let mut meta = Meta::new(alloc);
    let cells = meta.lead(1, 1)?;
    let mut window = IdWindow::of(&cells);
    let mut other = IdWindow::of(&cells);
    assert_eq!(rt; window.next(alloc, &mut meta, 1, 1), Ok(1_000_001));
    assert_eq!(rt; window.next(alloc, &mut meta, 1, 1), Ok(1_000_002));
    assert_eq!(rt; meta.journal().len(), 2);
    assert_eq!(rt;
        other.next(alloc, &mut meta, 1, 1),
        Err(IdFault::Conflict { found: 1 })
    );
    assert_eq!(rt;
        other.next(alloc, &mut meta, 1, 1),
        Err(IdFault::Conflict { found: 1 })
    );
    let later = meta.lead(2, 3)?;
    let mut third = IdWindow::of(&later);
    assert_eq!(rt; third.next(alloc, &mut meta, 2, 3), Ok(1_001_001));
    assert_eq!(rt;
        other.next(alloc, &mut meta, 1, 1),
        Err(IdFault::OldTerm { fence: 3 })
    );
    assert_eq!(rt; window.next(alloc, &mut meta, 1, 1), Ok(1_000_003));
    Ok(())
}

#[test]
fn a_thousand_ids_ask_once(rt: HostRuntime) -> Result<(), Fail> {
    let alloc = rt.alloc();
    let mut meta = Meta::new(alloc);
    let mut window = IdWindow::of(&meta.lead(1, 1)?);
    for id in 1_000_001..=1_001_000u64 {
        assert_eq!(rt; window.next(alloc, &mut meta, 1, 1), Ok(id));
    }
    assert_eq!(rt; meta.journal().len(), 2);
    assert_eq!(rt; window.next(alloc, &mut meta, 1, 1), Ok(1_001_001));
    assert_eq!(rt; meta.journal().len(), 3);
    Ok(())
}

// The end of a stored record, and the next id. The last window that is saved ends at 2^63 - 1.
#[test]
fn the_last_window_ends_below_2_63(rt: HostRuntime) -> Result<(), Fail> {
    let alloc = rt.alloc();
    let rows = [
        (9_223_372_036_854_774_807, Ok(9_223_372_036_854_774_808)),
        (9_223_372_036_854_774_808, Err(IdFault::Spent)),
        (u64::MAX, Err(IdFault::Spent)),
    ];
    for (end, next) in rows {
        let mut meta = Meta::new(alloc);
        let text = id_text(alloc, end)?;
        assert_eq!(rt; meta.put_if(1, 0, b"id", 0, text.as_slice()), Ok(1));
        let mut window = IdWindow::of(&meta.lead(1, 1)?);
        assert_eq!(rt; window.next(alloc, &mut meta, 1, 1), next, "at {end}");
        assert_eq!(rt; meta.journal().len(), if next.is_ok() { 3 } else { 2 });
    }
    Ok(())
}

#[test]
fn an_end_that_does_not_read_is_the_first(rt: HostRuntime) -> Result<(), Fail> {
    let alloc = rt.alloc();
    let mut meta = Meta::new(alloc);
    assert_eq!(rt; meta.put_if(1, 0, b"id", 0, b"01"), Ok(1));
    assert_eq!(rt; meta.put_if(1, 0, b"ie", 0, b"7"), Ok(2));
    let mut window = IdWindow::of(&meta.lead(1, 1)?);
    assert_eq!(rt; window.next(alloc, &mut meta, 1, 1), Ok(1_000_001));
    Ok(())
}

// A caller that makes the write itself: the first window's write, spelled out, and its first ids.
#[test]
fn a_caller_makes_the_write_itself(rt: HostRuntime) -> Result<(), Fail> {
    let alloc = rt.alloc();
    let mut meta = Meta::new(alloc);
    let mut window = IdWindow::of(&meta.lead(1, 1)?);
    assert!(rt; window.is_used_up());
    assert!(rt; !window.is_spent());
    let call = window.call(alloc, 1)?;
    let MetaCall::Put {
        term,
        key,
        expected,
        bytes,
    } = call
    else {
        return Err(Fail::new("no write"));
    };
    assert_eq!(rt; (term, expected), (1, 0));
    assert_eq!(rt; key.as_slice(), b"id".as_slice());
    assert_eq!(rt; bytes.as_slice(), b"1001000".as_slice());
    let revision = meta.put_if(1, term, key.as_slice(), expected, bytes.as_slice())?;
    assert_eq!(rt; window.save(revision), 1_000_001);
    assert!(rt; !window.is_used_up());
    assert_eq!(rt; window.take(), 1_000_002);
    Ok(())
}
