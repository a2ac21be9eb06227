use crate::{
    cell_in, greater, is_passing, is_past_clock, is_saving, lengthened, next_of_lead, next_of_tick,
    packed,
};
use pd_types::{CellWord, Seen, Window};
use std::test::Fail;

#[test]
fn a_word_holds_a_time_and_a_term(rt: HostRuntime) -> Result<(), Fail> {
    assert_eq!(rt; packed(4000, 1), 1_048_576_001);
    let cell = CellWord {
        saved: 4000,
        term: 1,
    };
    assert_eq!(rt; cell_in(1_048_576_001), cell);
    Ok(())
}

#[test]
fn the_newer_term_is_the_greater(rt: HostRuntime) -> Result<(), Fail> {
    let old = Seen { term: 1, last: 9 };
    let new = Seen { term: 2, last: 3 };
    assert_eq!(rt; greater(old, new), new);
    assert_eq!(rt; greater(new, old), new);
    Ok(())
}

// The clock, the saved time, and where the lead begins.
const LEADS: [(u64, u64, u64); 3] = [(1000, 0, 1000), (0, 0, 1), (500, 4000, 4001)];

// The cursor, the held end, the clock, and where the tick goes.
const TICKS: [(u64, u64, u64, Option<u64>); 6] = [
    (262_144_003, 4000, 900, None),
    (262_144_003, 4000, 1001, None),
    (262_144_003, 4000, 1002, Some(1002)),
    (262_275_072, 4000, 1000, None),
    (262_275_073, 4000, 1000, Some(1001)),
    (1_048_576_000, 4000, 4000, Some(4001)),
];

#[test]
fn leads_and_ticks_go_by_the_clock(rt: HostRuntime) -> Result<(), Fail> {
    for (now, saved, next) in LEADS {
        assert_eq!(rt; next_of_lead(saved, now), next, "{now} over {saved}");
    }
    for (cursor, hi, now, next) in TICKS {
        assert_eq!(rt; next_of_tick(cursor, hi, now), next, "{cursor} at {now}");
    }
    Ok(())
}

#[test]
fn an_end_is_saved_before_it_is_reached(rt: HostRuntime) -> Result<(), Fail> {
    assert!(rt; is_saving(3999, 4000));
    assert!(rt; !is_saving(3998, 4000));
    assert!(rt; is_past_clock(35_184_372_085_832));
    assert!(rt; !is_past_clock(35_184_372_085_831));
    let claimed = Window {
        term: 1,
        driver: 1,
        lo: 0,
        hi: 0,
    };
    let first = lengthened(4000, claimed);
    assert_eq!(rt; (first.lo, first.hi), (1000, 4000));
    let later = lengthened(6999, first);
    assert_eq!(rt; (later.lo, later.hi), (1000, 6999));
    Ok(())
}

#[test]
fn a_draw_passes_at_the_end_and_at_the_logical_part(rt: HostRuntime) -> Result<(), Fail> {
    assert!(rt; !is_passing(262_144_000, 4000, 262_143));
    assert!(rt; is_passing(262_144_001, 4000, 262_143));
    assert!(rt; is_passing(1_048_575_999, 4000, 1));
    Ok(())
}
