use crate::{MOST_STORES, StateName, StoreFault, Stores};
use pd_types::{Labels, StoreRec, StoreState, Text};
use std::alloc::Global;
use std::test::Fail;

fn record(alloc: Global, id: u64) -> Result<StoreRec, Fail> {
    let address = Text::of(format!(in alloc; "store-{id}:20160")?);
    let labels = Labels::new(alloc);
    Ok(StoreRec {
        id,
        address,
        labels,
        state: StoreState::Up,
    })
}

// PD documentation, "Store states": a store is Disconnected after 20 seconds without a heartbeat
// and Down after 30 minutes. Its term began at 1,000,000 and its heartbeat came at 1,005,000.
#[test]
fn names_an_up_store_by_its_silence(rt: HostRuntime) -> Result<(), Fail> {
    let alloc = rt.alloc();
    let mut stores = Stores::new(alloc);
    stores.load(record(alloc, 4)?, 1_000_000)?;
    assert_eq!(rt;
        stores.state_name(4, 1_000_000),
        Some(StateName::Disconnected)
    );
    stores.beat(4, 1_005_000)?;
    let rows = [
        (1_005_000, true, true, StateName::Up),
        (1_025_000, true, true, StateName::Up),
        (1_025_001, false, true, StateName::Disconnected),
        (2_805_000, false, true, StateName::Disconnected),
        (2_805_001, false, false, StateName::Down),
    ];
    for (now, live, usable, name) in rows {
        assert_eq!(rt; stores.is_live(4, now), live, "live at {now}");
        assert_eq!(rt; stores.is_usable(4, now), usable, "usable at {now}");
        assert_eq!(rt; stores.state_name(4, now), Some(name), "name at {now}");
    }
    assert_eq!(rt; stores.is_live(5, 1_005_000), false);
    assert_eq!(rt; stores.is_usable(5, 1_005_000), false);
    assert_eq!(rt; stores.state_name(5, 1_005_000), None);
    Ok(())
}

#[test]
fn a_store_goes_offline_and_is_buried(rt: HostRuntime) -> Result<(), Fail> {
    let alloc = rt.alloc();
    let mut stores = Stores::new(alloc);
    stores.put(record(alloc, 7)?, 50)?;
    assert_eq!(rt; stores.bury(7), Err(StoreFault::NotOffline));
    stores.delete(7)?;
    stores.delete(7)?;
    stores.put(record(alloc, 7)?, 60)?;
    assert_eq!(rt; stores.state_name(7, 60), Some(StateName::Offline));
    assert_eq!(rt; stores.is_live(7, 60), true);
    assert_eq!(rt; stores.is_usable(7, 60), false);
    stores.bury(7)?;
    assert_eq!(rt; stores.state_name(7, 60), Some(StateName::Tombstone));
    assert_eq!(rt; stores.is_live(7, 60), false);
    assert_eq!(rt;
        stores.put(record(alloc, 7)?, 70),
        Err(StoreFault::Tombstone)
    );
    assert_eq!(rt; stores.beat(7, 70), Err(StoreFault::Tombstone));
    assert_eq!(rt; stores.delete(7), Err(StoreFault::Tombstone));
    assert_eq!(rt; stores.bury(7), Err(StoreFault::NotOffline));
    assert_eq!(rt; stores.state_name(7, 70), Some(StateName::Tombstone));
    assert_eq!(rt; stores.beat(8, 70), Err(StoreFault::UnknownStore));
    assert_eq!(rt; stores.delete(8), Err(StoreFault::UnknownStore));
    assert_eq!(rt; stores.bury(8), Err(StoreFault::UnknownStore));
    Ok(())
}

#[test]
fn keeps_256_stores_by_rising_id(rt: HostRuntime) -> Result<(), Fail> {
    let alloc = rt.alloc();
    let mut stores = Stores::new(alloc);
    for id in 1..257 {
        stores.put(record(alloc, 514 - 2 * id)?, 9)?;
    }
    assert_eq!(rt; stores.put(record(alloc, 3)?, 9), Err(StoreFault::Limit));
    assert_eq!(rt; stores.load(record(alloc, 3)?, 9), Err(StoreFault::Limit));
    assert_eq!(rt; stores.put(record(alloc, 4)?, 10), Ok(()));
    for place in 0..MOST_STORES {
        let id = stores.at(place).map(|rec| rec.id);
        assert_eq!(rt; id, Some(2 * place as u64 + 2));
    }
    assert_eq!(rt; stores.at(MOST_STORES).is_none(), true);
    assert_eq!(rt; stores.get(512).map(|rec| rec.id), Some(512));
    assert_eq!(rt; stores.get(511).is_none(), true);
    Ok(())
}

// pd-ctl, `store`: `state_name`.
#[test]
fn prints_state_names(rt: HostRuntime) -> Result<(), Fail> {
    let rows = [
        (StateName::Up, "Up"),
        (StateName::Disconnected, "Disconnected"),
        (StateName::Down, "Down"),
        (StateName::Offline, "Offline"),
        (StateName::Tombstone, "Tombstone"),
    ];
    for (name, text) in rows {
        assert_eq!(rt; format!(in rt.alloc(); "{name}")?.as_str(), text);
    }
    Ok(())
}
