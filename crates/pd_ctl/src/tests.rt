use crate::{Command, CtlFault, read_command};
use pd_types::{Bytes, Text};
use std::alloc::Global;
use std::test::Fail;

fn bytes(alloc: Global, items: &[u8]) -> Result<Bytes, Fail> {
    let mut bytes = Bytes::new(alloc);
    for item in items {
        bytes.push(*item)?;
    }
    Ok(bytes)
}

fn text(alloc: Global, words: &str) -> Result<Text, Fail> {
    Ok(Text::of(String::from_str(alloc, words)?))
}

// Each command once, with the greatest numbers too.
const COMMANDS: &str = "\
store > Stores
  store   > Stores
store 1 > Store { id: 1 }
store delete 2 > StoreDelete { id: 2 }
store limit 1 1000000 add-peer > StoreLimit { id: 1, rate: 1000000, kind: AddPeer }
store limit 1 0 remove-peer > StoreLimit { id: 1, rate: 0, kind: RemovePeer }
region 0 > Region { id: 0 }
region  18446744073709551615 > Region { id: 18446744073709551615 }
operator show > OperatorShow
operator add add-peer 7 4 > OperatorAdd { region: 7, wish: AddPeer { store: 4 } }
operator add remove-peer 7 4 > OperatorAdd { region: 7, wish: RemovePeer { store: 4 } }
operator add transfer-leader 7 4 > OperatorAdd { region: 7, wish: TransferLeader { store: 4 } }
operator add transfer-peer 7 1 4 > OperatorAdd { region: 7, wish: MovePeer { from: 1, to: 4 } }
operator remove 7 > OperatorRemove { region: 7 }
operator check 7 > OperatorCheck { region: 7 }
scheduler show > SchedulerShow
member leader show > LeaderShow
member leader resign > LeaderResign
tso 395181938313123110 > Tso { ts: 395181938313123110 }
";

#[test]
fn each_command_is_read(rt: HostRuntime) -> Result<(), Fail> {
    let alloc = rt.alloc();
    for row in COMMANDS.lines() {
        let (words, wanted) = row.split_once(" > ").unwrap_or((row, ""));
        let command = read_command(alloc, words.as_bytes())?;
        let read = format!(in alloc; "{command:?}")?;
        assert_eq!(rt; read.as_str(), wanted, "{words}");
    }
    Ok(())
}

#[test]
fn keys_and_names_are_read(rt: HostRuntime) -> Result<(), Fail> {
    let alloc = rt.alloc();
    for (words, key) in [
        ("region key 4A00", [0x4a, 0].as_slice()),
        ("region key -", &[]),
    ] {
        let command = read_command(alloc, words.as_bytes())?;
        let key = bytes(alloc, key)?;
        assert!(rt; command == Command::RegionKey { key }, "{words}");
    }
    let command = read_command(alloc, b"scheduler remove balance-region-scheduler")?;
    let name = text(alloc, "balance-region-scheduler")?;
    assert!(rt; command == Command::SchedulerRemove { name });
    Ok(())
}

// Each fault of each command; the first that applies, where two do.
const FAULTS: &str = "unknown
unknown x
unknown stores
unknown operator
unknown operator add
unknown operator add foo 7 4
unknown operator foo
unknown member
unknown member leader
unknown member leader foo
unknown member follower show
unknown scheduler
unknown scheduler foo x
missing-word region
missing-word region key
missing-word tso
missing-word store delete
missing-word store limit
missing-word store limit 1
missing-word store limit x y
missing-word operator add add-peer
missing-word operator add add-peer x
missing-word operator add remove-peer 7
missing-word operator add transfer-leader 7
missing-word operator add transfer-peer 7 x
missing-word operator remove
missing-word operator check
missing-word scheduler remove
extra-word store 1 2
extra-word store x y
extra-word store delete 1 2
extra-word store limit 1 2000000 foo x
extra-word region 1 2
extra-word region key - -
extra-word operator show x
extra-word operator add add-peer 7 4 1
extra-word operator add remove-peer 7 4 x
extra-word operator add transfer-leader 7 4 1
extra-word operator add transfer-peer 7 1 4 x
extra-word operator remove x 1
extra-word operator check 7 7
extra-word scheduler show x
extra-word scheduler remove a b
extra-word member leader show 1
extra-word member leader resign 1
extra-word tso 1 x
bad-number store x
bad-number store 01
bad-number store -1
bad-number store delete 18446744073709551616
bad-number store limit x 1 add-peer
bad-number store limit 1 1000001 add-peer
bad-number store limit 1 x add-peer
bad-number store limit 1 1 add-peers
bad-number region x
bad-number region key 4
bad-number region key 4g
bad-number region key --
bad-number operator add add-peer x 4
bad-number operator add add-peer 7 x
bad-number operator add remove-peer 7 x
bad-number operator add transfer-leader x 4
bad-number operator add transfer-peer 7 x 4
bad-number operator add transfer-peer 7 1 x
bad-number operator remove x
bad-number operator check +7
bad-number tso x
";

#[test]
fn each_fault_is_told(rt: HostRuntime) -> Result<(), Fail> {
    let alloc = rt.alloc();
    for row in FAULTS.lines() {
        let (fault, words) = row.split_once(' ').unwrap_or((row, ""));
        match read_command(alloc, words.as_bytes()) {
            Ok(_) => assert!(rt; false, "{words} is read"),
            Err(told) => assert_eq!(rt; told.to_string(alloc)?.as_str(), fault, "{words}"),
        }
    }
    let name = read_command(alloc, b"scheduler remove \xff");
    assert!(rt; name == Err(CtlFault::BadNumber));
    Ok(())
}
