// The ids of the regions whose operator hasn't ended, rising.
ghost use Rattle.std.specs.Prelude.{◌≡◌, ◌≤◌, OnErr, OnOk, insert, length};
ghost use Rattle.op_control.specs.Table.{joined, without};

use pd_types::{Ids, NoMemory, Seq};
use std::alloc::Global;
use std::mem;

/// Takes a region off the list.
pub fn unlist(busy: &mut Ids, alloc: Global, region: u64)
    ensures { busy.new ≡ without region busy.old }
{
    let mut ids = mem::replace(busy, Seq::new(alloc)).into_vec();
    ids.retain(|one| *one != region);
    *busy = Seq::of(ids);
}

// How many of the ids stand before the first that is greater.
fn place_of(busy: &[u64], region: u64) -> usize
    ensures bound { result ≤ length busy.now }
    ensures value { insert busy.now result region ≡ joined region busy.now }
{
    let mut place = 0;
    for one in busy {
        if region < *one {
            return place;
        }
        place += 1;
    }
    place
}

/// Puts a region on the list. Want of memory leaves it.
pub fn join(busy: &mut Ids, alloc: Global, region: u64) -> Result<(), NoMemory>
    ensures ok { OnOk result (busy.new ≡ joined region busy.old) }
    ensures err { OnErr result (busy.new ≡ busy.old) }
{
    let place = place_of(busy.as_slice(), region);
    let mut ids = mem::replace(busy, Seq::new(alloc)).into_vec();
    let inserted = ids.insert(place, region).is_ok();
    *busy = Seq::of(ids);
    if inserted { Ok(()) } else { Err(NoMemory) }
}
