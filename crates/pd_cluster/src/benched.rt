// The drivers' benches of schedulers, over which their clusters serve.
ghost use Rattle.std.specs.Prelude.{◌≡◌, ◌<◌, ◌+◌, [], IfNone, IfOk, IfSome, OnOk, length, map};
ghost use Rattle.pd_cluster.specs.Clusters.{AreAlive, AreNumbered, HoweverTheyEnd, IsServedBy, kept_of};
ghost use Rattle.pd_cluster.specs.Replay.{SaysEnough, served, with_served};
ghost use Rattle.pd_cluster.specs.Talks.{GoOn};

use meta_store::Meta;
use pd_script::asker;
use pd_state::{Cluster, Reply};
use pd_types::{NoMemory, Request};
use sched_api::{Bench, Seated};
use std::alloc::Global;

// The place of the driver's bench, of so many; none for a driver that has none.
fn place_of(count: usize, driver: u8) -> Option<usize>
    ensures place { IfSome result (λ place. place + 1 ≡ driver) }
    ensures within { IfSome result (λ place. place < count) }
    ensures none { IfNone result (0 < driver → count < driver) }
{
    let driver = driver as usize;
    if 0 < driver && driver <= count {
        Some(driver - 1)
    } else {
        None
    }
}

// Serves a request by the driver's cluster, over this bench.
fn serve_over<B: Seated>(
    clusters: &mut Vec<Cluster>,
    bench: &mut B,
    meta: &mut Meta,
    driver: u8,
    number: u32,
    request: Request,
) -> Result<Reply, NoMemory>
    requires within { driver < length clusters.old.items }
    requires numbered { AreNumbered clusters.old.items }
    ensures ok { IfOk result (IsServedBy clusters.old.items clusters.new.items meta.old meta.new (B.seats bench.old) (B.seats bench.new) driver number request) }
    ensures len { length clusters.new.items ≡ length clusters.old.items }
{
    let actor = asker(driver, &request);
    clusters[driver as usize].serve(actor, number, request, meta, bench)
}

/// Serves a request by the driver's cluster, over the driver's bench: the first driver's, the second
/// one's, and so on; where it has none, over one without schedulers.
pub fn serve_with<B: Seated>(
    alloc: Global,
    clusters: &mut Vec<Cluster>,
    benches: &mut Vec<B>,
    meta: &mut Meta,
    driver: u8,
    number: u32,
    request: Request,
) -> Result<Reply, NoMemory>
    requires within { driver < length clusters.old.items }
    requires alive { AreAlive clusters.old.items }
    requires numbered { AreNumbered clusters.old.items }
    ensures reply { IfOk result (λ reply. HoweverTheyEnd (map B.seats benches.new.items) (λ ends.
        reply
        ≡ (served (kept_of clusters.old.items meta.old (map B.seats benches.old.items) ends) driver number request).reply)) }
    ensures after { OnOk result (HoweverTheyEnd (map B.seats benches.new.items) (λ ends.
        kept_of clusters.new.items meta.new (map B.seats benches.new.items) ends
        ≡ with_served (kept_of clusters.old.items meta.old (map B.seats benches.old.items) ends) driver number request)) }
    ensures turns { OnOk result (HoweverTheyEnd (map B.seats benches.new.items) (λ ends.
        SaysEnough (kept_of clusters.old.items meta.old (map B.seats benches.old.items) ends) driver request)) }
    ensures benches { OnOk result (GoOn (map B.seats benches.old.items) (map B.seats benches.new.items)) }
    ensures alive { OnOk result (AreAlive clusters.new.items) }
    ensures numbered { OnOk result (AreNumbered clusters.new.items) }
    ensures len { length clusters.new.items ≡ length clusters.old.items }
{
    match place_of(benches.len(), driver) {
        Some(place) => {
            let bench = &mut benches[place];
            serve_over(clusters, bench, meta, driver, number, request)
        }
        None => {
            let mut bench = Bench::empty(alloc);
            serve_over(clusters, &mut bench, meta, driver, number, request)
        }
    }
}
