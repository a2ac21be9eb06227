// Who acts in a line.
ghost use Rattle.std.specs.Prelude.{◌≡◌, ◌≤◌, ℕ, option_to_list};
ghost use Rattle.pd_types.specs.declared.oracle.TheConstants.{MAX_CLIENTS, MAX_DRIVERS};
ghost use Rattle.pd_script.specs.Scripts.{acting, actor_by, asker, asks_report, greatest_in, if_client, if_driver, store_by, store_in};

use crate::numbers::Numbers;
use crate::place::Place;
use crate::verb::Places;
use pd_types::{Actor, Request};

/// Who asks a request of this driver's cluster: the store that says it, or the driver itself.
pub fn asker(driver: u8, request: &Request) -> Actor
    ensures value { result ≡ asker driver request.now }
{
    match request {
        Request::Hello { store, .. } | Request::Alive { store, .. } | Request::Beat { store, .. } =>
            { Actor::Store(*store) }
        _ => Actor::Driver(driver),
    }
}

/// The store that says a request, where one does.
pub fn speaker(request: &Request) -> Option<u64>
    ensures value { (driver : ℕ) → option_to_list result ≡ store_in (asker driver request.now) }
{
    match request {
        Request::Hello { store, .. } | Request::Alive { store, .. } | Request::Beat { store, .. } =>
            { Some(*store) }
        _ => None,
    }
}

/// Whether a request asks for a report: `ctl`, and `patrol`, which tells of all regions.
pub fn asks_report(request: &Request) -> bool
    ensures value { result ≡ asks_report request.now }
{
    matches!(request, Request::Patrol { .. } | Request::Ctl { .. })
}

// Who acts in a place.
fn acting(place: Place, n: u64) -> Option<Actor>
    requires driver { if_driver place n ≤ MAX_DRIVERS }
    requires client { if_client place n ≤ MAX_CLIENTS }
    ensures value { result ≡ acting place n }
{
    match place {
        Place::Driver => Some(Actor::Driver(n as u8)),
        Place::Client => Some(Actor::Client(n as u8)),
        Place::Id => Some(Actor::Store(n)),
        _ => None,
    }
}

/// Who acts in a line that is no request: the driver, the client or the store that it names first, none
/// in a `cell` line.
pub fn step_actor(places: Places, n: Numbers) -> Option<Actor>
    requires drivers { greatest_in if_driver places n ≤ MAX_DRIVERS }
    requires clients { greatest_in if_client places n ≤ MAX_CLIENTS }
    ensures value { result ≡ actor_by places n }
{
    match places {
        Places::One(p) => acting(p, n.first),
        Places::Two(p, _) => acting(p, n.first),
        Places::Three(p, _, _) => acting(p, n.first),
    }
}

// The store that acts in a place, where one does.
fn if_store(place: Place, n: u64) -> Option<u64>
    ensures value { option_to_list result ≡ store_by (acting place n) }
{
    match place {
        Place::Id => Some(n),
        _ => None,
    }
}

/// The store that a line names first, where it does.
pub fn store_in(places: Places, n: Numbers) -> Option<u64>
    ensures value { option_to_list result ≡ store_by (actor_by places n) }
{
    match places {
        Places::One(p) => if_store(p, n.first),
        Places::Two(p, _) => if_store(p, n.first),
        Places::Three(p, _, _) => if_store(p, n.first),
    }
}
