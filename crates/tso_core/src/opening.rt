// A new oracle in memory.
ghost use Rattle.std.specs.Prelude.{◌≡◌, ◌+◌, ◌≤◌, [], ◌++◌, map, replicate, IfOk, OnOk};
ghost use Rattle.pd_types.specs.declared.oracle.TheConstants.{MAX_CLIENTS};
ghost use Rattle.tso_model.specs.Moves.{numbers_from, first_words, driver_view, client_view};
ghost use Rattle.tso_model.specs.Sound.{IsSetup};
ghost use Rattle.tso_core.specs.Machine.{waits_in, whole_of};
ghost use Rattle.tso_core.specs.Seated.{view_of};
ghost use Rattle.tso_core.specs.Opened.{first_views, opened};

use crate::Turn;
use crate::machine::Machine;
use crate::notes::Post;
use crate::run::Run;
use crate::seat::Seat;
use pd_types::{CellWord, LOGICAL, NoMemory, Window};
use std::alloc::Global;
use tso_model::{Setup, packed};

// What each client may arm.
const CLIENT_QUOTA: u64 = LOGICAL;

impl Machine {
    /// All actors at rest.
    pub fn new(alloc: Global, setup: Setup) -> Result<Machine, NoMemory>
        requires setup { IsSetup setup }
        ensures value { IfOk result (λ machine. whole_of machine ≡ opened setup) }
    {
        let words = opening_words(alloc, setup)?;
        let seats = opening_seats(alloc, setup)?;
        // The first turn is nobody's.
        let turns = vec![in alloc; Turn::rest(); setup.drivers as usize + 1]?;
        let posts = opening_posts(alloc, setup.clients)?;
        // Nothing was drawn in the window that the opening cell names.
        let CellWord { saved, term } = setup.cell;
        let first = Window {
            term,
            driver: 0,
            lo: saved,
            hi: saved,
        };
        let run = Run::new(alloc, first)?;
        Ok(Machine {
            setup,
            words,
            seats,
            turns,
            posts,
            run,
        })
    }
}

#[tactic(auto, using(crate::proofs::Started::first_set))]
fn opening_words(alloc: Global, setup: Setup) -> Result<Vec<u64>, NoMemory>
    requires setup { IsSetup setup }
    ensures words { IfOk result (λ words. words.items ≡ first_words setup) }
{
    let mut words = vec![in alloc; 0u64; 2 * setup.drivers as usize + 1]?;
    words[0] = packed(setup.cell.saved, setup.cell.term);
    Ok(words)
}

fn opening_seats(alloc: Global, setup: Setup) -> Result<Vec<Seat>, NoMemory>
    requires setup { IsSetup setup }
    ensures views { IfOk result (λ seats. map view_of seats.items ≡ first_views setup) }
{
    let mut seats = Vec::new(alloc);
    seats.push(Seat::new(alloc, setup.cell, 0, 0, 0))?;
    seat_drivers(alloc, setup, &mut seats)?;
    seat_clients(alloc, setup, &mut seats)?;
    Ok(seats)
}

fn seat_drivers(alloc: Global, setup: Setup, seats: &mut Vec<Seat>) -> Result<(), NoMemory>
    requires setup { IsSetup setup }
    ensures ok { OnOk result (map view_of seats.new.items ≡ map view_of seats.old.items ++ map (driver_view setup) (numbers_from 1 setup.drivers)) }
{
    for index in 0..setup.drivers {
        seats.push(Seat::new(alloc, setup.cell, index + 1, 0, 0))?;
    }
    Ok(())
}

fn seat_clients(alloc: Global, setup: Setup, seats: &mut Vec<Seat>) -> Result<(), NoMemory>
    requires setup { IsSetup setup }
    ensures ok { OnOk result (map view_of seats.new.items ≡ map view_of seats.old.items ++ map (client_view setup) (numbers_from 1 setup.clients)) }
{
    for index in 0..setup.clients {
        seats.push(Seat::new(alloc, setup.cell, 0, index + 1, CLIENT_QUOTA))?;
    }
    Ok(())
}

// The first post is nobody's.
fn opening_posts(alloc: Global, clients: u8) -> Result<Vec<Post>, NoMemory>
    requires few { clients ≤ MAX_CLIENTS }
    ensures posts { IfOk result (λ posts. map waits_in posts.items ≡ replicate (clients + 1) []) }
{
    let mut posts = Vec::new(alloc);
    for _client in 0..clients + 1 {
        posts.push(Post::new(alloc))?;
    }
    Ok(posts)
}
