// A new board with all its seats and passes.
ghost use Rattle.std.specs.Prelude.{◌≡◌, ℕ, ◌+◌, ◌*◌, ◌<◌, [], All, map, IfOk, OnOk};
ghost use Rattle.tso_model.specs.Moves.{first_view, numbers_from, client_view, driver_view};
ghost use Rattle.tso_model.specs.Sound.{IsSetup};
ghost use Rattle.tso_board.specs.Opened.{IsOpened, left};
ghost use Rattle.tso_board.specs.Passes.{pass_view};
ghost use Rattle.tso_board.specs.Seats.{seat_view};

use crate::board::{Words, first_words, split_client, split_driver};
use crate::{Board, DriverSeat, Note, Pass};
use atomic_table::Seat;
use pd_types::{CellWord, NoMemory};
use std::alloc::Global;
use tso_model::{Setup, View};

/// All that belongs to one board: a seat for each driver, a pass for each client, and the notes that
/// nobody met.
#[derive(Drop)]
pub struct Crew {
    pub board: Board,
    pub seats: Vec<DriverSeat>,
    pub passes: Vec<Pass>,
    pub notes: Vec<Note>,
}

/// Opens a board for 1 to 7 drivers and 1 to 64 clients over the opening cell. Seats and passes stand
/// by their numbers, from 1 on.
pub fn open(alloc: Global, drivers: u8, clients: u8, cell: CellWord) -> Result<Crew, NoMemory>
    requires setup { IsSetup (record { drivers = drivers; clients = clients; cell = cell }) }
    ensures opened { IfOk result (IsOpened (record { drivers = drivers; clients = clients; cell = cell })) }
{
    let setup = Setup {
        drivers,
        clients,
        cell,
    };
    let words = first_words(alloc, setup)?;
    let (table, mut base) = Words::of_words(alloc, words.as_slice(), &setup)?;
    let seats = driver_seats(alloc, &table, &mut base, setup)?;
    let passes = client_passes(alloc, &table, &mut base, setup)?;
    Ok(Crew {
        board: Board {
            table,
            opening: cell,
            alloc,
        },
        seats,
        passes,
        notes: Vec::new(alloc),
    })
}

// A seat for each driver. The base keeps the clients' numbers.
fn driver_seats(
    alloc: Global,
    table: &Words,
    base: &mut Seat<(), View>,
    setup: Setup,
) -> Result<Vec<DriverSeat>, NoMemory>
    requires setup { IsSetup setup }
    requires key { table.now.shared.key ≡ setup }
    requires sized { table.now.shared.table_id.words ≡ 1 + 2 * setup.drivers }
    requires board { base.old.table_id ≡ table.now.shared.table_id }
    requires base { base.old.me ≡ (left setup 0 0, []) }
    ensures board { base.new.table_id ≡ base.old.table_id }
    ensures base { OnOk result (base.new.me ≡ (left setup setup.drivers 0, [])) }
    ensures views { IfOk result (λ seats. map seat_view seats.items ≡ map (driver_view setup) (numbers_from 1 setup.drivers)) }
    ensures seats { IfOk result (λ seats. All (λ s. s.seat.table_id ≡ table.now.shared.table_id) seats.items) }
{
    let mut seats = Vec::new(alloc);
    for index in 0..setup.drivers {
        let seat = split_driver(table, base);
        seats.push(DriverSeat::new(alloc, seat, index + 1, setup.cell))?;
    }
    Ok(seats)
}

// A pass for each client. The base has no number left.
fn client_passes(
    alloc: Global,
    table: &Words,
    base: &mut Seat<(), View>,
    setup: Setup,
) -> Result<Vec<Pass>, NoMemory>
    requires setup { IsSetup setup }
    requires key { table.now.shared.key ≡ setup }
    requires sized { table.now.shared.table_id.words ≡ 1 + 2 * setup.drivers }
    requires board { base.old.table_id ≡ table.now.shared.table_id }
    requires base { base.old.me ≡ (left setup setup.drivers 0, []) }
    ensures board { base.new.table_id ≡ base.old.table_id }
    ensures base { OnOk result (base.new.me ≡ (left setup setup.drivers setup.clients, [])) }
    ensures views { IfOk result (λ passes. map pass_view passes.items ≡ map (client_view setup) (numbers_from 1 setup.clients)) }
    ensures passes { IfOk result (λ passes. All (λ p. p.seat.table_id ≡ table.now.shared.table_id) passes.items) }
{
    let mut passes = Vec::new(alloc);
    for index in 0..setup.clients {
        let seat = split_client(table, base);
        passes.push(Pass::new(alloc, seat, index + 1))?;
    }
    Ok(passes)
}
