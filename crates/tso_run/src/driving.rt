// What a driver does on a line.
ghost use Rattle.std.specs.Prelude.{◌≡◌, IfOk};
ghost use Rattle.tso_driver.specs.Drivers.{IsDriverOf, view_of};
ghost use Rattle.tso_driver.specs.Driving.{DriverDid};
ghost use Rattle.tso_run.specs.Lines.{driver_ask};

use crate::line::DriverAsk;
use pd_types::NoMemory;
use tso_board::Board;
use tso_driver::{Driver, DriverSaid};

/// What the driver answers. Want of memory leaves it as it was.
pub fn answer(driver: &mut Driver, board: &Board, ask: DriverAsk) -> Result<DriverSaid, NoMemory>
    requires board { IsDriverOf driver.old board.now }
    ensures board { IsDriverOf driver.new board.now }
    ensures asked { IfOk result (λ said. driver_ask said ≡ ask) }
    ensures did { IfOk result (λ said. DriverDid said (view_of driver.old) (view_of driver.new)) }
{
    match ask {
        DriverAsk::Lead { now } => {
            driver.reserve(1)?;
            let reply = driver.lead(board, now);
            Ok(DriverSaid::Led { now, reply })
        }
        DriverAsk::Tick { now } => {
            let reply = driver.tick(board, now);
            Ok(DriverSaid::Ticked { now, reply })
        }
        DriverAsk::Resign => {
            let held = driver.resign(board);
            Ok(DriverSaid::Resigned { held })
        }
    }
}
