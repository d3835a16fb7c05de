// What stands before the run goes in.
ghost use Rattle.std.specs.Prelude.{◌≤◌, length};
ghost use Rattle.sheet.specs.Run;
ghost use Rattle.wires.specs.Tables.{Grows};

use crate::run::keep_unmet;
use sheet::{Wire, Wires};
use table::NoRoom;
use wires::geometry::{high_tip, low_tip};
use wires::split::split_all;

// The wires that the new one does not meet, split at both its ends as drawn.
pub fn rest_of(ws: &[Wire], n: Wire) -> Result<Wires, NoRoom>
    requires { length ws.now ≤ 512 }
    ensures { Grows (Run.rest n ws.now) result }
{
    split_all(keep_unmet(ws, n), &[low_tip(n), high_tip(n)])
}
