// Wires and components removed.
ghost use Rattle.std.specs.Prelude.{◌≡◌, ◌≤◌, length};
ghost use Rattle.sheet.specs.Merge;
ghost use Rattle.sheet.specs.Parts.{pads_of};
ghost use Rattle.sheet.specs.Edits;
ghost use Rattle.wires.specs.Tables.{Tabled};
ghost use Rattle.parts.specs.Tables.{EachFits};
ghost use Rattle.joints.specs.Tables.{sheet_of, Sound};
ghost use Rattle.edits.specs.Making.{quiet, told, made, Pointed};

use crate::{Made, answer};
use merge::merge;
use parts::pads::all_pads;
use parts::square::keep_unmet;
use refusal::Refusal;
use sheet::{Component, Components, Wire, Wires};
use symbol::Point;
use wires::square::keep_unhit;

// The wires merged, among the pads of the components.
pub(crate) fn settled(ws: &[Wire], cs: &[Component]) -> Wires
    requires { (length ws.now ≤ 512) × (EachFits cs.now × (length cs.now ≤ 128)) }
    ensures { Tabled (Merge.merge ws.now (pads_of cs.now)) result }
{
    let pads = all_pads(cs);
    merge(ws, pads.in_use())
}

// Without the wires and components that the square about the pointer meets. Two wrong answers that this rules out: the wires that it meets
// stay (hit_wires_stay), and so do the components (hit_components_stay).
pub fn delete(ws: Wires, cs: Components, p: Point, size: u16) -> Result<Made, Refusal>
    requires { Sound ws cs × Pointed p size }
    ensures { told result ≡ made (quiet (Edits.delete p size (sheet_of ws cs))) }
{
    let left = keep_unhit(ws.in_use(), p, size);
    let parts = keep_unmet(cs.in_use(), p, size);
    let wires = settled(left.in_use(), parts.in_use());
    answer(Ok(wires), parts, 0, 0)
}
