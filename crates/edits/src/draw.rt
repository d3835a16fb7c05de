// A new wire.
ghost use Rattle.std.specs.Prelude.{◌≡◌, ◌≤◌};
ghost use Rattle.sheet.specs.Edits.{wire};
ghost use Rattle.joints.specs.Tables.{sheet_of, Sound};
ghost use Rattle.edits.specs.Making.{quiet, told, made};

use crate::{Made, answer};
use add_wire::add_wire;
use parts::pads::all_pads;
use refusal::Refusal;
use sheet::{Components, Wire, Wires};

// The new wire among the others; one of zero length changes nothing. Two wrong answers that this rules out: a wire of zero length laid
// (no_length_drawn), and every wire after the first one only acknowledged (draws_once).
pub fn draw(ws: Wires, cs: Components, n: Wire) -> Result<Made, Refusal>
    requires { Sound ws cs × (n.end ≤ 12000) }
    ensures { told result ≡ made (quiet (wire n (sheet_of ws cs))) }
{
    if n.start == n.end {
        return answer(Ok(ws), cs, 0, 0);
    }
    let pads = all_pads(cs.in_use());
    let g = add_wire(ws.in_use(), n, pads.in_use());
    answer(g, cs, 0, 0)
}
