// The tally of a drawing.
ghost use Rattle.std.specs.Prelude.{◌≡◌};
ghost use Rattle.sheet.specs.Drawings.{lists_of, tally_of};
ghost use Rattle.joints.specs.Tables.{Counted};

use parts::pads::count_pads;
use sheet::{Drawing, Tally};

// The numbers of wires, joints and components, and the sum of all joint counts: twice the wires and the pads.
pub fn tally(d: Drawing) -> Tally
    requires { Counted d }
    ensures { result ≡ tally_of (lists_of d) }
{
    let ws = d.wires;
    let js = d.joints;
    let cs = d.components;
    let pads = count_pads(cs.in_use());
    Tally {
        wires: ws.count as u32,
        joints: js.count as u32,
        components: cs.count as u32,
        ends: (2 * ws.count + pads) as u32,
    }
}
