// The joints of a drawing, counted from its wire ends and pads: each point as one number, sorted, and equal ones gathered.
#![tactic(auto)]

pub mod keys;
mod rows;
pub mod sort;
pub mod tally;

ghost use Rattle.std.specs.Prelude.{◌≡◌, ◌≤◌, length};
ghost use Rattle.sheet.specs.Geometry.{marks};
ghost use Rattle.sheet.specs.Joints.{joints_of};
ghost use Rattle.sheet.specs.Drawings;
ghost use Rattle.sheet.specs.Drawings.{joint_table};
ghost use Rattle.joints.specs.Tables.{sheet_of, Sound};

use parts::pads::all_pads;
use sheet::{Components, Drawing, Joints, Wire, Wires};
use symbol::Point;

// The joint rows of the wire ends and the pads, whatever their order.
pub fn count_joints(ws: &[Wire], pads: &[Point]) -> Joints
    requires { (length ws.now ≤ 512) × (length pads.now ≤ 384) }
    ensures { result ≡ joint_table (joints_of (marks ws.now pads.now)) }
{
    let ks = keys::mark_keys(ws, pads);
    let sorted = sort::sort(ks);
    rows::gathered(sorted.in_use())
}

// The drawing of the wires and the components.
pub fn drawn(ws: Wires, cs: Components) -> Drawing
    requires { Sound ws cs }
    ensures { result ≡ Drawings.drawn (sheet_of ws cs) }
{
    let pads = all_pads(cs.in_use());
    Drawing {
        wires: ws,
        components: cs,
        joints: count_joints(ws.in_use(), pads.in_use()),
    }
}
