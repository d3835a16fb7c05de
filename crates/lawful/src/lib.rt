// The drawing check, near linear on a lawful drawing: joints are searched for in order and then looked at, and only what is
// looked at counts. Where anything is off, the plain check names the rule.
#![tactic(auto)]

mod boxes;
mod columns;
mod order;
mod runs;

ghost use Rattle.std.specs.Prelude.{◌≡◌, true, ◌≤◌, length};
ghost use Rattle.sheet.specs.Geometry.{marks};
ghost use Rattle.sheet.specs.Joints.{joints_of};
ghost use Rattle.sheet.specs.Drawings.{joint_rows};
ghost use Rattle.sheet.specs.Wiring.{AllFit, Wired};
ghost use Rattle.sheet.specs.Rules.{Lawful};
ghost use Rattle.rules.specs.Check.{check_of};

use crate::boxes::none_touch;
use crate::order::wires_in_order;
use crate::runs::{levels_clear, uprights_clear};
use joint_check::joints_listed;
use limits::within_limits;
use parts::pads::all_pads;
use row_order::{components_rise, joints_rise};
use rules::Checked;
use sheet::{Drawing, Joint, Joints, Wire};
use symbol::Point;

// Rules 2 to 4 and 7 of wires hold.
fn wires_right(ws: &[Wire], pads: &[Point], js: &[Joint]) -> bool
    requires { (length js.now ≤ 1408) × (js.now ≡ joints_of (marks ws.now pads.now)) }
    ensures { result ≡ true → AllFit ws.now → Wired ws.now pads.now }
{
    wires_in_order(ws) & (levels_clear(ws, js) & uprights_clear(ws, js))
}

// Rules 6 and 7 of joints hold.
fn joints_right(js: Joints, ws: &[Wire], pads: &[Point]) -> bool
    requires { (js.count ≤ 1408) × ((length ws.now ≤ 512) × (length pads.now ≤ 384)) }
    ensures { result ≡ true → joint_rows js ≡ joints_of (marks ws.now pads.now) }
{
    if !joints_rise(js.in_use()) {
        return false;
    }
    joints_listed(js, ws, pads)
}

// Only a lawful drawing passes.
fn all_right(d: Drawing) -> bool
    ensures { result ≡ true → Lawful d }
{
    if !within_limits(&d) {
        return false;
    }
    let ws = d.wires.in_use();
    let cs = d.components.in_use();
    let points = all_pads(cs);
    let pads = points.in_use();
    if !joints_right(d.joints, ws, pads) {
        return false;
    }
    components_rise(cs) & (none_touch(cs) & wires_right(ws, pads, d.joints.in_use()))
}

// The first broken rule of a drawing, or 0; for rule 5 the two rows whose boxes share a point.
pub fn check(d: Drawing) -> Checked
    ensures { result ≡ check_of d }
{
    if all_right(d) {
        return rules::broken_rule(0);
    }
    rules::check_plainly(d)
}
