// The drawing check, each rule by its own words: rules 3 to 6 here, rule 1 in `limits`, rules 2 and 7 in `row_order`.
#![tactic(auto)]

pub mod boxes;
pub mod free;
pub mod listed;

ghost use Rattle.std.specs.Prelude.{◌≡◌, ◌≤◌};
ghost use Rattle.sheet.specs.Geometry.{marks};
ghost use Rattle.sheet.specs.Joints.{joints_of};
ghost use Rattle.sheet.specs.Parts.{pads_of};
ghost use Rattle.sheet.specs.Drawings.{joint_rows, lists_of, marks_of};
ghost use Rattle.parts.specs.Tables.{PartsFit};
ghost use Rattle.rules.specs.Check.{broken, from_rule5, check_of};
ghost use Rattle.rules.specs.Steps.{Within};

use crate::boxes::first_touching;
use crate::free::{all_parted, none_inside};
use crate::listed::all_listed;
use joints::count_joints;
use limits::within_limits;
use parts::pads::all_pads;
use row_order::{components_rise, joints_rise, wires_apart, wires_rise};
use sheet::{Components, Drawing, Joint, Joints, Wires};

// The first broken rule, or 0; for rule 5 the two rows whose boxes share a point.
// No enum: the edit rows_told_of_no_boxes tells rows beside a rule that has none, and an enum has no place for them.
#[derive(Clone, Copy)]
pub struct Checked {
    pub rule: u8,
    pub first: u16,
    pub second: u16,
}

// The answer for a broken rule, or for none. Two wrong answers that this rules out: no rule told (nothing_broken), and rows told where no
// boxes share a point (rows_told_of_no_boxes).
pub fn broken_rule(k: u8) -> Checked
    ensures { result ≡ broken k }
{
    Checked {
        rule: k,
        first: 0,
        second: 0,
    }
}

// The joints of the wires and pads, counted afresh.
fn count_afresh(d: &Drawing) -> Joints
    requires { Within d.now }
    ensures { joint_rows result ≡ joints_of (marks_of (lists_of d.now)) }
{
    let pads = all_pads(d.components.in_use());
    count_joints(d.wires.in_use(), pads.in_use())
}

// The first broken rule from rule 5 on.
fn check_boxes_and_joints(d: &Drawing, js: &[Joint]) -> Checked
    requires { Within d.now × (js.now ≡ joints_of (marks_of (lists_of d.now))) }
    ensures { result ≡ from_rule5 d.now }
{
    let ws = d.wires.in_use();
    let cs = d.components.in_use();
    let rows = d.joints.in_use();
    if let Some((first, second)) = first_touching(cs) {
        return Checked {
            rule: 5,
            first,
            second,
        };
    }
    if !all_listed(rows, js) {
        return broken_rule(6);
    }
    if !(wires_rise(ws) & (components_rise(cs) & joints_rise(rows))) {
        return broken_rule(7);
    }
    broken_rule(0)
}

// The first broken rule, each rule looked at by its own words.
pub fn check_plainly(d: Drawing) -> Checked
    ensures { result ≡ check_of d }
{
    if !within_limits(&d) {
        return broken_rule(1);
    }
    let ws = d.wires.in_use();
    if !wires_apart(ws) {
        return broken_rule(2);
    }
    let counted = count_afresh(&d);
    let js = counted.in_use();
    if !none_inside(ws, js) {
        return broken_rule(3);
    }
    if !all_parted(ws, js) {
        return broken_rule(4);
    }
    check_boxes_and_joints(&d, js)
}
