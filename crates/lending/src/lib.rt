// The caller's side of a lent tally: one of its own, 9 9 9 9, is lent to an edit and had back, as it was if the edit is refused. Two wrong
// answers that they rule out: another tally lent (eights_lent), and a wire from its end to its start (wire_backward).
#![tactic(auto)]

ghost use Rattle.std.specs.Prelude.{◌≡◌};
ghost use Rattle.std.specs.Fn.{FnOnceReturnsAtMut};
ghost use Rattle.redraw.specs.declared.Edited.{Edited};
ghost use Rattle.redraw.specs.Calls.{add_wire, add_component, delete_at, rotate_at, mirror_at};
ghost use Rattle.schematic.specs.Calls.{checked};
ghost use Rattle.lent.specs.Noting.{noted};
ghost use Rattle.lending.specs.Nines.{nines};

use label::Label;
use redraw::Edited;
use sheet::{Drawing, Tally};

const NINES: Tally = Tally {
    wires: 9,
    joints: 9,
    components: 9,
    ends: 9,
};

// The nines, after the edit that they are lent to.
fn nines_after<F: FnOnce(&mut Tally) -> Edited>(edit: F) -> Tally
    requires { F.IsAlwaysCallable edit }
    ensures { (r : Edited) × FnOnceReturnsAtMut F.FnOnce edit nines r result }
{
    let mut t = NINES;
    edit(&mut t);
    t
}

// The tally after "Wire."
pub fn tally_after_wire(d: Drawing, vertical: bool, line: i32, start: i32, end: i32) -> Tally
    ensures { result ≡ noted nines (checked d nines (add_wire d vertical line start end nines)) }
{
    nines_after(|t| lent::add_wire(d, vertical, line, start, end, t))
}

// The tally after "Place."
pub fn tally_after_component(
    d: Drawing,
    kind: u8,
    orientation: u8,
    x: i32,
    y: i32,
    label: Label,
) -> Tally
    ensures { result ≡ noted nines (checked d nines (add_component d kind orientation x y label nines)) }
{
    nines_after(|t| lent::add_component(d, kind, orientation, x, y, label, t))
}

// The tally after "Delete."
pub fn tally_after_delete(d: Drawing, x: i32, y: i32, size: i32) -> Tally
    ensures { result ≡ noted nines (checked d nines (delete_at d x y size nines)) }
{
    nines_after(|t| lent::delete_at_point(d, x, y, size, t))
}

// The tally after a turn.
pub fn tally_after_turn(d: Drawing, x: i32, y: i32, size: i32) -> Tally
    ensures { result ≡ noted nines (checked d nines (rotate_at d x y size nines)) }
{
    nines_after(|t| lent::rotate_component_at_point(d, x, y, size, t))
}

// The tally after a mirroring.
pub fn tally_after_mirror(d: Drawing, x: i32, y: i32, size: i32) -> Tally
    ensures { result ≡ noted nines (checked d nines (mirror_at d x y size nines)) }
{
    nines_after(|t| lent::mirror_component_at_point(d, x, y, size, t))
}
