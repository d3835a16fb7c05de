// The public edits with a tally that the caller lends: it is brought up to date in its place after reply 0, and untouched otherwise. Wrong
// answers that they rule out: coordinates in another order (arguments_swapped), the lent tally as it was after reply 0 (never_written), and
// zeros in it after a refusal (written_after_a_refusal).
#![tactic(auto)]

ghost use Rattle.std.specs.Prelude.{◌≡◌};
ghost use Rattle.redraw.specs.Calls;
ghost use Rattle.schematic.specs.Calls.{checked};
ghost use Rattle.lent.specs.Noting.{noted};

use label::Label;
use redraw::Edited;
use sheet::{Drawing, Tally};

// The edit of the tally lent, which after reply 0 holds the answer's.
#[tactic(auto, unfolding(crate::specs::Noting::noted))]
fn noted<F: FnOnce(Tally) -> Edited>(t: &mut Tally, edit: F) -> Edited
    requires { F.pre edit t.old }
    ensures { F.post edit t.old result × (t.new ≡ noted t.old result) }
{
    let e = edit(*t);
    if e.reply == 0 {
        *t = e.tally;
    }
    e
}

// "Wire.", as `schematic::add_wire`; the tally "is brought up to date in its place".
pub fn add_wire(
    d: Drawing,
    vertical: bool,
    line: i32,
    start: i32,
    end: i32,
    t: &mut Tally,
) -> Edited
    ensures { (result ≡ checked d t.old (Calls.add_wire d vertical line start end t.old)) × (t.new ≡ noted t.old result) }
{
    noted(t, |t| schematic::add_wire(d, vertical, line, start, end, t))
}

// "Place.", as `schematic::add_component`; the tally "is brought up to date in its place".
pub fn add_component(
    d: Drawing,
    kind: u8,
    orientation: u8,
    x: i32,
    y: i32,
    label: Label,
    t: &mut Tally,
) -> Edited
    ensures { (result ≡ checked d t.old (Calls.add_component d kind orientation x y label t.old)) × (t.new ≡ noted t.old result) }
{
    noted(
        t,
        |t| schematic::add_component(d, kind, orientation, x, y, label, t),
    )
}

// "Delete.", as `schematic::delete_at_point`; the tally "is brought up to date in its place".
pub fn delete_at_point(d: Drawing, x: i32, y: i32, size: i32, t: &mut Tally) -> Edited
    ensures { (result ≡ checked d t.old (Calls.delete_at d x y size t.old)) × (t.new ≡ noted t.old result) }
{
    noted(t, |t| schematic::delete_at_point(d, x, y, size, t))
}

// "Turn right, mirror.", as `schematic::rotate_component_at_point`; the tally "is brought up to date in its place".
pub fn rotate_component_at_point(d: Drawing, x: i32, y: i32, size: i32, t: &mut Tally) -> Edited
    ensures { (result ≡ checked d t.old (Calls.rotate_at d x y size t.old)) × (t.new ≡ noted t.old result) }
{
    noted(
        t,
        |t| schematic::rotate_component_at_point(d, x, y, size, t),
    )
}

// "Turn right, mirror.", as `schematic::mirror_component_at_point`; the tally "is brought up to date in its place".
pub fn mirror_component_at_point(d: Drawing, x: i32, y: i32, size: i32, t: &mut Tally) -> Edited
    ensures { (result ≡ checked d t.old (Calls.mirror_at d x y size t.old)) × (t.new ≡ noted t.old result) }
{
    noted(
        t,
        |t| schematic::mirror_component_at_point(d, x, y, size, t),
    )
}
