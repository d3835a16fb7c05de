// An edit by its number: 0 and 1 a horizontal and a vertical wire, 2 delete, 3 turn right, 4 mirror; from 8 on a component, eight
// numbers for each kind, by orientation.
ghost use Rattle.std.specs.Prelude.{◌≡◌, ◌≤◌};
ghost use Rattle.sheet.specs.Rules.{Lawful};
ghost use Rattle.schematic.specs.Calls.{checked};
ghost use Rattle.bench_calls.specs.Numbered.{label, place_by, edit_of};

use label::Label;
use redraw::Edited;
use redraw::component::add_component_on;
use redraw::pointer::{delete_on, mirror_on, rotate_on};
use redraw::wire::add_wire_on;
use schematic::{
    add_component, add_wire, delete_at_point, mirror_component_at_point, rotate_component_at_point,
};
use sheet::{Drawing, Tally};

// The label of every component: K.
pub(crate) fn k_label() -> Label
    ensures { result ≡ label }
{
    let mut bytes = [0u8; 16];
    bytes[0] = b'K';
    Label { bytes, length: 1 }
}

fn place_on(d: Drawing, what: u8, x: i32, y: i32, t: Tally) -> Edited
    requires { Lawful d × (8 ≤ what) }
    ensures { result ≡ place_by what x y d t }
{
    let l = k_label();
    add_component_on(d, what / 8 - 1, what % 8, x, y, l, t)
}

// On a drawing known to be lawful.
pub fn edit_on(d: Drawing, what: u8, x: i32, y: i32, z: i32, t: Tally) -> Edited
    requires { Lawful d }
    ensures { result ≡ edit_of what x y z d t }
{
    if what >= 8 {
        return place_on(d, what, x, y, t);
    }
    if what == 0 {
        return add_wire_on(d, false, x, y, z, t);
    }
    if what == 1 {
        return add_wire_on(d, true, x, y, z, t);
    }
    if what == 2 {
        return delete_on(d, x, y, z, t);
    }
    if what == 3 {
        return rotate_on(d, x, y, z, t);
    }
    mirror_on(d, x, y, z, t)
}

fn place_checked(d: Drawing, what: u8, x: i32, y: i32, t: Tally) -> Edited
    requires { 8 ≤ what }
    ensures { result ≡ checked d t (place_by what x y d t) }
{
    let l = k_label();
    add_component(d, what / 8 - 1, what % 8, x, y, l, t)
}

// By the public call, which checks the drawing first.
pub fn edit_checked(d: Drawing, what: u8, x: i32, y: i32, z: i32, t: Tally) -> Edited
    ensures { result ≡ checked d t (edit_of what x y z d t) }
{
    if what >= 8 {
        return place_checked(d, what, x, y, t);
    }
    if what == 0 {
        return add_wire(d, false, x, y, z, t);
    }
    if what == 1 {
        return add_wire(d, true, x, y, z, t);
    }
    if what == 2 {
        return delete_at_point(d, x, y, z, t);
    }
    if what == 3 {
        return rotate_component_at_point(d, x, y, z, t);
    }
    mirror_component_at_point(d, x, y, z, t)
}
