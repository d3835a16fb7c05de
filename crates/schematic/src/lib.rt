// The edits of a drawing that a caller lends: the drawing is checked first. Each is refused by document 01's number, in its order,
// with the drawing and the tally as they were; or it gives 0, the drawing after the edit and its tally.
#![tactic(auto)]

ghost use Rattle.std.specs.Prelude.{◌≡◌};
ghost use Rattle.redraw.specs.Calls;
ghost use Rattle.redraw.specs.declared.Edited.{Edited};
ghost use Rattle.sheet.specs.Rules.{Lawful};
ghost use Rattle.schematic.specs.Calls.{checked};

use label::Label;
use lawful::check;
pub use redraw::Edited;
use redraw::component::add_component_on;
use redraw::pointer::{delete_on, mirror_on, rotate_on};
use redraw::refused;
use redraw::wire::add_wire_on;
use sheet::{Drawing, Tally};

// The edit of a lawful drawing; 9 for any other.
fn checked<F: FnOnce(Drawing, Tally) -> Edited>(d: Drawing, t: Tally, edit: F) -> Edited
    requires { Lawful d → F.pre edit d t }
    ensures { (e : Edited) → ((r : Edited) → F.post edit d t r → r ≡ e) → result ≡ checked d t e }
{
    if check(d).rule != 0 {
        return refused(9, d, t);
    }
    edit(d, t)
}

// "Wire.": a new wire; vertical: line is its x, start and end are its y, else the other way round. 9, 1, 2 or 7. Two wrong answers that
// this rules out: a wire from its end to its start (wire_backward), and a drawing that is not lawful edited (unlawful_edited).
pub fn add_wire(d: Drawing, vertical: bool, line: i32, start: i32, end: i32, t: Tally) -> Edited
    ensures { result ≡ checked d t (Calls.add_wire d vertical line start end t) }
{
    checked(d, t, |d, t| add_wire_on(d, vertical, line, start, end, t))
}

// "Place.": a new component. 9, 4, 1, 5, 6 or 7. Two wrong answers that this rules out: one placed at (y, x) (component_elsewhere), and 4
// for a drawing that is not lawful (nine_told_as_four).
pub fn add_component(
    d: Drawing,
    kind: u8,
    orientation: u8,
    x: i32,
    y: i32,
    label: Label,
    t: Tally,
) -> Edited
    ensures { result ≡ checked d t (Calls.add_component d kind orientation x y label t) }
{
    checked(
        d,
        t,
        |d, t| add_component_on(d, kind, orientation, x, y, label, t),
    )
}

// "Delete.": all that the square of half-width size about (x, y) meets is gone. 9, 1 or 3. Two wrong answers that this rules out: a delete
// about (y, x) (delete_elsewhere), and a drawing that is not lawful edited (unlawful_edited).
pub fn delete_at_point(d: Drawing, x: i32, y: i32, size: i32, t: Tally) -> Edited
    ensures { result ≡ checked d t (Calls.delete_at d x y size t) }
{
    checked(d, t, |d, t| delete_on(d, x, y, size, t))
}

// "Turn right, mirror.": the contacts that the square meets are turned right, and those that would then touch a component are lost. 9, 1,
// 3 or 7. Two wrong answers that this rules out: a turn about (y, x) (turn_elsewhere), and a drawing that is not lawful edited
// (unlawful_edited).
pub fn rotate_component_at_point(d: Drawing, x: i32, y: i32, size: i32, t: Tally) -> Edited
    ensures { result ≡ checked d t (Calls.rotate_at d x y size t) }
{
    checked(d, t, |d, t| rotate_on(d, x, y, size, t))
}

// "Turn right, mirror.": the contacts that the square meets are mirrored, lost as in a turn. 9, 1, 3 or 7. Two wrong answers that this
// rules out: a mirror about (y, x) (mirror_elsewhere), and a drawing that is not lawful edited (unlawful_edited).
pub fn mirror_component_at_point(d: Drawing, x: i32, y: i32, size: i32, t: Tally) -> Edited
    ensures { result ≡ checked d t (Calls.mirror_at d x y size t) }
{
    checked(d, t, |d, t| mirror_on(d, x, y, size, t))
}
