// A new component.
ghost use Rattle.std.specs.Prelude.{◌≡◌};
ghost use Rattle.sheet.specs.Rules.{Lawful};
ghost use Rattle.redraw.specs.Calls;

use crate::{Edited, finished, refused};
use asked::asked_part;
use edits::place::place;
use label::Label;
use parts::touch::first_touched;
use sheet::{Drawing, Tally};

// "Place.", and for 6 the first row touched. Wrong answers that this rules out: a component acknowledged and not placed
// (component_only_acknowledged), 7 for one whose box shares a point with a placed one (six_told_as_seven), row 1 for the first
// (first_row_is_one).
pub fn add_component_on(
    d: Drawing,
    kind: u8,
    orientation: u8,
    x: i32,
    y: i32,
    label: Label,
    t: Tally,
) -> Edited
    requires { Lawful d }
    ensures { result ≡ Calls.add_component d kind orientation x y label t }
{
    let c = match asked_part(kind, orientation, x, y, label) {
        Ok(c) => c,
        Err(r) => return refused(u8::from(r), d, t),
    };
    let ws = d.wires;
    let cs = d.components;
    match first_touched(cs.in_use(), c) {
        Some(row) => {
            let mut e = refused(6, d, t);
            e.row = row as u16;
            e
        }
        None => {
            let e = place(ws, cs, c);
            finished(d, t, e)
        }
    }
}
