// A new wire.
ghost use Rattle.std.specs.Prelude.{◌≡◌};
ghost use Rattle.sheet.specs.Rules.{Lawful};
ghost use Rattle.redraw.specs.Calls;

use crate::{Edited, finished, refused};
use asked::asked_wire;
use edits::draw::draw;
use sheet::{Drawing, Tally};

// "Wire."; vertical: line is its x, start and end are its y; else the other way round. Two wrong answers that this rules out: a wire
// acknowledged and not drawn (wire_only_acknowledged), and the tally received after reply 0 (tally_untouched).
pub fn add_wire_on(d: Drawing, vertical: bool, line: i32, start: i32, end: i32, t: Tally) -> Edited
    requires { Lawful d }
    ensures { result ≡ Calls.add_wire d vertical line start end t }
{
    let n = match asked_wire(vertical, line, start, end) {
        Ok(n) => n,
        Err(r) => return refused(u8::from(r), d, t),
    };
    let ws = d.wires;
    let cs = d.components;
    let e = draw(ws, cs, n);
    finished(d, t, e)
}
