// The run of a new wire, and the wires that it does not meet.
ghost use Rattle.std.specs.Prelude.{◌≡◌, ◌≤◌, length};
ghost use Rattle.sheet.specs.Run;
ghost use Rattle.wires.specs.Tables.{Tabled};

use sheet::{Wire, Wires, ZERO_WIRE};
use wires::geometry::meets;

// The wires that the new one does not meet, in order.
pub fn keep_unmet(ws: &[Wire], n: Wire) -> Wires
    requires { length ws.now ≤ 512 }
    ensures { Tabled (Run.kept n ws.now) result }
{
    let mut out = Wires::empty(ZERO_WIRE);
    for w in ws {
        if !meets(n, *w) {
            out.push(*w);
        }
    }
    out
}

// The run, reaching to the outermost ends of w too.
fn stretch(r: Wire, w: Wire) -> Wire
    ensures { result ≡ Run.stretch r w }
{
    Wire {
        start: r.start.min(w.start),
        end: r.end.max(w.end),
        ..r
    }
}

// The new wire, reaching to the outermost ends of the wires that it meets.
pub fn run_of(ws: &[Wire], n: Wire) -> Wire
    ensures { result ≡ Run.run n ws.now }
{
    let mut r = n;
    for w in ws {
        if meets(n, *w) {
            r = stretch(r, *w);
        }
    }
    r
}
