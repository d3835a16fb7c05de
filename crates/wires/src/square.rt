// Wires that the square about the pointer does not meet.
ghost use Rattle.std.specs.Prelude.{◌≡◌, not, ◌≤◌, length};
ghost use Rattle.std.specs.List.{filter};
ghost use Rattle.symbol.specs.Symbols.{touches_of};
ghost use Rattle.sheet.specs.Boxes;
ghost use Rattle.sheet.specs.Edits.{meets_wire};
ghost use Rattle.wires.specs.Tables.{Tabled};

use crate::geometry::{high_tip, low_tip};
use sheet::{Wire, Wires, ZERO_WIRE};
use symbol::{Bounds, Point, touches};

// The square of half-width size about the pointer.
pub fn square(p: Point, size: u16) -> Bounds
    requires { (p.x ≤ 12000) × ((p.y ≤ 12000) × (size ≤ 1000)) }
    ensures { result ≡ Boxes.square p size }
{
    Bounds {
        low: Point {
            x: p.x.saturating_sub(size),
            y: p.y.saturating_sub(size),
        },
        high: Point {
            x: p.x + size,
            y: p.y + size,
        },
    }
}

// The box meets the wire's line, edges counted.
fn hits(b: Bounds, w: Wire) -> bool
    ensures { result ≡ touches_of b (Boxes.line w) }
{
    let line = Bounds {
        low: low_tip(w),
        high: high_tip(w),
    };
    touches(b, line)
}

// The wires whose line the box does not meet, in order.
fn keep_clear(ws: &[Wire], b: Bounds) -> Wires
    requires { length ws.now ≤ 512 }
    ensures { Tabled (filter (λ w. not (touches_of b (Boxes.line w))) ws.now) result }
{
    let mut out = Wires::empty(ZERO_WIRE);
    for w in ws {
        if !hits(b, *w) {
            out.push(*w);
        }
    }
    out
}

// The wires whose line the square of half-width size about the pointer does not meet, in order.
pub fn keep_unhit(ws: &[Wire], p: Point, size: u16) -> Wires
    requires { (length ws.now ≤ 512) × ((p.x ≤ 12000) × ((p.y ≤ 12000) × (size ≤ 1000))) }
    ensures { Tabled (filter (λ w. not (meets_wire p size w)) ws.now) result }
{
    keep_clear(ws, square(p, size))
}
