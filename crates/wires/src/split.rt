// Wires split at points.
ghost use Rattle.std.specs.Prelude.{◌≡◌};
ghost use Rattle.sheet.specs.Split;
ghost use Rattle.wires.specs.Tables.{Grows, Splits};

use crate::geometry::{along, inside};
use sheet::{Wire, Wires, ZERO_WIRE};
use symbol::Point;
use table::NoRoom;

// The part of the wire up to the point.
pub fn left(p: Point, w: Wire) -> Wire
    ensures { result ≡ Split.left p w }
{
    Wire {
        end: along(w.vertical, p),
        ..w
    }
}

// The part of the wire from the point on.
pub fn right(p: Point, w: Wire) -> Wire
    ensures { result ≡ Split.right p w }
{
    Wire {
        start: along(w.vertical, p),
        ..w
    }
}

// Each wire that has the point strictly inside gives its two parts, in its place.
pub fn split_at(ws: &[Wire], p: Point) -> Result<Wires, NoRoom>
    ensures { Grows (Split.split_at p ws.now) result }
{
    let mut out = Wires {
        rows: [ZERO_WIRE; 512],
        count: 0,
    };
    for w in ws {
        if inside(p, *w) {
            out.try_push(left(p, *w))?;
            out.try_push(right(p, *w))?;
        } else {
            out.try_push(*w)?;
        }
    }
    Ok(out)
}

// Split at each of the points in turn, as the pads of a component do.
pub fn split_all(ws: Wires, points: &[Point]) -> Result<Wires, NoRoom>
    ensures { Splits points.now ws result }
{
    let mut out = ws;
    for p in points {
        out = split_at(out.in_use(), *p)?;
    }
    Ok(out)
}
