// The places along the new wire, from 0 to 12,000, where joints stand.
ghost use Rattle.std.specs.Prelude.{[], ◌∷◌, ◌≤◌};
ghost use Rattle.std.specs.List.{filter};
ghost use Rattle.sheet.specs.Geometry;
ghost use Rattle.sheet.specs.Run;
ghost use Rattle.add_wire.specs.Marks.{Marked, More};

use sheet::Wire;
use symbol::Point;
use wires::geometry::{along, high_tip, low_tip, on};

// The point's place is marked if it lies on n.
fn mark(marks: &mut [bool; 12001], n: Wire, p: Point)
    requires { n.end ≤ 12000 }
    ensures { More n.vertical marks.old (filter (λ q. Geometry.on q n) (p ∷ [])) marks.new }
{
    if on(p, n) {
        let at = along(n.vertical, p) as usize;
        marks[at] = true;
    }
}

// And the places of both ends of a wire.
fn mark_tips(marks: &mut [bool; 12001], n: Wire, w: Wire)
    requires { n.end ≤ 12000 }
    ensures { More n.vertical marks.old (filter (λ q. Geometry.on q n) (Geometry.tips w)) marks.new }
{
    mark(marks, n, low_tip(w));
    mark(marks, n, high_tip(w));
}

// The places where a wire ends on n.
fn mark_ends(marks: &mut [bool; 12001], n: Wire, ws: &[Wire])
    requires { n.end ≤ 12000 }
    ensures { More n.vertical marks.old (filter (λ q. Geometry.on q n) (Geometry.ends ws.now)) marks.new }
{
    for w in ws {
        mark_tips(marks, n, *w);
    }
}

// And where a pad lies on n.
fn mark_pads(marks: &mut [bool; 12001], n: Wire, pads: &[Point])
    requires { n.end ≤ 12000 }
    ensures { More n.vertical marks.old (filter (λ q. Geometry.on q n) pads.now) marks.new }
{
    for p in pads {
        mark(marks, n, *p);
    }
}

// A mark at each joint standing on n.
pub fn standing(n: Wire, ws: &[Wire], pads: &[Point]) -> [bool; 12001]
    requires { n.end ≤ 12000 }
    ensures { Marked n.vertical (Run.standing n ws.now pads.now) result }
{
    let mut marks = [false; 12001];
    mark_ends(&mut marks, n, ws);
    mark_pads(&mut marks, n, pads);
    marks
}
