// A point and a wire, and two wires.
ghost use Rattle.std.specs.Prelude.{◌≡◌};
ghost use Rattle.sheet.specs.Points;
ghost use Rattle.sheet.specs.Geometry;

use sheet::Wire;
use symbol::Point;

// Where the point lies along a direction.
pub fn along(vertical: bool, p: Point) -> u16
    ensures { result ≡ Geometry.along vertical p }
{
    if vertical { p.y } else { p.x }
}

// The line of a direction that the point lies on.
pub fn across(vertical: bool, p: Point) -> u16
    ensures { result ≡ Geometry.across vertical p }
{
    if vertical { p.x } else { p.y }
}

// The point of a direction, a line and a place on it.
pub fn point_of(vertical: bool, line: u16, at: u16) -> Point
    ensures { result ≡ Geometry.point vertical line at }
{
    if vertical {
        Point { x: line, y: at }
    } else {
        Point { x: at, y: line }
    }
}

// Where the wire starts.
pub fn low_tip(w: Wire) -> Point
    ensures { result ≡ Geometry.tip Geometry.low w }
{
    point_of(w.vertical, w.line, w.start)
}

// Where the wire ends.
pub fn high_tip(w: Wire) -> Point
    ensures { result ≡ Geometry.tip Geometry.high w }
{
    point_of(w.vertical, w.line, w.end)
}

// The two points are one.
#[tactic(auto, unfolding(sheet::specs::Points::same))]
pub fn same(p: Point, q: Point) -> bool
    ensures { result ≡ Points.same p q }
{
    p == q
}

// The point lies strictly inside the wire.
#[tactic(auto, unfolding(sheet::specs::Geometry::inside))]
pub fn inside(p: Point, w: Wire) -> bool
    ensures { result ≡ Geometry.inside p w }
{
    let line = across(w.vertical, p);
    let at = along(w.vertical, p);
    (w.line == line) & ((w.start < at) & (at < w.end))
}

// The point lies on the wire, both ends included.
#[tactic(auto, unfolding(sheet::specs::Geometry::on))]
pub fn on(p: Point, w: Wire) -> bool
    ensures { result ≡ Geometry.on p w }
{
    let line = across(w.vertical, p);
    let at = along(w.vertical, p);
    (w.line == line) & ((w.start <= at) & (at <= w.end))
}

// The two wires are of one direction and one line and share a point, an end touch included.
#[tactic(auto, unfolding(sheet::specs::Geometry::meets))]
pub fn meets(n: Wire, w: Wire) -> bool
    ensures { result ≡ Geometry.meets n w }
{
    (n.vertical == w.vertical) & ((n.line == w.line) & ((w.start <= n.end) & (n.start <= w.end)))
}

// Row order: horizontal wires before vertical ones, then by line, then by start.
#[tactic(auto, using(crate::proofs::Cases::first_start, crate::proofs::Cases::first_line), unfolding(sheet::specs::Geometry::first))]
pub fn first(a: Wire, b: Wire) -> bool
    ensures { result ≡ Geometry.first a b }
{
    if a.vertical == b.vertical {
        if a.line == b.line {
            return a.start <= b.start;
        }
        return a.line < b.line;
    }
    !a.vertical
}
