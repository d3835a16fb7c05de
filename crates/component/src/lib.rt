// The pads and the box of a component by its coordinates, whole numbers as document 01 has them.
#![tactic(auto)]

ghost use Rattle.std.specs.Prelude.{◌≡◌};
ghost use Rattle.refusal.specs.Numbers.{reply_of};
ghost use Rattle.component.specs.Answers.{pads_told, component_pads_of, box_told, component_box_of, held_of, shown_of, granted_reply};

use refusal::Refusal;
use symbol::Point;

// A point by its coordinates.
#[derive(Clone, Copy)]
pub struct Position {
    pub x: i32,
    pub y: i32,
}

// The pads of a component by their coordinates, with zeros behind the count. No slice: document 01 has "a block of three points with a count".
#[derive(Clone, Copy)]
pub struct Pads {
    pub points: [Position; 3],
    pub count: usize,
}

// The box of a component by the coordinates of its corners.
#[derive(Clone, Copy)]
pub struct Corners {
    pub low: Position,
    pub high: Position,
}

// A component's coordinate as rows hold it, or 0, which is no position.
#[tactic(auto, using(crate::proofs::Answers::held_at))]
fn held(x: i32) -> u16
    ensures { result ≡ held_of x }
{
    edge::held_position(x).unwrap_or(0)
}

// The coordinates of a point that is used, else zeros.
fn shown(p: Point, used: bool) -> Position
    ensures { result ≡ shown_of p used }
{
    if used {
        Position {
            x: edge::coordinate(p.x),
            y: edge::coordinate(p.y),
        }
    } else {
        Position { x: 0, y: 0 }
    }
}

// What a reply of `symbol` says: 0, or the refusal, which is 4 or 1.
fn granted(reply: u8) -> Result<(), Refusal>
    ensures { reply_of result ≡ granted_reply reply }
{
    if reply == 0 {
        return Ok(());
    }
    if reply == 4 {
        return Err(Refusal::UnknownSymbol);
    }
    Err(Refusal::CoordinateOutside)
}

// The pads of a component at (x, y), by their coordinates.
#[tactic(auto, using(crate::proofs::Answers::pads_refused))]
pub fn component_pads(kind: u8, orientation: u8, x: i32, y: i32) -> Result<Pads, Refusal>
    ensures { pads_told result ≡ component_pads_of kind orientation x y }
{
    let at_x = held(x);
    let at_y = held(y);
    let r = symbol::pads(kind, orientation, at_x, at_y);
    granted(r.reply)?;
    let b = r.pads;
    let points = b.points;
    let count = b.count;
    let first = shown(points[0], 0 < count);
    let second = shown(points[1], 1 < count);
    let third = shown(points[2], 2 < count);
    Ok(Pads {
        points: [first, second, third],
        count,
    })
}

// The box of a component at (x, y), by its coordinates.
#[tactic(auto, using(crate::proofs::Answers::box_refused))]
pub fn component_box(kind: u8, orientation: u8, x: i32, y: i32) -> Result<Corners, Refusal>
    ensures { box_told result ≡ component_box_of kind orientation x y }
{
    let (at_x, at_y) = (held(x), held(y));
    let r = symbol::aabb(kind, orientation, at_x, at_y);
    granted(r.reply)?;
    let b = r.bounds;
    let low = shown(b.low, true);
    let high = shown(b.high, true);
    Ok(Corners { low, high })
}
