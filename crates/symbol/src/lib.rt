// The symbols: pads and boxes of components, turned and moved, in the numbers that rows hold.
#![tactic(auto)]

ghost use Rattle.std.specs.Prelude.{◌≡◌, ◌≤◌};
ghost use Rattle.refusal.specs.Numbers.{reply_of};
ghost use Rattle.orientation.specs.Orientations.{eighth};
ghost use Rattle.symbol.specs.Symbols.{Positioned, Placeable, known_symbol, moved_of, pad_block, bounds_at, touches_of};
ghost use Rattle.symbol.specs.Replies.{held_reply};
ghost use Rattle.symbol.specs.Answers.{pads_reply_of, aabb_of};
ghost use Rattle.symbol.specs.Steps.{offset_of, along_of, map_first, reaching_of, Near, Mapping, Reaching};

use edge::is_position;
use refusal::Refusal;

// A point as rows hold it: each coordinate and 6,000 more. A row of zeros is no point.
#[derive(Clone, Copy, PartialEq, Eq)]
pub struct Point {
    pub x: u16,
    pub y: u16,
}

// The pads of a symbol, with zeros behind the count. No slice: document 01 has "a block of three points with a count".
#[derive(Clone, Copy)]
pub struct PadBlock {
    pub points: [Point; 3],
    pub count: usize,
}

// The reply to a call for pads: 0 and the pads, or the refusal and zeros. No `Result`, which has no count beside a refusal for the edit
// pads_refused_with_a_count.
#[derive(Clone, Copy)]
pub struct PadsReply {
    pub reply: u8,
    pub pads: PadBlock,
}

// A box, by its low and its high corner.
#[derive(Clone, Copy)]
pub struct Bounds {
    pub low: Point,
    pub high: Point,
}

// The reply to a call for a box: 0 and the box, or the refusal and zeros. No `Result`, which has no number beside a refusal for the edit
// aabb_refused_with_a_number.
#[derive(Clone, Copy)]
pub struct BoundsReply {
    pub reply: u8,
    pub bounds: Bounds,
}

const UNUSED: Point = Point { x: 0, y: 0 };

// The pads of the kinds, each number 200 more so that none is negative.
const PADS: [PadBlock; 3] = [
    PadBlock {
        points: [Point { x: 200, y: 200 }, UNUSED, UNUSED],
        count: 1,
    },
    PadBlock {
        points: [
            Point { x: 200, y: 100 },
            Point { x: 150, y: 300 },
            Point { x: 250, y: 300 },
        ],
        count: 3,
    },
    PadBlock {
        points: [Point { x: 200, y: 100 }, UNUSED, UNUSED],
        count: 1,
    },
];

// How far the box of each kind reaches below its position in orientation 0. It reaches 100 above it and 50 to the left and right.
const DEPTHS: [u16; 3] = [0, 100, 150];

// The sign of each orientation's x, and of its y: true for minus. The odd ones exchange x and y besides.
const BACK_X: [bool; 8] = [false, true, true, false, true, true, false, false];

const BACK_Y: [bool; 8] = [false, false, true, true, false, true, true, false];

// One coordinate of a symbol's point: d, given as 200 more, on from p or back from it.
fn along(back: bool, d: u16, p: u16) -> u16
    requires { (d ≤ 400) × ((200 ≤ p) × (p ≤ 11800)) }
    ensures { result ≡ along_of back d p }
{
    if back { p + 200 - d } else { p + d - 200 }
}

// A point of a symbol, each number given as 200 more, turned by the orientation numbered n and moved to the position (x, y).
fn moved(n: u8, q: Point, x: u16, y: u16) -> Point
    requires { Positioned n x y × Near q }
    ensures { result ≡ moved_of (eighth n) x y (offset_of q) }
{
    let i = n as usize;
    if n % 2 == 0 {
        return Point {
            x: along(BACK_X[i], q.x, x),
            y: along(BACK_Y[i], q.y, y),
        };
    }
    Point {
        x: along(BACK_X[i], q.y, x),
        y: along(BACK_Y[i], q.x, y),
    }
}

// Whether the kind is known and the number is one of the eight orientations': else a call is refused with 4. Kinds and orientations stay
// numbers, no enums: rule 1 of the drawing check judges rows that hold any number.
pub fn is_known(kind: u8, n: u8) -> bool
    ensures { result ≡ known_symbol kind n }
{
    (kind <= 2) & (n < 8)
}

// 4 for an unknown kind or orientation, then 1 for a position outside. Two wrong answers that this rules out: 1 for an unknown kind
// (placeable_unknown_told_as_1), and nothing refused of a position outside (placeable_anywhere).
#[tactic(auto, using(crate::proofs::Symbols::unknown, crate::proofs::Symbols::outside, crate::proofs::Symbols::placed))]
pub fn placeable(kind: u8, n: u8, x: u16, y: u16) -> Result<(), Refusal>
    ensures { reply_of result ≡ held_reply kind n x y }
{
    if !is_known(kind, n) {
        return Err(Refusal::UnknownSymbol);
    }
    if !(is_position(x) & is_position(y)) {
        return Err(Refusal::CoordinateOutside);
    }
    Ok(())
}

// The first count points, mapped through orientation and position; those behind stay.
fn mapped(points: [Point; 3], count: usize, n: u8, x: u16, y: u16) -> [Point; 3]
    requires { Mapping points count n x y }
    ensures { result ≡ map_first (λ q. moved_of (eighth n) x y (offset_of q)) count points }
{
    let mut out = points;
    for q in &mut out[..count] {
        *q = moved(n, *q, x, y);
    }
    out
}

// The pads of a component that a lawful drawing may hold.
#[tactic(auto, using(crate::proofs::Tables::mapping, crate::proofs::Tables::pads_made))]
pub fn pads_at(kind: u8, n: u8, x: u16, y: u16) -> PadBlock
    requires { Placeable kind n x y }
    ensures { result ≡ pad_block kind (eighth n) x y }
{
    let PadBlock { points, count } = PADS[kind as usize];
    PadBlock {
        points: mapped(points, count, n, x, y),
        count,
    }
}

// The pads of a component: 0 and the block of points, or the refusal and zeros.
#[tactic(auto, using(crate::proofs::Symbols::pads_given, crate::proofs::Symbols::pads_refused))]
pub fn pads(kind: u8, n: u8, x: u16, y: u16) -> PadsReply
    ensures { result ≡ pads_reply_of kind n x y }
{
    match placeable(kind, n, x, y) {
        Ok(()) => PadsReply {
            reply: 0,
            pads: pads_at(kind, n, x, y),
        },
        Err(r) => PadsReply {
            reply: u8::from(r),
            pads: PadBlock {
                points: [UNUSED; 3],
                count: 0,
            },
        },
    }
}

// The box that reaches so far to each side of (x, y).
fn reaching(x: u16, y: u16, left: u16, up: u16, right: u16, down: u16) -> Bounds
    requires { Reaching x y left up right down }
    ensures { result ≡ reaching_of x y left up right down }
{
    let low = Point {
        x: x - left,
        y: y - up,
    };
    let high = Point {
        x: x + right,
        y: y + down,
    };
    Bounds { low, high }
}

// The box of a component that a lawful drawing may hold: a turn to the right takes each side to the next, and 4 to 7 have the boxes of 0 to 3.
pub fn bounds_at(kind: u8, n: u8, x: u16, y: u16) -> Bounds
    requires { Placeable kind n x y }
    ensures { result ≡ bounds_at kind (eighth n) x y }
{
    let depth = DEPTHS[kind as usize];
    match n % 4 {
        0 => reaching(x, y, 50, 100, 50, depth),
        1 => reaching(x, y, depth, 50, 100, 50),
        2 => reaching(x, y, 50, depth, 50, 100),
        _ => reaching(x, y, 100, 50, depth, 50),
    }
}

// The box of a component: 0 and its corners, or the refusal and zeros.
#[tactic(auto, using(crate::proofs::Symbols::box_given, crate::proofs::Symbols::box_refused))]
pub fn aabb(kind: u8, n: u8, x: u16, y: u16) -> BoundsReply
    ensures { result ≡ aabb_of kind n x y }
{
    match placeable(kind, n, x, y) {
        Ok(()) => BoundsReply {
            reply: 0,
            bounds: bounds_at(kind, n, x, y),
        },
        Err(r) => BoundsReply {
            reply: u8::from(r),
            bounds: Bounds {
                low: UNUSED,
                high: UNUSED,
            },
        },
    }
}

// Whether two boxes share a point, edges counted.
pub fn touches(a: Bounds, b: Bounds) -> bool
    ensures { result ≡ touches_of a b }
{
    (a.low.x <= b.high.x)
        & ((b.low.x <= a.high.x) & ((a.low.y <= b.high.y) & (b.low.y <= a.high.y)))
}
