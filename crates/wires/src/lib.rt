// Wires in row order: each function does to rows what its definition says of lists.
#![tactic(auto)]

pub mod geometry;
pub mod split;
pub mod square;

use symbol::Point;
use table::Table;

// The pads of all components of a drawing: three times 128 at most.
pub type Points = Table<Point, 384>;

// A row with no point.
pub const ZERO_POINT: Point = Point { x: 0, y: 0 };
