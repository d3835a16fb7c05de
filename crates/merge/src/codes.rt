// Wire ends and pads as numbers.
ghost use Rattle.std.specs.Prelude.{◌≡◌, ◌≤◌, length};
ghost use Rattle.std.specs.List.{flat_map};
ghost use Rattle.merge.specs.Codes.{kind_of, mark, end_marks, marks_with_kind, code_of, Codable, Coded, number_rows};

use crate::Numbers;
use sheet::Wire;
use symbol::Point;
use wires::geometry::{high_tip, low_tip};

// 1 for the end of a vertical wire, 0 for that of a horizontal one.
pub fn kind_of(vertical: bool) -> u64
    ensures { (result ≡ kind_of vertical) × (result ≤ 1) }
{
    if vertical { 1 } else { 0 }
}

// A mark as one number.
pub fn code(kind: u64, p: Point) -> u64
    requires { kind ≤ 2 }
    ensures { (result ≡ code_of (mark kind p)) × Codable (mark kind p) }
{
    (p.x as u64) + 65536 * (p.y as u64) + 4294967296 * kind
}

// The numbers of all wire ends.
fn end_codes(ws: &[Wire]) -> Numbers
    requires { length ws.now ≤ 512 }
    ensures { Coded (flat_map end_marks ws.now) (number_rows result) × (result.count ≤ 1024) }
{
    let mut out = Numbers::empty(0);
    for w in ws {
        let kind = kind_of(w.vertical);
        out.push(code(kind, low_tip(*w)));
        out.push(code(kind, high_tip(*w)));
    }
    out
}

// The numbers of all wire ends and pads.
pub fn mark_codes(ws: &[Wire], pads: &[Point]) -> Numbers
    requires { (length ws.now ≤ 512) × (length pads.now ≤ 384) }
    ensures { Coded (marks_with_kind ws.now pads.now) (number_rows result) × (result.count ≤ 1408) }
{
    let mut out = end_codes(ws);
    for p in pads {
        out.push(code(2, *p));
    }
    out
}
