// Points as keys, and the keys of all wire ends and pads.
ghost use Rattle.std.specs.Prelude.{◌≡◌, ◌≤◌, length};
ghost use Rattle.sheet.specs.Geometry.{ends, marks};
ghost use Rattle.joints.specs.Keys.{spot, Keyed, KeysOf};

use crate::sort::Keys;
use sheet::{Joint, Wire};
use symbol::Point;
use wires::geometry::{high_tip, low_tip};

// The key of a point: y, then x, so that keys rise as points do. Not that of its mirrored point (rows_by_column).
pub fn key(p: Point) -> u32
    ensures { spot result ≡ p }
{
    (p.y as u32) * 65536 + (p.x as u32)
}

// The key of each joint, in row order.
pub fn joint_keys(js: &[Joint]) -> [u64; 1408]
    requires { length js.now ≤ 1408 }
    ensures { KeysOf js.now result }
{
    let mut keys = [0u64; 1408];
    for (i, j) in js.iter().enumerate() {
        keys[i] = key(Point { x: j.x, y: j.y }) as u64;
    }
    keys
}

// The keys of all wire ends.
fn end_keys(ws: &[Wire]) -> Keys
    requires { length ws.now ≤ 512 }
    ensures { Keyed (ends ws.now) result }
{
    let mut out = Keys::empty(0);
    for w in ws {
        out.push(key(low_tip(*w)));
        out.push(key(high_tip(*w)));
    }
    out
}

// The keys of all wire ends and pads. Not of the wire ends alone (pads_not_counted).
pub fn mark_keys(ws: &[Wire], pads: &[Point]) -> Keys
    requires { (length ws.now ≤ 512) × (length pads.now ≤ 384) }
    ensures { Keyed (marks ws.now pads.now) result }
{
    let mut out = end_keys(ws);
    for p in pads {
        out.push(key(*p));
    }
    out
}
