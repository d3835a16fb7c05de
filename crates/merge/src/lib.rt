// Wires in line become one where nothing holds them apart.
#![tactic(auto)]

mod codes;
mod held;

ghost use Rattle.std.specs.Prelude.{◌≡◌, ◌≤◌, length};
ghost use Rattle.sheet.specs.Merge;
ghost use Rattle.wires.specs.Tables.{Tabled};
ghost use Rattle.merge.specs.Following.{goes_on};

use sheet::{Wire, Wires, ZERO_WIRE};
use symbol::Point;
use table::Table;

// All wire ends and pads of a drawing, each as a number: twice 512 and three times 128 at most.
pub type Numbers = Table<u64, 1408>;

// b goes on in line where a ends.
#[tactic(auto, unfolding(crate::specs::Following::goes_on))]
pub fn goes_on(a: Wire, b: Wire) -> bool
    ensures { result ≡ goes_on a b }
{
    (a.vertical == b.vertical) & ((a.line == b.line) & (a.end == b.start))
}

// Wires in line become one where nothing holds them apart, in one pass from the front: cur is the wire still growing.
pub fn merge(ws: &[Wire], pads: &[Point]) -> Wires
    requires { (length ws.now ≤ 512) × (length pads.now ≤ 384) }
    ensures { Tabled (Merge.merge ws.now pads.now) result }
{
    let mut out = Wires::empty(ZERO_WIRE);
    if ws.len() == 0 {
        return out;
    }
    let held = held::held_ends(ws, pads);
    let mut cur = ws[0];
    // By index: a wire is held apart by the flag of the row before it.
    for i in 1..ws.len() {
        let b = ws[i];
        if goes_on(cur, b) & !held[i - 1] {
            cur.end = b.end;
        } else {
            out.push(cur);
            cur = b;
        }
    }
    out.push(cur);
    out
}
