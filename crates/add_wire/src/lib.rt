// A new wire among the others: those that it meets go, its run comes in, cut at each joint that still stands on the wire as drawn.
#![tactic(auto)]

mod before;
mod cut;
mod marks;
mod rest;
mod run;

ghost use Rattle.std.specs.Prelude.{◌≡◌, ◌≤◌, length};
ghost use Rattle.lists.specs.Lists.{◌∈◌};
ghost use Rattle.sheet.specs.declared.Wire.{Wire};
ghost use Rattle.sheet.specs.Geometry.{Meets};
ghost use Rattle.sheet.specs.Run;
ghost use Rattle.wires.specs.Tables.{Grows};

use sheet::{Wire, Wires, ZERO_WIRE};
use symbol::Point;
use table::NoRoom;

// The rows before the run, the run and the rows behind it, each cut at the marks.
fn laid(ws: &[Wire], run: Wire, n: Wire, pads: &[Point]) -> Result<Wires, NoRoom>
    requires low { n.end ≤ 12000 }
    requires same_line { (run.vertical ≡ n.vertical) × (run.line ≡ n.line) }
    requires unmet { (w : Wire) → w ∈ ws.now → Meets n w → ⊥ }
    ensures { Grows (Run.lay n run ws.now pads.now) result }
{
    let marks = marks::standing(n, ws, pads);
    let (front, back) = ws.split_at(before::row_after(ws, run).unwrap_or(ws.len()));
    let mut out = Wires::empty(ZERO_WIRE);
    cut::cut_rows(&mut out, front, n, &marks)?;
    cut::cut_run(&mut out, run, n, &marks)?;
    cut::cut_rows(&mut out, back, n, &marks)?;
    Ok(out)
}

// The wire edit. Two wrong answers that this rules out: a run cut at its own ends where no joint stands, so that a wire traced in part
// falls in three (cut_at_its_own_ends), and one not cut at a pad under it (pads_do_not_stand).
pub fn add_wire(ws: &[Wire], n: Wire, pads: &[Point]) -> Result<Wires, NoRoom>
    requires { (length ws.now ≤ 512) × (n.end ≤ 12000) }
    ensures { Grows (Run.lay_wire n ws.now pads.now) result }
{
    let rest = rest::rest_of(ws, n)?;
    laid(rest.in_use(), run::run_of(ws, n), n, pads)
}
