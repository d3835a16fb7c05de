// Rows put behind those of a table, cut at marks along the new wire.
ghost use Rattle.std.specs.Prelude.{◌≡◌, false, ℕ, ◌+◌, ◌-◌, ◌≤◌, get_or, MatchResult};
ghost use Rattle.std.specs.List.{flat_map};
ghost use Rattle.add_wire.specs.Marks.{is_crossed, cut_across, cut_from, Adds, Over};

use sheet::{Wire, Wires};
use table::NoRoom;
use wires::geometry::{inside, on, point_of};
use wires::split::{left, right};

// The wire lies across n and has a mark of n strictly inside.
fn is_crossed(n: Wire, marks: &[bool; 12001], w: Wire) -> bool
    requires { n.end ≤ 12000 }
    ensures { result ≡ is_crossed n marks.now w }
{
    if w.vertical == n.vertical {
        return false;
    }
    let p = point_of(n.vertical, n.line, w.line);
    if on(p, n) & inside(p, w) {
        return marks[w.line as usize];
    }
    false
}

// The rows go behind those of the table, each split where n crosses it at a mark.
pub fn cut_rows(out: &mut Wires, ws: &[Wire], n: Wire, marks: &[bool; 12001]) -> Result<(), NoRoom>
    requires { n.end ≤ 12000 }
    ensures { MatchResult result (λ _. Adds (flat_map (cut_across n marks.now) ws.now) out.old out.new) (λ _. Over (flat_map (cut_across n marks.now) ws.now) out.old) }
{
    for w in ws {
        if is_crossed(n, marks, *w) {
            let p = point_of(n.vertical, n.line, w.line);
            out.try_push(left(p, *w))?;
            out.try_push(right(p, *w))?;
        } else {
            out.try_push(*w)?;
        }
    }
    Ok(())
}

// The run goes behind the rows of the table, cut at each mark from one end of n to the other: w is what is left of it.
pub fn cut_run(out: &mut Wires, run: Wire, n: Wire, marks: &[bool; 12001]) -> Result<(), NoRoom>
    requires { n.end ≤ 12000 }
    ensures { MatchResult result (λ _. Adds (cut_from (λ a. get_or marks.now a false) n.start (n.end + 1 - n.start) run) out.old out.new) (λ _. Over (cut_from (λ a. get_or marks.now a false) n.start (n.end + 1 - n.start) run) out.old) }
{
    let mut w = run;
    for a in n.start..n.end + 1 {
        if marks[a as usize] & ((w.start < a) & (a < w.end)) {
            out.try_push(Wire { end: a, ..w })?;
            w.start = a;
        }
    }
    out.try_push(w)
}
