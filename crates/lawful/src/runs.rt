// Rules 3 and 4: each wire goes from a joint to the next one of its line, and where two wires go on in line more than their two
// ends meet.
ghost use Rattle.std.specs.Prelude.{◌≡◌, true, false, ◌-◌, ◌≤◌, ◌<◌, ⊤, MatchOption, length, get_or};
ghost use Rattle.sheet.specs.Joints.{Rising};
ghost use Rattle.sheet.specs.Drawings.{zero_joint};
ghost use Rattle.lawful.specs.Looks.{clears, Chained, Clear, Runs};

use crate::columns::{Columns, by_column, column, index, next_row};
use merge::goes_on;
use sheet::{Joint, Wire};
use symbol::Point;
use wires::geometry::{high_tip, low_tip, same};

// The joints i and j are the two ends of wire w, and where wire a goes on in it more than their two ends lie at i.
fn is_clear(a: Wire, w: Wire, i: Joint, j: Joint) -> bool
    ensures { result ≡ clears a w i j }
{
    let p = Point { x: i.x, y: i.y };
    let q = Point { x: j.x, y: j.y };
    (same(p, low_tip(w)) & same(q, high_tip(w))) & (!goes_on(a, w) | !(i.count == 2))
}

// The first row from k on to which the horizontal wire w goes from the row before it.
fn level_from(a: Wire, w: Wire, js: &[Joint], k: usize) -> Option<usize>
    requires { 1 ≤ k }
    ensures { MatchOption result ⊤ (λ q. (k ≤ q) × ((q < length js.now) × (clears a w (get_or js.now (q - 1) zero_joint) (get_or js.now q zero_joint) ≡ true))) }
{
    for q in k..js.len() {
        if is_clear(a, w, js[q - 1], js[q]) {
            return Some(q);
        }
    }
    None
}

// Horizontal wires: joint rows of one line stand next to each other. Those that follow are tried until they fit.
pub fn levels_clear(ws: &[Wire], js: &[Joint]) -> bool
    requires { Rising js.now }
    ensures { result ≡ true → Runs false js.now ws.now }
{
    let Some(first) = ws.first() else {
        return true;
    };
    let mut last = *first;
    let mut k = 1;
    for w in ws {
        if !w.vertical {
            let Some(q) = level_from(last, *w, js, k) else {
                return false;
            };
            k = q;
        }
        last = *w;
    }
    true
}

// The vertical wire w goes from a joint of its column to the next one; those that end below it are done with. No more are tried than there
// are joints.
fn goes_upright(a: Wire, w: Wire, js: &[Joint], cols: &mut Columns) -> bool
    requires { (length js.now ≤ 1408) × (Rising js.now × (Chained js.now (length js.now) cols.old.next × (w.vertical ≡ true))) }
    ensures { (cols.new.next ≡ cols.old.next) × (result ≡ true → Clear js.now a w) }
{
    let c = column(w.line);
    for _tried in js {
        let k = index(cols.first[c]);
        let r = next_row(&cols.next, js.len(), k);
        if js.len() <= r {
            return false;
        }
        if is_clear(a, w, js[k], js[r]) {
            return true;
        }
        cols.first[c] = cols.next[k];
    }
    false
}

// Vertical wires: each column is followed along its own chain, and first tells how far.
pub fn uprights_clear(ws: &[Wire], js: &[Joint]) -> bool
    requires { (length js.now ≤ 1408) × Rising js.now }
    ensures { result ≡ true → Runs true js.now ws.now }
{
    let Some(first) = ws.first() else {
        return true;
    };
    let mut cols = by_column(js);
    let mut last = *first;
    for w in ws {
        if w.vertical && !goes_upright(last, *w, js, &mut cols) {
            return false;
        }
        last = *w;
    }
    true
}
