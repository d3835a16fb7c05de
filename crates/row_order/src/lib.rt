// Rules 2 and 7: no two wires of one direction share a length of line, and rows strictly rise.
#![tactic(auto)]

ghost use Rattle.std.specs.Prelude.{◌≡◌, Bool};
ghost use Rattle.lists.specs.Lists.{pairs, links};
ghost use Rattle.std.specs.List.{list_all};
ghost use Rattle.sheet.specs.Points.{rises};
ghost use Rattle.sheet.specs.Joints.{joint_point};
ghost use Rattle.sheet.specs.Parts.{ahead};
ghost use Rattle.row_order.specs.RowOrder.{share, check2, upward};
ghost use Rattle.row_order.specs.Tests.{Tests};

use sheet::{Component, Joint, Wire};

// The two wires are of one direction and share a length of line.
#[tactic(auto, unfolding(crate::specs::RowOrder::share))]
fn shares(a: Wire, b: Wire) -> bool
    ensures { result ≡ share a b }
{
    (a.vertical == b.vertical) & ((a.line == b.line) & ((a.start < b.end) & (b.start < a.end)))
}

// The row and each of the others pass the test.
fn passes_with<T, F: Fn(&T, &T) -> bool>(row: &T, others: &[T], test: &F) -> bool
    requires { F.IsAlwaysCallable test.now }
    ensures { (e : T → T → Bool) → Tests F.Fn test.now e → result ≡ list_all (e row.now) others.now }
{
    for other in others {
        if !test(row, other) {
            return false;
        }
    }
    true
}

// Each row and each later one pass the test. Two wrong answers that this rules out: a row that must also pass the test with itself
// (row_tried_with_itself), and one that need not with the next (next_row_passed_over).
pub fn every_pair<T, F: Fn(&T, &T) -> bool>(rows: &[T], test: F) -> bool
    requires { F.IsAlwaysCallable test }
    ensures { (e : T → T → Bool) → Tests F.Fn test e → result ≡ pairs e rows.now }
{
    for (i, row) in rows.iter().enumerate() {
        if !passes_with(row, &rows[i + 1..], &test) {
            return false;
        }
    }
    true
}

// Rule 2 holds.
#[tactic(auto, unfolding(crate::specs::RowOrder::check2))]
pub fn wires_apart(ws: &[Wire]) -> bool
    ensures { result ≡ check2 ws.now }
{
    every_pair(ws, |a, b| !shares(*a, *b))
}

#[tactic(auto, unfolding(crate::specs::RowOrder::upward))]
fn wire_before(a: Wire, b: Wire) -> bool
    ensures { result ≡ upward a b }
{
    (!a.vertical & b.vertical)
        | ((a.vertical == b.vertical)
            & ((a.line < b.line) | ((a.line == b.line) & (a.start < b.start))))
}

fn component_before(a: Component, b: Component) -> bool
    ensures { result ≡ ahead a b }
{
    (a.y, a.x) < (b.y, b.x)
}

fn joint_before(a: Joint, b: Joint) -> bool
    ensures { result ≡ rises (joint_point a) (joint_point b) }
{
    (a.y, a.x) < (b.y, b.x)
}

// Wire rows strictly rise.
pub fn wires_rise(ws: &[Wire]) -> bool
    ensures { result ≡ links upward ws.now }
{
    ws.is_sorted_by(|a, b| wire_before(*a, *b))
}

// Component rows strictly rise.
pub fn components_rise(cs: &[Component]) -> bool
    ensures { result ≡ links ahead cs.now }
{
    cs.is_sorted_by(|a, b| component_before(*a, *b))
}

// Joint rows strictly rise.
pub fn joints_rise(js: &[Joint]) -> bool
    ensures { result ≡ links (λ i j. rises (joint_point i) (joint_point j)) js.now }
{
    js.is_sorted_by(|a, b| joint_before(*a, *b))
}
