// Rule 6, against the joints counted afresh.
ghost use Rattle.std.specs.Prelude.{◌≡◌, not, ◌&&◌};
ghost use Rattle.lists.specs.Lists.{pairs};
ghost use Rattle.std.specs.List.{list_any, list_all};
ghost use Rattle.sheet.specs.Points.{same};
ghost use Rattle.sheet.specs.Joints.{joint_point};
ghost use Rattle.rules.specs.Steps.{same_row};

use crate::free::place;
use row_order::every_pair;
use sheet::Joint;
use wires::geometry::same;

#[tactic(auto, unfolding(crate::specs::Steps::same_row, sheet::specs::Points::same))]
fn is_same_row(i: Joint, j: Joint) -> bool
    ensures { result ≡ same_row i j }
{
    i == j
}

// No two rows lie at one point.
fn all_apart(js: &[Joint]) -> bool
    ensures { result ≡ pairs (λ i j. not (same (joint_point i) (joint_point j))) js.now }
{
    every_pair(js, |i, j| !same(place(*i), place(*j)))
}

// The row is among the rows.
fn has_row(js: &[Joint], i: Joint) -> bool
    ensures { result ≡ list_any (same_row i) js.now }
{
    js.iter().any(|j| is_same_row(i, *j))
}

// Each row of the first is among the second.
fn all_among(is: &[Joint], js: &[Joint]) -> bool
    ensures { result ≡ list_all (λ i. list_any (same_row i) js.now) is.now }
{
    is.iter().all(|i| has_row(js, *i))
}

// The rows are those counted afresh, in any order, each once.
pub fn all_listed(js: &[Joint], counted: &[Joint]) -> bool
    ensures { result ≡ (pairs (λ i j. not (same (joint_point i) (joint_point j))) js.now && (list_all (λ i. list_any (same_row i) js.now) counted.now && list_all (λ j. list_any (same_row j) counted.now) js.now)) }
{
    all_apart(js) & (all_among(counted, js) & all_among(js, counted))
}
