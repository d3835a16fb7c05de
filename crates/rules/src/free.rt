// Rules 3 and 4, over the joints of the wires and pads, counted afresh.
ghost use Rattle.std.specs.Prelude.{◌≡◌};
ghost use Rattle.std.specs.List.{list_any, list_all};
ghost use Rattle.sheet.specs.Joints.{joint_point, count_at};
ghost use Rattle.rules.specs.Check.{free};
ghost use Rattle.merge.specs.Following.{goes_on};
ghost use Rattle.rules.specs.Steps.{parted};

use merge::goes_on;
use sheet::{Joint, Wire};
use symbol::Point;
use wires::geometry::{high_tip, inside, same};

// Where the joint lies.
pub(crate) fn place(j: Joint) -> Point
    ensures { result ≡ joint_point j }
{
    Point { x: j.x, y: j.y }
}

// The point lies strictly inside no wire.
#[tactic(auto, unfolding(crate::specs::Check::free))]
fn is_free(ws: &[Wire], p: Point) -> bool
    ensures { result ≡ free ws.now p }
{
    ws.iter().all(|w| !inside(p, *w))
}

// No joint lies strictly inside a wire.
pub fn none_inside(ws: &[Wire], js: &[Joint]) -> bool
    ensures { result ≡ list_all (λ j. free ws.now (joint_point j)) js.now }
{
    js.iter().all(|j| is_free(ws, place(*j)))
}

// Some wire goes on in line where a ends.
fn some_goes_on(ws: &[Wire], a: Wire) -> bool
    ensures { result ≡ list_any (goes_on a) ws.now }
{
    ws.iter().any(|b| goes_on(a, *b))
}

// The count at the point, 0 where no row has it.
fn count_at(js: &[Joint], p: Point) -> u16
    ensures { result ≡ count_at p js.now }
{
    for j in js {
        if same(p, place(*j)) {
            return j.count;
        }
    }
    0
}

#[tactic(auto, unfolding(crate::specs::Steps::parted))]
fn is_parted(ws: &[Wire], js: &[Joint], a: Wire) -> bool
    ensures { result ≡ parted ws.now js.now a }
{
    !some_goes_on(ws, a) | !(count_at(js, high_tip(a)) == 2)
}

// Where a wire goes on in line in another, more than their two ends meet.
pub fn all_parted(ws: &[Wire], js: &[Joint]) -> bool
    ensures { result ≡ list_all (parted ws.now js.now) ws.now }
{
    ws.iter().all(|a| is_parted(ws, js, *a))
}
