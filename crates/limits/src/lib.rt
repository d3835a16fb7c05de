// Rule 1: counts are within the rooms, rows beyond the counts are all zero, and each wire and component meets the limits.
#![tactic(auto)]

ghost use Rattle.std.specs.Prelude.{◌≡◌, ◌≤◌, drop};
ghost use Rattle.std.specs.List.{list_all};
ghost use Rattle.limits.specs.Limits.{blank_wire, blank_component, blank_joint, wire_fits, component_fits, rooms, blanks, limits, check1};

use edge::is_position;
use label::label_ok;
use sheet::{Component, Drawing, Joint, Wire};
use symbol::is_known;
use table::Table;

#[tactic(auto, unfolding(crate::specs::Limits::blank_wire))]
fn is_blank_wire(w: Wire) -> bool
    ensures { result ≡ blank_wire w }
{
    w == Wire {
        vertical: false,
        line: 0,
        start: 0,
        end: 0,
    }
}

#[tactic(auto, unfolding(crate::specs::Limits::blank_joint))]
fn is_blank_joint(j: Joint) -> bool
    ensures { result ≡ blank_joint j }
{
    j == Joint {
        x: 0,
        y: 0,
        count: 0,
    }
}

#[tactic(auto, unfolding(crate::specs::Limits::blank_component), using(crate::proofs::Blank::zero_label))]
fn is_blank_component(c: Component) -> bool
    ensures { result ≡ blank_component c }
{
    c == Component {
        kind: 0,
        orientation: 0,
        x: 0,
        y: 0,
        label: [0; 16],
    }
}

#[tactic(auto, unfolding(crate::specs::Limits::wire_fits))]
fn wire_fits(w: Wire) -> bool
    ensures { result ≡ wire_fits w }
{
    (w.line <= 12000) & ((w.start < w.end) & (w.end <= 12000))
}

#[tactic(auto, unfolding(crate::specs::Limits::component_fits))]
fn component_fits(c: Component) -> bool
    ensures { result ≡ component_fits c }
{
    let bytes = c.label;
    is_known(c.kind, c.orientation) & (is_position(c.x) & (is_position(c.y) & label_ok(bytes)))
}

// Counts are within the rooms.
#[tactic(auto, unfolding(crate::specs::Limits::rooms))]
fn in_rooms(d: &Drawing) -> bool
    ensures { result ≡ rooms d.now }
{
    (d.wires.count <= 512) & ((d.components.count <= 128) & (d.joints.count <= 1408))
}

// The rows beyond the count.
fn beyond<T, const N: usize>(t: &Table<T, N>) -> &[T]
    requires { t.now.count ≤ N }
    ensures { result.now ≡ drop t.now.count t.now.rows }
{
    let rows = &t.rows[..];
    &rows[t.count..]
}

fn wires_blank(ws: &[Wire]) -> bool
    ensures { result ≡ list_all blank_wire ws.now }
{
    ws.iter().all(|w| is_blank_wire(*w))
}

fn components_blank(cs: &[Component]) -> bool
    ensures { result ≡ list_all blank_component cs.now }
{
    cs.iter().all(|c| is_blank_component(*c))
}

fn joints_blank(js: &[Joint]) -> bool
    ensures { result ≡ list_all blank_joint js.now }
{
    js.iter().all(|j| is_blank_joint(*j))
}

fn wires_fit(ws: &[Wire]) -> bool
    ensures { result ≡ list_all wire_fits ws.now }
{
    ws.iter().all(|w| wire_fits(*w))
}

fn components_fit(cs: &[Component]) -> bool
    ensures { result ≡ list_all component_fits cs.now }
{
    cs.iter().all(|c| component_fits(*c))
}

// Rows beyond the counts are all zero.
#[tactic(auto, unfolding(crate::specs::Limits::blanks))]
fn all_blank(d: &Drawing) -> bool
    requires { (d.now.wires.count ≤ 512) × ((d.now.components.count ≤ 128) × (d.now.joints.count ≤ 1408)) }
    ensures { result ≡ blanks d.now }
{
    wires_blank(beyond(&d.wires))
        & (components_blank(beyond(&d.components)) & joints_blank(beyond(&d.joints)))
}

// Each wire and component meets the limits.
#[tactic(auto, unfolding(crate::specs::Limits::limits))]
fn all_fit(d: &Drawing) -> bool
    ensures { result ≡ limits d.now }
{
    wires_fit(d.wires.in_use()) & components_fit(d.components.in_use())
}

// Rule 1 holds. Three wrong answers that this rules out: a wire past the edge of the range fits (rule_1_wire_past_the_edge), a joint row behind
// the counts holds a count (rule_1_count_behind_the_counts), a component row there an orientation (rule_1_orientation_behind_the_counts).
#[tactic(auto, unfolding(crate::specs::Limits::rooms, crate::specs::Limits::check1))]
pub fn within_limits(d: &Drawing) -> bool
    ensures { result ≡ check1 d.now }
{
    in_rooms(d) && (all_blank(d) & all_fit(d))
}
