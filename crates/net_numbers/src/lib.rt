// The net numbers of a drawing's pads: its joints numbered by their rows, found by key, and then the nets.
#![tactic(auto)]

ghost use Rattle.std.specs.Prelude.{◌≡◌, ◌≤◌, length};
ghost use Rattle.std.specs.List.{filter};
ghost use Rattle.lists.specs.Tables.{pad};
ghost use Rattle.sheet.specs.Geometry.{ends};
ghost use Rattle.sheet.specs.Drawings.{component_rows, lists_of};
ghost use Rattle.sheet.specs.Rules.{Lawful};
ghost use Rattle.parts.specs.Tables.{TabledParts};
ghost use Rattle.joints.specs.Keys.{KeysOf};
ghost use Rattle.net_numbers.specs.Netted.{is_power, net_numbers};
ghost use Rattle.net_numbers.specs.Found.{Ascending, IndexOf, NumberAt, Jointed, LinksIn, PadsIn};

use joints::keys::{joint_keys, key};
use nets::{Link, Links, Pads, pad_nets};
use parts::pads::all_pads;
use sheet::{Components, Drawing, Joint, Wire, ZERO_COMPONENT};
use symbol::Point;
use wires::geometry::{high_tip, low_tip};

// The place of a key among rising ones, if it has one, by halving. `binary_search` was tried: docs/DESIGN-PASS.md.
fn find(keys: &[u64; 1408], n: usize, k: u64) -> usize
    requires { Ascending keys.now n }
    ensures { IndexOf keys.now n k result }
{
    let mut low = 0;
    let mut high = n;
    while low + 1 < high {
        let mid = (low + high) / 2;
        if k < keys[mid] {
            high = mid;
        } else {
            low = mid;
        }
    }
    low
}

// The number of the joint at a point: its row, counted from 1.
fn number_of(keys: &[u64; 1408], n: usize, p: Point) -> u16
    requires { Ascending keys.now n }
    ensures { NumberAt keys.now n p result }
{
    let k = key(p) as u64;
    let i = find(keys, n, k);
    (i + 1) as u16
}

// The wires by the numbers of the joints at their ends.
fn links(ws: &[Wire], js: &[Joint], keys: &[u64; 1408]) -> Links
    requires { (length ws.now ≤ 512) × (Jointed (ends ws.now) js.now × KeysOf js.now keys.now) }
    ensures { LinksIn js.now ws.now result }
{
    let zero = Link { from: 0, to: 0 };
    let mut rows = [zero; 512];
    for (i, w) in ws.iter().enumerate() {
        let from = number_of(keys, js.len(), low_tip(*w));
        let to = number_of(keys, js.len(), high_tip(*w));
        rows[i] = Link { from, to };
    }
    Links {
        rows,
        count: ws.len(),
    }
}

// Points by the numbers of their joints.
fn joint_numbers(ps: &[Point], js: &[Joint], keys: &[u64; 1408]) -> Pads
    requires { (length ps.now ≤ 384) × (Jointed ps.now js.now × KeysOf js.now keys.now) }
    ensures { PadsIn js.now ps.now result }
{
    let mut rows = [0u16; 384];
    for (i, p) in ps.iter().enumerate() {
        rows[i] = number_of(keys, js.len(), *p);
    }
    Pads {
        rows,
        count: ps.len(),
    }
}

// The power symbols, in row order.
fn powers(cs: Components) -> Components
    requires { cs.count ≤ 128 }
    ensures { TabledParts (filter is_power (component_rows cs)) result }
{
    let mut out = Components {
        rows: [ZERO_COMPONENT; 128],
        count: 0,
    };
    for i in 0..cs.count {
        let c = cs.rows[i];
        if c.kind == 0 {
            out.push(c);
        }
    }
    out
}

// The net numbers of all pads, and zeros behind them.
pub fn pad_numbers(d: Drawing) -> [u16; 384]
    requires { Lawful d }
    ensures { result ≡ pad 384 0 (net_numbers (lists_of d)) }
{
    let ws = d.wires;
    let cs = d.components;
    let js = d.joints;
    let joints = js.in_use();
    let keys = joint_keys(joints);
    let wires = links(ws.in_use(), joints, &keys);
    let sources = powers(cs);
    let feeding = all_pads(sources.in_use());
    let fed = joint_numbers(feeding.in_use(), joints, &keys);
    let points = all_pads(cs.in_use());
    let pads = joint_numbers(points.in_use(), joints, &keys);
    pad_nets(wires, fed, pads)
}
