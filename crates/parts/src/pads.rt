// The pads of one component, and of all.
ghost use Rattle.std.specs.Prelude.{◌≡◌, ◌≤◌, length};
ghost use Rattle.symbol.specs.Symbols.{pads_at};
ghost use Rattle.sheet.specs.Parts;
ghost use Rattle.parts.specs.Tables.{EachFits, Block, TabledPoints};

use sheet::Component;
use symbol::{PadBlock, Point, pads_at};
use wires::{Points, ZERO_POINT};

// The component's pads, in symbol order.
pub fn pads_of(c: Component) -> PadBlock
    requires { Parts.PartFits c }
    ensures { Block (Parts.pads c) result }
{
    pads_at(c.kind, c.orientation, c.x, c.y)
}

// The pads of all components, in row order. Of a block all three points are stored and as many counted as it counts, so that the next block
// goes over the rest. `Table::extend` was tried: docs/DESIGN-PASS.md.
pub fn all_pads(cs: &[Component]) -> Points
    requires { EachFits cs.now × (length cs.now ≤ 128) }
    ensures { TabledPoints (Parts.pads_of cs.now) result }
{
    let mut out = Points {
        rows: [ZERO_POINT; 384],
        count: 0,
    };
    for c in cs {
        let b = pads_of(*c);
        let ps = b.points;
        let k = out.count;
        out.rows[k] = ps[0];
        out.rows[k + 1] = ps[1];
        out.rows[k + 2] = ps[2];
        out.count = k + b.count;
    }
    out
}

// How many pads a component of the kind has. Not three for a coil and one for a contact (coil_with_three_pads).
#[tactic(auto, using(crate::proofs::Listing::other_kinds))]
pub fn pads_of_kind(kind: u8) -> usize
    ensures { (result ≡ length (pads_at kind)) × (result ≤ 3) }
{
    if kind == 1 { 3 } else { 1 }
}

// How many pads the components have.
pub fn count_pads(cs: &[Component]) -> usize
    requires { length cs.now ≤ 128 }
    ensures { result ≡ length (Parts.pads_of cs.now) }
{
    let mut sum = 0;
    for c in cs {
        sum += pads_of_kind(c.kind);
    }
    sum
}
