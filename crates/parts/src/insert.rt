// A component put into a table in row order.
ghost use Rattle.std.specs.Prelude.{◌≡◌, ◌<◌};
ghost use Rattle.std.specs.List.{position};
ghost use Rattle.lists.specs.Lists.{insert};
ghost use Rattle.sheet.specs.Parts;
ghost use Rattle.sheet.specs.Drawings.{component_rows};
ghost use Rattle.parts.specs.Tables.{TabledParts};

use sheet::{Component, Components};

// Row order: by y, then by x.
#[tactic(auto, unfolding(sheet::specs::Points::rises))]
fn ahead(b: Component, c: Component) -> bool
    ensures { result ≡ Parts.ahead b c }
{
    (b.y < c.y) | ((b.y == c.y) & (b.x < c.x))
}

// The first row that c goes before.
fn row_after(cs: &[Component], c: Component) -> Option<usize>
    ensures { result ≡ position (Parts.ahead c) cs.now }
{
    cs.iter().position(|d| ahead(c, *d))
}

// The component put in, in row order: from its place on each row goes one place on.
pub fn insert_part(cs: Components, c: Component) -> Components
    requires { TabledParts (component_rows cs) cs × (cs.count < 128) }
    ensures { TabledParts (insert Parts.ahead c (component_rows cs)) result }
{
    let n = cs.count;
    let mut out = cs;
    let from = row_after(out.in_use(), c).unwrap_or(n);
    let mut carried = c;
    for i in from..n {
        let next = out.rows[i];
        out.rows[i] = carried;
        carried = next;
    }
    out.push(carried);
    out
}
