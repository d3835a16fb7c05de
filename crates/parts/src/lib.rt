// Components in row order: each function does to rows what its definition says of lists.
#![tactic(auto)]

pub mod insert;
pub mod pads;
pub mod square;
pub mod touch;
pub mod turn;

ghost use Rattle.std.specs.Prelude.{◌≡◌};
ghost use Rattle.symbol.specs.Symbols.{touches_of};
ghost use Rattle.sheet.specs.Parts;

use sheet::Component;
use symbol::{Bounds, bounds_at, touches};

// The component's box.
pub fn box_of(c: Component) -> Bounds
    requires { Parts.PartFits c }
    ensures { result ≡ Parts.box c }
{
    bounds_at(c.kind, c.orientation, c.x, c.y)
}

// The box meets the component.
pub(crate) fn meets(b: Bounds, c: Component) -> bool
    requires { Parts.PartFits c }
    ensures { result ≡ touches_of b (Parts.box c) }
{
    touches(b, box_of(c))
}
