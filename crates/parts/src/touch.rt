// Components whose boxes share a point.
ghost use Rattle.std.specs.Prelude.{◌≡◌, true, false, MatchOption};
ghost use Rattle.std.specs.List.{list_any};
ghost use Rattle.lists.specs.First.{first_row};
ghost use Rattle.sheet.specs.Parts;
ghost use Rattle.parts.specs.Tables.{EachFits};

use crate::{box_of, meets};
use sheet::Component;

// The first row that touches c, if one does. Not the last that does (last_row_told).
pub fn first_touched(cs: &[Component], c: Component) -> Option<usize>
    requires { EachFits cs.now × Parts.PartFits c }
    ensures { MatchOption result (list_any (Parts.touches c) cs.now ≡ false) (λ row. (list_any (Parts.touches c) cs.now ≡ true) × (row ≡ first_row (Parts.touches c) cs.now)) }
{
    let b = box_of(c);
    for (row, d) in cs.iter().enumerate() {
        if meets(b, *d) {
            return Some(row);
        }
    }
    None
}

// Some component touches c.
pub fn touches_any(cs: &[Component], c: Component) -> bool
    requires { EachFits cs.now × Parts.PartFits c }
    ensures { result ≡ list_any (Parts.touches c) cs.now }
{
    first_touched(cs, c).is_some()
}
