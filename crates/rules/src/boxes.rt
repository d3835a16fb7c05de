// Rule 5: no two component boxes share a point, edges counted.
ghost use Rattle.std.specs.Prelude.{◌≡◌, ◌≤◌, length};
ghost use Rattle.parts.specs.Tables.{EachFits};
ghost use Rattle.rules.specs.Check.{touching_from};
ghost use Rattle.rules.specs.Touching.{as_touching};

use parts::box_of;
use sheet::Component;
use symbol::touches;

// The first pair of rows whose boxes share a point, by lower row and then higher: two nested walks left by a label, the form that document 01 names for
// this place.
pub fn first_touching(cs: &[Component]) -> Option<(u16, u16)>
    requires { (length cs.now ≤ 128) × EachFits cs.now }
    ensures { as_touching result ≡ touching_from 0 cs.now }
{
    let mut met = None;
    'walk: for (i, a) in cs.iter().enumerate() {
        let p = box_of(*a);
        for j in i + 1..cs.len() {
            let q = box_of(cs[j]);
            if touches(p, q) {
                met = Some((i as u16, j as u16));
                break 'walk;
            }
        }
    }
    met
}
