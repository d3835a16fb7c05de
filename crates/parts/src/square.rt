// Components that the square about the pointer meets.
ghost use Rattle.std.specs.Prelude.{◌≡◌, not, ◌&&◌, Bool, ◌≤◌, length};
ghost use Rattle.std.specs.List.{filter};
ghost use Rattle.lists.specs.Lists.{◌∈◌};
ghost use Rattle.symbol.specs.Symbols.{touches_of};
ghost use Rattle.sheet.specs.declared.Component.{Component};
ghost use Rattle.sheet.specs.Edits;
ghost use Rattle.sheet.specs.Parts;
ghost use Rattle.parts.specs.Tables.{EachFits, TabledParts};

use crate::meets;
use orientation::can_turn;
use sheet::{Component, Components, ZERO_COMPONENT};
use symbol::{Bounds, Point};
use wires::square::square;

// The components that pass the test, in order.
fn keep<F: Fn(Component) -> bool>(cs: &[Component], test: F) -> Components
    requires small { length cs.now ≤ 128 }
    requires callable { (c : Component) → c ∈ cs.now → F.pre test c }
    ensures { (g : Component → Bool) → ((c : Component) (r : Bool) → c ∈ cs.now → F.post test c r → r ≡ g c) → TabledParts (filter g cs.now) result }
{
    let mut out = Components {
        rows: [ZERO_COMPONENT; 128],
        count: 0,
    };
    for c in cs {
        if test(*c) {
            out.push(*c);
        }
    }
    out
}

// A contact that the box meets.
fn is_hit(b: Bounds, c: Component) -> bool
    requires { Parts.PartFits c }
    ensures { result ≡ (Parts.is_contact c && touches_of b (Parts.box c)) }
{
    can_turn(c.kind) & meets(b, c)
}

// The components that the square does not meet.
pub fn keep_unmet(cs: &[Component], p: Point, size: u16) -> Components
    requires { EachFits cs.now × ((length cs.now ≤ 128) × ((p.x ≤ 12000) × ((p.y ≤ 12000) × (size ≤ 1000)))) }
    ensures { TabledParts (filter (λ c. not (Edits.meets_part p size c)) cs.now) result }
{
    let b = square(p, size);
    keep(cs, |c| !meets(b, c))
}

// All components but the contacts that the square meets.
pub fn keep_unhit(cs: &[Component], p: Point, size: u16) -> Components
    requires { EachFits cs.now × ((length cs.now ≤ 128) × ((p.x ≤ 12000) × ((p.y ≤ 12000) × (size ≤ 1000)))) }
    ensures { TabledParts (filter (λ c. not (Edits.hits p size c)) cs.now) result }
{
    let b = square(p, size);
    keep(cs, |c| !is_hit(b, c))
}

// The contacts that the square meets.
pub fn hit_contacts(cs: &[Component], p: Point, size: u16) -> Components
    requires { EachFits cs.now × ((length cs.now ≤ 128) × ((p.x ≤ 12000) × ((p.y ≤ 12000) × (size ≤ 1000)))) }
    ensures { TabledParts (filter (Edits.hits p size) cs.now) result }
{
    let b = square(p, size);
    keep(cs, |c| is_hit(b, c))
}
