// Contacts turned right or mirrored in their places.
ghost use Rattle.std.specs.Prelude.{◌≡◌, map, ◌+◌, ◌≤◌, length};
ghost use Rattle.sheet.specs.declared.Component.{Component};
ghost use Rattle.sheet.specs.Parts;
ghost use Rattle.sheet.specs.Edits;
ghost use Rattle.parts.specs.Tables.{EachFits};
ghost use Rattle.joints.specs.Tables.{sheet_of, Sound};
ghost use Rattle.edits.specs.Making;

use crate::Made;
use crate::delete::settled;
use crate::place::split_at_pads;
use parts::insert::insert_part;
use parts::square::{hit_contacts, keep_unhit};
use parts::touch::touches_any;
use parts::turn::{mirrored, turned_right};
use refusal::Refusal;
use sheet::{Component, Components, Wires};
use symbol::Point;

// Each component hit is altered and placed in turn; one that would touch a component is lost.
fn place_all<F: Fn(Component) -> Component>(
    ws: Wires,
    cs: Components,
    hits: &[Component],
    alter: F,
) -> Result<Made, Refusal>
    requires sound { Sound ws cs × (EachFits hits.now × (cs.count + length hits.now ≤ 128)) }
    requires callable { (c : Component) → Parts.PartFits c → F.pre alter c }
    requires fits { (c r : Component) → Parts.PartFits c → F.post alter c r → Parts.PartFits r }
    ensures { (g : Component → Component) → ((c r : Component) → Parts.PartFits c → F.post alter c r → r ≡ g c) → Making.told result ≡ Making.made (Making.placed_again (map g hits.now) (sheet_of ws cs)) }
{
    let mut wires = ws;
    let mut parts = cs;
    let mut lost: u32 = 0;
    for h in hits {
        let c = alter(*h);
        if touches_any(parts.in_use(), c) {
            lost += 1;
        } else {
            wires = match split_at_pads(wires, c) {
                Ok(split) => split,
                Err(_) => return Err(Refusal::TooManyWires),
            };
            parts = insert_part(parts, c);
        }
    }
    Ok(Made {
        wires,
        parts,
        hit: hits.len() as u32,
        lost,
    })
}

// The contacts that the square meets are taken out, the wires merged, and each placed again, altered, by rising position.
fn turn<F: Fn(Component) -> Component>(
    ws: Wires,
    cs: Components,
    p: Point,
    size: u16,
    alter: F,
) -> Result<Made, Refusal>
    requires sound { Sound ws cs × Making.Pointed p size }
    requires callable { (c : Component) → Parts.PartFits c → F.pre alter c }
    requires fits { (c r : Component) → Parts.PartFits c → F.post alter c r → Parts.PartFits r }
    ensures { (g : Component → Component) → ((c r : Component) → Parts.PartFits c → F.post alter c r → r ≡ g c) → Making.told result ≡ Making.made (Edits.turn (Edits.hits p size) g (sheet_of ws cs)) }
{
    let hits = hit_contacts(cs.in_use(), p, size);
    let parts = keep_unhit(cs.in_use(), p, size);
    let wires = settled(ws.in_use(), parts.in_use());
    place_all(wires, parts, hits.in_use(), alter)
}

pub fn turn_right(ws: Wires, cs: Components, p: Point, size: u16) -> Result<Made, Refusal>
    requires { Sound ws cs × Making.Pointed p size }
    ensures { Making.told result ≡ Making.made (Edits.turn_right p size (sheet_of ws cs)) }
{
    turn(ws, cs, p, size, |c| turned_right(c))
}

// Not the turn's orientation, with which one of two neighbours may be lost (mirror_takes_the_turn).
pub fn mirror(ws: Wires, cs: Components, p: Point, size: u16) -> Result<Made, Refusal>
    requires { Sound ws cs × Making.Pointed p size }
    ensures { Making.told result ≡ Making.made (Edits.mirror p size (sheet_of ws cs)) }
{
    turn(ws, cs, p, size, |c| mirrored(c))
}
