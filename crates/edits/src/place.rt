// A component placed.
ghost use Rattle.std.specs.Prelude.{◌≡◌};
ghost use Rattle.sheet.specs.Parts.{PartFits, pads};
ghost use Rattle.sheet.specs.Edits;
ghost use Rattle.wires.specs.Tables.{Splits};
ghost use Rattle.joints.specs.Tables.{sheet_of, Sound};
ghost use Rattle.edits.specs.Making.{quiet, told, made};

use crate::{Made, answer};
use parts::insert::insert_part;
use parts::pads::pads_of;
use refusal::Refusal;
use sheet::{Component, Components, Wires};
use table::NoRoom;
use wires::split::split_all;

// Each pad splits each wire that it lies strictly inside.
pub(crate) fn split_at_pads(ws: Wires, c: Component) -> Result<Wires, NoRoom>
    requires { PartFits c }
    ensures { Splits (pads c) ws result }
{
    let b = pads_of(c);
    split_all(ws, &b.points[..b.count])
}

// The component goes in, whether it touches another or not: who places it asks first. Wrong answers that this rules out: the wires under its
// pads left whole (pads_do_not_split), no room for the 128th (seven_one_component_early), 11 where 7 applies too (eleven_before_seven).
#[tactic(auto, using(crate::proofs::Steps::place_no_parts))]
pub fn place(ws: Wires, cs: Components, c: Component) -> Result<Made, Refusal>
    requires { Sound ws cs × PartFits c }
    ensures { told result ≡ made (quiet (Edits.place_one c (sheet_of ws cs))) }
{
    let n = cs.count;
    let split = split_at_pads(ws, c);
    if n >= 128 {
        return Err(Refusal::TooManyComponents);
    }
    answer(split, insert_part(cs, c), 0, 0)
}
