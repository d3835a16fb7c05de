// The edits on tables of a sheet: each makes the tables of what its definition says of the sheet, or says which of them has no room.
#![tactic(auto)]

pub mod delete;
pub mod draw;
pub mod place;
pub mod turn;

ghost use Rattle.std.specs.Prelude.{◌≡◌};
ghost use Rattle.sheet.specs.Edits.{Outcome};
ghost use Rattle.wires.specs.Tables.{Grows};
ghost use Rattle.parts.specs.Tables.{TabledParts};
ghost use Rattle.edits.specs.Making.{told, made};

use refusal::Refusal;
use sheet::{Components, Wires};
use table::NoRoom;

// What an edit makes: the new tables, and how many contacts were hit and lost. Where there is no room, the refusal is 7 for the components,
// 11 for the wires.
#[derive(Clone, Copy)]
pub struct Made {
    pub wires: Wires,
    pub parts: Components,
    pub hit: u32,
    pub lost: u32,
}

// The answer of wires that may have no room and of components that have.
pub(crate) fn answer(
    g: Result<Wires, NoRoom>,
    parts: Components,
    hit: u32,
    lost: u32,
) -> Result<Made, Refusal>
    ensures { (o : Outcome) → Grows o.sheet.wires g → TabledParts o.sheet.parts parts → hit ≡ o.hit → lost ≡ o.lost → told result ≡ made o }
{
    match g {
        Ok(wires) => Ok(Made {
            wires,
            parts,
            hit,
            lost,
        }),
        Err(_) => Err(Refusal::TooManyWires),
    }
}
