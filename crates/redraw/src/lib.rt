// The five edits of a drawing that is known to be lawful: who holds one that these made, from the empty drawing on, need not check it.
#![tactic(auto)]

pub mod component;
pub mod pointer;
pub mod wire;

ghost use Rattle.std.specs.Prelude.{◌≡◌, IfOk};
ghost use Rattle.sheet.specs.Edits.{Outcome};
ghost use Rattle.joints.specs.Tables.{Sound};
ghost use Rattle.edits.specs.Making.{told, made};
ghost use Rattle.redraw.specs.Calls;

use edits::Made;
use joints::drawn;
use joints::tally::tally;
use refusal::Refusal;
use sheet::{Drawing, Tally};

// The reply to an edit: its number, the tally and the drawing after it, how many contacts were hit and lost, and for reply 6 the row of the
// first component that the new one touches.
// A record with a reply and not a Result: what it tells on a refusal is held by refused's clause and the edits named there.
#[derive(Clone, Copy)]
pub struct Edited {
    pub reply: u8,
    pub tally: Tally,
    pub drawing: Drawing,
    pub hit: u32,
    pub lost: u32,
    pub row: u16,
}

// "A refused edit returns the drawing received, with hit and lost 0" (not refusal_tells_a_hit), and no row (row_told_for_seven); the tally
// keeps its old content, and is not emptied (refusal_empties_the_tally).
pub fn refused(reply: u8, d: Drawing, t: Tally) -> Edited
    ensures { result ≡ Calls.refused reply d t }
{
    Edited {
        reply,
        tally: t,
        drawing: d,
        hit: 0,
        lost: 0,
        row: 0,
    }
}

// The drawing of what an edit made, and its tally; or 7 or 11, where there is no room.
pub(crate) fn finished(d: Drawing, t: Tally, answer: Result<Made, Refusal>) -> Edited
    requires { IfOk answer (λ e. Sound e.wires e.parts) }
    ensures { (o : Outcome) → told answer ≡ made o → result ≡ Calls.edited d t o }
{
    let e = match answer {
        Ok(e) => e,
        Err(r) => return refused(u8::from(r), d, t),
    };
    let drawing = drawn(e.wires, e.parts);
    let sums = tally(drawing);
    Edited {
        reply: 0,
        tally: sums,
        drawing,
        hit: e.hit,
        lost: e.lost,
        row: 0,
    }
}
