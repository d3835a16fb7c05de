// The edits about a pointer: what the square of half-width size about it meets is deleted, turned right or mirrored.
ghost use Rattle.std.specs.Prelude.{◌≡◌};
ghost use Rattle.sheet.specs.Drawings.{lists_of};
ghost use Rattle.sheet.specs.Rules.{Lawful};
ghost use Rattle.joints.specs.Tables.{sheet_of, Sound};
ghost use Rattle.edits.specs.Making.{told, made, Pointed};
ghost use Rattle.redraw.specs.Acts;
ghost use Rattle.redraw.specs.Calls;

use crate::{Edited, finished, refused};
use asked::asked_pointer;
use edits::Made;
use edits::delete::delete;
use edits::turn::{mirror, turn_right};
use refusal::Refusal;
use sheet::{Components, Drawing, Tally, Wires};
use symbol::Point;

// What becomes of that which the square meets.
// An enum and no closure: a closure needs three clauses in its place (what it asks, what it makes, that this is sound), and this one match.
#[derive(Clone, Copy)]
pub enum Act {
    Delete,
    TurnRight,
    Mirror,
}

fn acted(act: Act, ws: Wires, cs: Components, p: Point, size: u16) -> Result<Made, Refusal>
    requires { Sound ws cs × Pointed p size }
    ensures { told result ≡ made (Acts.acted act p size (sheet_of ws cs)) }
{
    match act {
        Act::Delete => delete(ws, cs, p, size),
        Act::TurnRight => turn_right(ws, cs, p, size),
        Act::Mirror => mirror(ws, cs, p, size),
    }
}

fn act_on(d: Drawing, act: Act, x: i32, y: i32, size: i32, t: Tally) -> Edited
    requires { Lawful d }
    ensures { result ≡ Calls.pointed d x y size t (λ p n. Acts.acted act p n (lists_of d)) }
{
    let a = match asked_pointer(x, y, size) {
        Ok(a) => a,
        Err(r) => return refused(u8::from(r), d, t),
    };
    let ws = d.wires;
    let cs = d.components;
    let e = acted(act, ws, cs, a.point, a.size);
    finished(d, t, e)
}

// "Delete." Two wrong answers that this rules out: the drawing received with reply 0 (drawing_untouched), and a refusal with a
// tally of zeros (refusal_empties_the_tally).
pub fn delete_on(d: Drawing, x: i32, y: i32, size: i32, t: Tally) -> Edited
    requires { Lawful d }
    ensures { result ≡ Calls.delete_at d x y size t }
{
    act_on(d, Act::Delete, x, y, size, t)
}

// "Turn right, mirror.", the turn. Two wrong answers that this rules out: as many told as hit as were lost (hit_invented), and as many told
// as lost as were hit (lost_invented).
pub fn rotate_on(d: Drawing, x: i32, y: i32, size: i32, t: Tally) -> Edited
    requires { Lawful d }
    ensures { result ≡ Calls.rotate_at d x y size t }
{
    act_on(d, Act::TurnRight, x, y, size, t)
}

// "Turn right, mirror.", the mirror. Two wrong answers that this rules out: contacts turned right (`edits`' mirror_takes_the_turn), and as many
// told as lost as were hit (lost_invented).
pub fn mirror_on(d: Drawing, x: i32, y: i32, size: i32, t: Tally) -> Edited
    requires { Lawful d }
    ensures { result ≡ Calls.mirror_at d x y size t }
{
    act_on(d, Act::Mirror, x, y, size, t)
}
