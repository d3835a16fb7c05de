// The empty drawing.
#![tactic(auto)]

ghost use Rattle.std.specs.Prelude.{◌≡◌};
ghost use Rattle.sheet.specs.Drawings.{empty_sheet};
ghost use Rattle.sheet.specs.Drawings;
ghost use Rattle.sheet.specs.Rules.{Lawful};

use joints::drawn;
use sheet::{Components, Drawing, Wires, ZERO_COMPONENT, ZERO_WIRE};

// The drawing that a script starts from, and that the reader hands back on refusal.
pub fn empty_drawing() -> Drawing
    ensures { (result ≡ Drawings.drawn empty_sheet) × Lawful result }
{
    drawn(Wires::empty(ZERO_WIRE), Components::empty(ZERO_COMPONENT))
}
