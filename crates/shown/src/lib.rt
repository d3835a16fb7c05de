// What is printed of a file: the reply, and for 0 the drawing's rows, its wiring list and the number of its loose pads.
#![tactic(auto)]

ghost use Rattle.std.specs.Prelude.{◌≡◌, ◌≤◌, length};
ghost use Rattle.sheet.specs.Rules.{Lawful};
ghost use Rattle.shown.specs.Shown.{drawing_shown, shown_of, Shows};

use dump::put_row_lines;
use joints::tally::tally;
use opening::open;
use redraw::refused;
use script::Command;
use sheet::Drawing;
use step::NO_TALLY;
use telling::{put_numbered, tell};

// The rows, the list and `E <loose>`, behind the first `at` bytes of a buffer.
fn show_drawing(d: Drawing, out: &mut [u8], at: usize) -> usize
    requires lawful { Lawful d }
    requires room { (at ≤ 40) × (65536 ≡ length out.old) }
    ensures { Shows out.old at (drawing_shown d) out.new result }
{
    let t = tally(d);
    let p = put_row_lines(out, at, t, d);
    let e = refused(0, d, NO_TALLY);
    let s = tell(e, Some(Command::Nets), &mut out[p..]);
    p + s.length
}

// What is printed of a file, in front of a buffer.
pub fn show(bytes: &[u8], out: &mut [u8]) -> usize
    requires { 65536 ≡ length out.old }
    ensures { Shows out.old 0 (shown_of bytes.now) out.new result }
{
    let o = open(bytes);
    let p = put_numbered(out, b'A', o.reply as u32);
    if o.reply != 0 {
        return p;
    }
    let d = o.drawing;
    show_drawing(d, out, p)
}
