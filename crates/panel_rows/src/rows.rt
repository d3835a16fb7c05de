// One line of a script: its answer, and behind it the rows of the drawing.
ghost use Rattle.std.specs.Prelude.{◌≤◌, length};
ghost use Rattle.sheet.specs.Rules.{Lawful};
ghost use Rattle.dump.specs.Rows.{Puts, Space};
ghost use Rattle.panel_rows.specs.Printing.{behind, PrintsRows};

use dump::put_rows;
use joints::tally::tally;
use script::read_line;
use sheet::Drawing;
use step::{NO_TALLY, step_on};
use telling::asks_list;
use text::put_byte;

// The drawing after a line, and how many bytes of the lent buffer the line printed.
#[derive(Clone, Copy)]
pub struct Printed {
    pub drawing: Drawing,
    pub length: usize,
}

// What stands behind an answer.
fn put_behind(out: &mut [u8], at: usize, list: bool, d: Drawing) -> usize
    requires lawful { Lawful d }
    requires space { Space at 53296 }
    ensures { Puts 53296 out.old at (behind list d) out.new result }
{
    if list {
        let p = put_byte(out, at, b'.');
        return put_byte(out, p, b'\n');
    }
    let t = tally(d);
    put_rows(out, at, t, d)
}

// What a line does and prints: 61,488 bytes always suffice, 8,192 for the answer and 53,296 for the rows.
pub(crate) fn rows_step(d: Drawing, line: &[u8], out: &mut [u8]) -> Printed
    requires room { 61488 ≤ length out.old }
    requires lawful { Lawful d }
    ensures { PrintsRows d line.now out.old out.new result }
{
    let list = asks_list(read_line(line));
    let room: usize = 8192;
    let s = step_on(d, line, NO_TALLY, &mut out[..room]);
    let drawing = s.edited.drawing;
    let at = s.length;
    let length = put_behind(out, at, list, drawing);
    Printed { drawing, length }
}
