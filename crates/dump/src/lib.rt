// The rows of a drawing as text in a lent buffer.
#![tactic(auto)]

mod lines;
mod rows;

ghost use Rattle.sheet.specs.Rules.{Lawful};
ghost use Rattle.dump.specs.Rows.{row_lines, rows_of, Puts, Space};

use lines::put_lines;
use rows::{put_component, put_joint, put_tally, put_wire};
use sheet::{Drawing, Tally};
use text::put_byte;

// The tally, each wire, joint and component: 53,294 bytes always suffice. Two wrong answers that this rules out: a wire's end told before its
// start (start_and_end_swapped), and an empty label without its space (label_without_space).
pub fn put_row_lines(out: &mut [u8], at: usize, t: Tally, d: Drawing) -> usize
    requires lawful { Lawful d }
    requires space { Space at 53294 }
    ensures { Puts 53294 out.old at (row_lines t d) out.new result }
{
    let p = put_tally(out, at, t);
    let p = put_lines(put_wire, out, p, d.wires.in_use());
    let p = put_lines(put_joint, out, p, d.joints.in_use());
    put_lines(put_component, out, p, d.components.in_use())
}

// The same, and the line that ends them.
pub fn put_rows(out: &mut [u8], at: usize, t: Tally, d: Drawing) -> usize
    requires lawful { Lawful d }
    requires space { Space at 53296 }
    ensures { Puts 53296 out.old at (rows_of t d) out.new result }
{
    let p = put_row_lines(out, at, t, d);
    let p = put_byte(out, p, b'.');
    put_byte(out, p, b'\n')
}
