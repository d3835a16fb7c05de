// A drawing written as a file into a lent buffer.
#![tactic(auto)]

mod rows;

ghost use Rattle.std.specs.Prelude.{◌≡◌, ◌≤◌, length};
ghost use Rattle.sheet.specs.Drawings.{lists_of};
ghost use Rattle.sheet.specs.Rules.{Lawful};
ghost use Rattle.text.specs.Text.{Put, Room};
ghost use Rattle.saved.specs.File.{wire_bytes, part_bytes, listed, directed, file_of};
ghost use Rattle.text.specs.Answers.{answer_of, buffer_of};
ghost use Rattle.saved.specs.Answers.{saved_of, saved_in};

use groups::put_number;
use lawful::check;
use rows::{count_wires, put_components, put_wires};
use sheet::{Component, Drawing, Wire};
use text::Written;

// The wires of a direction, with their number before them.
fn put_direction(out: &mut [u8], at: usize, ws: &[Wire], vertical: bool) -> usize
    requires few { length ws.now ≤ 512 }
    requires room { Room at (listed wire_bytes (directed vertical ws.now)) }
    ensures { Put out.old at (listed wire_bytes (directed vertical ws.now)) out.new result }
{
    let n = count_wires(ws, vertical);
    let p = put_number(out, at, n as u32);
    put_wires(out, p, ws, vertical)
}

// The components, with their number before them.
fn put_parts(out: &mut [u8], at: usize, cs: &[Component]) -> usize
    requires few { length cs.now ≤ 128 }
    requires room { Room at (listed part_bytes cs.now) }
    ensures { Put out.old at (listed part_bytes cs.now) out.new result }
{
    let p = put_number(out, at, cs.len() as u32);
    put_components(out, p, cs)
}

// The whole file, of which what fits is written.
fn put_file(out: &mut [u8], ws: &[Wire], cs: &[Component]) -> usize
    requires few { (length ws.now ≤ 512) × (length cs.now ≤ 128) }
    requires room { Room 0 (file_of (record { wires = ws.now; parts = cs.now })) }
    ensures { Put out.old 0 (file_of (record { wires = ws.now; parts = cs.now })) out.new result }
{
    let p = put_direction(out, 0, ws, false);
    let p = put_direction(out, p, ws, true);
    put_parts(out, p, cs)
}

// The file in front of the lent buffer, if the buffer has room for it. A first run over a byte of our own tells the length. Not half of the
// file in a buffer too short (half_written).
pub fn save_on(d: Drawing, out: &mut [u8]) -> Written
    requires { Lawful d }
    ensures told { result ≡ answer_of (file_of (lists_of d)) (length out.old) }
    ensures written { out.new ≡ buffer_of (file_of (lists_of d)) out.old }
{
    let mut own = [0u8; 1];
    let ws = d.wires.in_use();
    let cs = d.components.in_use();
    let n = put_file(&mut own, ws, cs);
    if n <= out.len() {
        put_file(out, ws, cs);
        return Written {
            reply: 0,
            length: n,
        };
    }
    Written {
        reply: 8,
        length: 0,
    }
}

// The file of a lent drawing, written in front of the lent buffer; bytes behind it stay. 9, 8 or 0. Two wrong answers that this rules out: a
// buffer too short half written (half_written), and numbers whose groups do not tell that another follows (`groups`: no_top_bit).
pub fn save(d: Drawing, out: &mut [u8]) -> Written
    ensures told { result ≡ saved_of d (length out.old) }
    ensures written { out.new ≡ saved_in d out.old }
{
    let c = check(d);
    if c.rule != 0 {
        return Written {
            reply: 9,
            length: 0,
        };
    }
    save_on(d, out)
}
