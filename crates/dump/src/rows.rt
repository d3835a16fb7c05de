// The line of a row.
ghost use Rattle.std.specs.Prelude.{◌≡◌};
ghost use Rattle.dump.specs.Rows.{count_word, coordinate_word, label_word, letter_of, tally_line, wire_line, joint_line, component_line, Puts, Space};

use edge::coordinate;
use label::label_part;
use sheet::{Component, Joint, Tally, Wire};
use text::{put_byte, put_bytes, put_decimal, put_signed};

// ` <number>`
fn put_count(out: &mut [u8], at: usize, n: u32) -> usize
    requires { Space at 11 }
    ensures { Puts 11 out.old at (count_word n) out.new result }
{
    let p = put_byte(out, at, b' ');
    put_decimal(out, p, n)
}

// ` <coordinate>`, with its sign.
fn put_coordinate(out: &mut [u8], at: usize, n: u16) -> usize
    requires { Space at 6 }
    ensures { Puts 6 out.old at (coordinate_word n) out.new result }
{
    let p = put_byte(out, at, b' ');
    let z = coordinate(n);
    put_signed(out, p, z)
}

// `h` or `v`.
fn letter(vertical: bool) -> u8
    ensures { result ≡ letter_of vertical }
{
    if vertical {
        return b'v';
    }
    b'h'
}

// `T <wires> <joints> <components> <sum of all joint counts>`
pub(crate) fn put_tally(out: &mut [u8], at: usize, t: Tally) -> usize
    requires { Space at 46 }
    ensures { Puts 46 out.old at (tally_line t) out.new result }
{
    let p = put_byte(out, at, b'T');
    let p = put_count(out, p, t.wires);
    let p = put_count(out, p, t.joints);
    let p = put_count(out, p, t.components);
    let p = put_count(out, p, t.ends);
    put_byte(out, p, b'\n')
}

// `W h|v <line> <start> <end>`
pub(crate) fn put_wire(out: &mut [u8], at: usize, w: Wire) -> usize
    requires { Space at 22 }
    ensures { Puts 22 out.old at (wire_line w) out.new result }
{
    let p = put_byte(out, at, b'W');
    let p = put_byte(out, p, b' ');
    let l = letter(w.vertical);
    let p = put_byte(out, p, l);
    let p = put_coordinate(out, p, w.line);
    let p = put_coordinate(out, p, w.start);
    let p = put_coordinate(out, p, w.end);
    put_byte(out, p, b'\n')
}

// `J <x> <y> <count>`
pub(crate) fn put_joint(out: &mut [u8], at: usize, j: Joint) -> usize
    requires { Space at 25 }
    ensures { Puts 25 out.old at (joint_line j) out.new result }
{
    let p = put_byte(out, at, b'J');
    let p = put_coordinate(out, p, j.x);
    let p = put_coordinate(out, p, j.y);
    let p = put_count(out, p, j.count as u32);
    put_byte(out, p, b'\n')
}

// ` <label>`, a space even where the label is empty.
fn put_label(out: &mut [u8], at: usize, bytes: [u8; 16]) -> usize
    requires { Space at 17 }
    ensures { Puts 17 out.old at (label_word bytes) out.new result }
{
    let p = put_byte(out, at, b' ');
    let label = label_part(&bytes);
    put_bytes(out, p, label)
}

// `C <kind> <orientation> <x> <y> <label>`
pub(crate) fn put_component(out: &mut [u8], at: usize, c: Component) -> usize
    requires { Space at 53 }
    ensures { Puts 53 out.old at (component_line c) out.new result }
{
    let label = c.label;
    let p = put_byte(out, at, b'C');
    let p = put_count(out, p, c.kind as u32);
    let p = put_count(out, p, c.orientation as u32);
    let p = put_coordinate(out, p, c.x);
    let p = put_coordinate(out, p, c.y);
    let p = put_label(out, p, label);
    put_byte(out, p, b'\n')
}
