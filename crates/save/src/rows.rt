// The rows of a file.
ghost use Rattle.std.specs.Prelude.{◌≡◌, length};
ghost use Rattle.std.specs.List.{flat_map};
ghost use Rattle.text.specs.Text.{Put, Room};
ghost use Rattle.saved.specs.File.{wire_bytes, label_bytes, part_bytes, directed};

use groups::put_number;
use label::label_part;
use sheet::{Component, Wire};
use text::put_bytes;

// A wire's three numbers.
fn put_wire(out: &mut [u8], at: usize, w: Wire) -> usize
    requires { Room at (wire_bytes w) }
    ensures { Put out.old at (wire_bytes w) out.new result }
{
    let p = put_number(out, at, w.line as u32);
    let p = put_number(out, p, w.start as u32);
    put_number(out, p, w.end as u32)
}

// How many wires are of the direction.
pub(crate) fn count_wires(ws: &[Wire], vertical: bool) -> usize
    ensures { result ≡ length (directed vertical ws.now) }
{
    ws.iter().filter(|w| w.vertical == vertical).count()
}

// The wires of the direction.
pub(crate) fn put_wires(out: &mut [u8], at: usize, ws: &[Wire], vertical: bool) -> usize
    requires { Room at (flat_map wire_bytes (directed vertical ws.now)) }
    ensures { Put out.old at (flat_map wire_bytes (directed vertical ws.now)) out.new result }
{
    let mut next = at;
    for w in ws {
        if w.vertical == vertical {
            next = put_wire(out, next, *w);
        }
    }
    next
}

// A label's length and its bytes.
fn put_label(out: &mut [u8], at: usize, label: &[u8]) -> usize
    requires { Room at (label_bytes label.now) }
    ensures { Put out.old at (label_bytes label.now) out.new result }
{
    let p = put_number(out, at, label.len() as u32);
    put_bytes(out, p, label)
}

// A component's four numbers and its label.
fn put_component(out: &mut [u8], at: usize, c: Component) -> usize
    requires { Room at (part_bytes c) }
    ensures { Put out.old at (part_bytes c) out.new result }
{
    let bytes = c.label;
    let label = label_part(&bytes);
    let p = put_number(out, at, c.kind as u32);
    let p = put_number(out, p, c.orientation as u32);
    let p = put_number(out, p, c.x as u32);
    let p = put_number(out, p, c.y as u32);
    put_label(out, p, label)
}

// All components.
pub(crate) fn put_components(out: &mut [u8], at: usize, cs: &[Component]) -> usize
    requires { Room at (flat_map part_bytes cs.now) }
    ensures { Put out.old at (flat_map part_bytes cs.now) out.new result }
{
    let mut next = at;
    for c in cs {
        next = put_component(out, next, *c);
    }
    next
}
