// The lines of the list.
ghost use Rattle.std.specs.Prelude.{map, ◌≤◌, length};
ghost use Rattle.text.specs.Text.{Put, Room};
ghost use Rattle.listing.specs.Listing.{net_word, pin_word, relay, switch, entry, lines_in, kind_lines, nth};

use label::label_part;
use parts::pads::pads_of_kind;
use sheet::Component;
use text::{put_byte, put_bytes, put_decimal};

// ` N<net>`
fn put_net(out: &mut [u8], at: usize, net: u16) -> usize
    requires { Room at (net_word net) }
    ensures { Put out.old at (net_word net) out.new result }
{
    let p = put_byte(out, at, b' ');
    let p = put_byte(out, p, b'N');
    put_decimal(out, p, net as u32)
}

// ` <label>.<pin>`
fn put_pin(out: &mut [u8], at: usize, label: &[u8], pin: u8) -> usize
    requires { Room at (pin_word label.now pin) }
    ensures { Put out.old at (pin_word label.now pin) out.new result }
{
    let p = put_byte(out, at, b' ');
    let p = put_bytes(out, p, label);
    let p = put_byte(out, p, b'.');
    put_byte(out, p, pin)
}

// A coil's line, `R N<net> <label>.A <label>.B`.
fn put_relay(out: &mut [u8], at: usize, label: &[u8], net: u16) -> usize
    requires { Room at (relay label.now net) }
    ensures { Put out.old at (relay label.now net) out.new result }
{
    let p = put_byte(out, at, b'R');
    let p = put_net(out, p, net);
    let p = put_pin(out, p, label, b'A');
    let p = put_pin(out, p, label, b'B');
    put_byte(out, p, b'\n')
}

// A contact's line, `S <label>.<pin> N<C> N<net>`.
fn put_switch(out: &mut [u8], at: usize, label: &[u8], pin: u8, c: u16, net: u16) -> usize
    requires { Room at (switch label.now pin c net) }
    ensures { Put out.old at (switch label.now pin c net) out.new result }
{
    let p = put_byte(out, at, b'S');
    let p = put_pin(out, p, label, pin);
    let p = put_net(out, p, c);
    let p = put_net(out, p, net);
    put_byte(out, p, b'\n')
}

// A component's part in the lines of one kind, its pads being on the nets n, a and b.
fn put_part(out: &mut [u8], at: usize, c: Component, kind: u8, n: u16, a: u16, b: u16) -> usize
    requires { Room at (lines_in kind (entry c) n a b) }
    ensures { Put out.old at (lines_in kind (entry c) n a b) out.new result }
{
    if c.kind != kind {
        return at;
    }
    let bytes = c.label;
    let label = label_part(&bytes);
    if kind == 1 {
        let p = put_switch(out, at, label, b'A', n, a);
        return put_switch(out, p, label, b'B', n, b);
    }
    if kind == 2 {
        return put_relay(out, at, label, n);
    }
    at
}

// The lines of all components of one kind, in row order.
pub(crate) fn put_lines(
    out: &mut [u8],
    at: usize,
    cs: &[Component],
    numbers: [u16; 384],
    kind: u8,
) -> usize
    requires few { length cs.now ≤ 128 }
    requires room { Room at (kind_lines (nth numbers) kind 0 (map entry cs.now)) }
    ensures { Put out.old at (kind_lines (nth numbers) kind 0 (map entry cs.now)) out.new result }
{
    let mut next = at;
    let mut pad: usize = 0;
    for c in cs {
        let (n, a, b) = (numbers[pad], numbers[pad + 1], numbers[pad + 2]);
        next = put_part(out, next, *c, kind, n, a, b);
        pad += pads_of_kind(c.kind);
    }
    next
}
