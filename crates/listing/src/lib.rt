// The wiring list of a drawing known to be lawful, as bytes in a lent buffer, by the net numbers of its pads.
#![tactic(auto)]

mod lines;

ghost use Rattle.std.specs.Prelude.{◌≡◌, map, ◌≤◌, length};
ghost use Rattle.lists.specs.Tables.{pad};
ghost use Rattle.sheet.specs.Drawings.{lists_of};
ghost use Rattle.sheet.specs.Rules.{Lawful};
ghost use Rattle.text.specs.Text.{Put, Room};
ghost use Rattle.text.specs.Answers.{answer_of, buffer_of};
ghost use Rattle.net_numbers.specs.Netted.{net_numbers};
ghost use Rattle.listing.specs.Listing.{entry, nth, list_with, list_of};

use lines::put_lines;
use sheet::{Component, Drawing};
use text::Written;

// The whole list, of which what fits is written: the coils, then the contacts.
fn put_list(out: &mut [u8], cs: &[Component], numbers: [u16; 384]) -> usize
    requires few { length cs.now ≤ 128 }
    requires room { Room 0 (list_with (nth numbers) (map entry cs.now)) }
    ensures { Put out.old 0 (list_with (nth numbers) (map entry cs.now)) out.new result }
{
    let p = put_lines(out, 0, cs, numbers, 2);
    put_lines(out, p, cs, numbers, 1)
}

// The list in front of the lent buffer, if the buffer has room for it, by the net numbers of the drawing's pads. A first run over a byte of
// our own tells the length. Not one list for every drawing (one_fixed_list).
pub fn write_list_by(d: Drawing, numbers: [u16; 384], out: &mut [u8]) -> Written
    requires lawful { Lawful d }
    requires numbered { numbers ≡ pad 384 0 (net_numbers (lists_of d)) }
    ensures told { result ≡ answer_of (list_of (lists_of d)) (length out.old) }
    ensures written { out.new ≡ buffer_of (list_of (lists_of d)) out.old }
{
    let cs = d.components.in_use();
    let mut own = [0u8; 1];
    let n = put_list(&mut own, cs, numbers);
    if n <= out.len() {
        put_list(out, cs, numbers);
        return Written {
            reply: 0,
            length: n,
        };
    }
    Written {
        reply: 8,
        length: 0,
    }
}
