// The wiring list of a drawing, as bytes in a lent buffer, and the number of its loose pads.
#![tactic(auto)]

ghost use Rattle.std.specs.Prelude.{◌≡◌, length};
ghost use Rattle.sheet.specs.Drawings.{lists_of};
ghost use Rattle.sheet.specs.Rules.{Lawful};
ghost use Rattle.text.specs.Answers.{answer_of, buffer_of};
ghost use Rattle.loose_pads.specs.Counting.{loose_of};
ghost use Rattle.listing.specs.Listing.{list_of};
ghost use Rattle.netlist.specs.Answers.{netlist_of, netlist_in, loose_answer};

use lawful::check;
use listing::write_list_by;
use loose_pads::count_loose;
use net_numbers::pad_numbers;
use sheet::Drawing;
use text::Written;

// A reply, and the number of loose pads. (No Result: `loose_unlawful` tells a count beside a refusal.)
#[derive(Clone, Copy)]
pub struct LooseCount {
    pub reply: u8,
    pub count: u32,
}

// The list of a drawing known to be lawful.
pub fn write_list_on(d: Drawing, out: &mut [u8]) -> Written
    requires { Lawful d }
    ensures told { result ≡ answer_of (list_of (lists_of d)) (length out.old) }
    ensures written { out.new ≡ buffer_of (list_of (lists_of d)) out.old }
{
    write_list_by(d, pad_numbers(d), out)
}

// The number of loose pads of a drawing known to be lawful.
pub fn loose_on(d: Drawing) -> u32
    requires { Lawful d }
    ensures { result ≡ loose_of (lists_of d) }
{
    count_loose(d, pad_numbers(d))
}

// The wiring list of a lent drawing, written in front of the lent buffer; "bytes behind it stay". 9, 8 or 0. Two wrong answers that this
// rules out: a drawing that is not lawful listed (unlawful_listed), and a length told with a refusal (length_on_refusal).
pub fn build_netlist(d: Drawing, out: &mut [u8]) -> Written
    ensures told { result ≡ netlist_of d (length out.old) }
    ensures written { out.new ≡ netlist_in d out.old }
{
    let c = check(d);
    if c.rule != 0 {
        return Written {
            reply: 9,
            length: 0,
        };
    }
    write_list_on(d, out)
}

// The number of loose pads of a lent drawing: "a pad of a contact or coil that isn't fed and is alone on its net, unless .." (document 02,
// P2). 9 or 0. Wrong answers that this rules out: a count for a drawing that is not lawful (loose_unlawful), and those of `loose_pads`.
pub fn loose(d: Drawing) -> LooseCount
    ensures { result ≡ loose_answer d }
{
    let c = check(d);
    if c.rule != 0 {
        return LooseCount { reply: 9, count: 0 };
    }
    let count = loose_on(d);
    LooseCount { reply: 0, count }
}
