// How many pads of a drawing are loose (document 02, P2), told by their net numbers.
#![tactic(auto)]

ghost use Rattle.std.specs.Prelude.{not, ◌&&◌, ◌≡◌, ◌≤◌, ◌<◌, eqb, length, get_or};
ghost use Rattle.lists.specs.Tables.{pad};
ghost use Rattle.sheet.specs.Drawings.{lists_of};
ghost use Rattle.sheet.specs.Rules.{Lawful};
ghost use Rattle.net_numbers.specs.Netted.{net_numbers};
ghost use Rattle.loose_pads.specs.Loose.{kinds_of};
ghost use Rattle.loose_pads.specs.Counting.{loose_pads, loose_of};
ghost use Rattle.loose_pads.specs.Walking.{Low, Occurrences, counts, loose_part};

use parts::pads::pads_of_kind;
use sheet::{Component, Drawing};

// How often each net number occurs.
fn occurrences(numbers: [u16; 384]) -> [u16; 385]
    requires { Low numbers }
    ensures { Occurrences numbers result }
{
    let mut table = [0u16; 385];
    for n in &numbers {
        table[*n as usize] += 1;
    }
    table
}

// Whether a pad with that net number is spare: alone on its net and not fed.
fn is_spare(table: &[u16; 385], number: u16) -> bool
    requires { number < 385 }
    ensures { result ≡ not (eqb number 0) && eqb (get_or table.now number 0) 1 }
{
    number != 0 && table[number as usize] == 1
}

// 1 for a spare pad whose other one of the two is spare too; else 0.
fn counted(own: bool, other: bool) -> u32
    ensures { (result ≡ counts own other) × (result ≤ 1) }
{
    u32::from(own && other)
}

// The loose pads of a component, by which of its pads are spare.
fn loose_part(kind: u8, n: bool, a: bool, b: bool) -> u32
    ensures { (result ≡ loose_part kind n a b) × (result ≤ 3) }
{
    if kind == 0 {
        return 0;
    }
    if kind == 1 {
        return counted(n, true) + counted(a, b) + counted(b, a);
    }
    counted(n, true)
}

// The loose pads of all components, where their pads have these net numbers.
fn count_in(cs: &[Component], numbers: [u16; 384]) -> u32
    requires few { length cs.now ≤ 128 }
    requires low { Low numbers }
    ensures { result ≡ length (loose_pads (kinds_of cs.now) numbers) }
{
    let table = occurrences(numbers);
    let mut loose: u32 = 0;
    let mut pad: usize = 0;
    for c in cs {
        let n = is_spare(&table, numbers[pad]);
        let a = is_spare(&table, numbers[pad + 1]);
        let b = is_spare(&table, numbers[pad + 2]);
        loose += loose_part(c.kind, n, a, b);
        pad += pads_of_kind(c.kind);
    }
    loose
}

// The number of loose pads of a drawing whose pads have these net numbers.
pub fn count_loose(d: Drawing, numbers: [u16; 384]) -> u32
    requires lawful { Lawful d }
    requires numbered { numbers ≡ pad 384 0 (net_numbers (lists_of d)) }
    ensures { result ≡ loose_of (lists_of d) }
{
    count_in(d.components.in_use(), numbers)
}
