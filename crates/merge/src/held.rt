// Which wires are held at their high end.
ghost use Rattle.std.specs.Prelude.{◌≡◌, List, ◌≤◌, ◌%◌, length, take};
ghost use Rattle.symbol.specs.declared.Point.{Point};
ghost use Rattle.sheet.specs.declared.Wire.{Wire};
ghost use Rattle.sheet.specs.Geometry.{high, tip};
ghost use Rattle.sheet.specs.Merge.{held_apart};
ghost use Rattle.merge.specs.Codes.{marks_with_kind, Coded, Flagged};
ghost use Rattle.chains.specs.Chains.{Traced};

use crate::codes::{code, kind_of, mark_codes};
use chains::{chain, is_in};
use sheet::Wire;
use symbol::Point;
use wires::geometry::high_tip;

// An end of a wire of the other direction, or a pad, is where the wire ends.
fn is_held(w: Wire, codes: &[u64; 1408], n: usize, last: &[u16; 4096], before: &[u16; 1408]) -> bool
    requires { (n ≤ 1408) × Traced (λ c. c % 4093) (take n codes.now) last.now before.now }
    ensures { (ws : List Wire) (ps : List Point) → Coded (marks_with_kind ws ps) (take n codes.now) → result ≡ held_apart ws ps w.vertical (tip high w) }
{
    let p = high_tip(w);
    let kind = kind_of(!w.vertical);
    let end = code(kind, p);
    let pad = code(2, p);
    is_in(codes, n, last, before, end) | is_in(codes, n, last, before, pad)
}

// A flag for each wire.
fn flags_of(
    ws: &[Wire],
    codes: &[u64; 1408],
    n: usize,
    last: &[u16; 4096],
    before: &[u16; 1408],
) -> [bool; 512]
    requires { (length ws.now ≤ 512) × ((n ≤ 1408) × Traced (λ c. c % 4093) (take n codes.now) last.now before.now) }
    ensures { (ps : List Point) → Coded (marks_with_kind ws.now ps) (take n codes.now) → Flagged ws.now ps result }
{
    let mut flags = [false; 512];
    for (i, w) in ws.iter().enumerate() {
        flags[i] = is_held(*w, codes, n, last, before);
    }
    flags
}

// For each wire whether it is held at its high end.
pub fn held_ends(ws: &[Wire], pads: &[Point]) -> [bool; 512]
    requires { (length ws.now ≤ 512) × (length pads.now ≤ 384) }
    ensures { Flagged ws.now pads.now result }
{
    let all = mark_codes(ws, pads);
    let n = all.count;
    let codes = all.rows;
    let index = chain(codes, n);
    let last = index.last;
    let before = index.before;
    flags_of(ws, &codes, n, &last, &before)
}
