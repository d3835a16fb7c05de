// The lines of a chunk of input, taken as far as the room for what they print goes.
ghost use Rattle.std.specs.Prelude.{◌+◌, ◌≤◌, length};
ghost use Rattle.sheet.specs.Rules.{Lawful};
ghost use Rattle.panel_list.specs.Printing.{Prints, Takes};

use lines::{Cut, next_line};
use sheet::Drawing;
use step::{NO_TALLY, step_on};

// The drawing after a line, and how many bytes were printed.
#[derive(Clone, Copy)]
pub struct Answered {
    pub drawing: Drawing,
    pub used: usize,
}

// The drawing, how much of the chunk was taken, how many bytes of a line that goes on are held, and how many were printed.
#[derive(Clone, Copy)]
pub struct Taken {
    pub drawing: Drawing,
    pub at: usize,
    pub count: usize,
    pub used: usize,
}

// What a line prints, behind the bytes used.
fn print(drawing: Drawing, line: &[u8], out: &mut [u8], used: usize) -> Answered
    requires lawful { Lawful drawing }
    requires room { used + 8192 ≤ length out.old }
    ensures { Prints drawing line.now used out.old result out.new }
{
    let s = step_on(drawing, line, NO_TALLY, &mut out[used..]);
    let d = s.edited.drawing;
    Answered {
        drawing: d,
        used: used + s.length,
    }
}

// Takes lines until the chunk is used up or less than 8,192 bytes are left, which a line may need.
pub(crate) fn take_lines(
    d: Drawing,
    chunk: &[u8],
    held: &mut [u8],
    begun: usize,
    out: &mut [u8],
) -> Taken
    requires lawful { Lawful d }
    requires long { 81 ≤ length held.old }
    requires few { begun ≤ 81 }
    requires room { 8192 ≤ length out.old }
    ensures { Takes d chunk.now held.old begun result held.new out.new }
{
    let mut drawing = d;
    let mut at = 0;
    let mut count = begun;
    let mut used = 0;
    // No iterator gives this index: `lines::next_line` tells where the chunk goes on.
    while at < chunk.len() {
        if out.len() - used < 8192 {
            return Taken {
                drawing,
                at,
                count,
                used,
            };
        }
        match next_line(chunk, at, held, count) {
            Cut::Line { count: n, next } => {
                let s = print(drawing, &held[..n], out, used);
                drawing = s.drawing;
                used = s.used;
                count = 0;
                at = next;
            }
            Cut::More { count: n } => {
                count = n;
                at = chunk.len();
            }
        }
    }
    Taken {
        drawing,
        at,
        count,
        used,
    }
}
