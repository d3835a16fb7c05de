// One line of a script: the drawing after it, and what is told of it on standard error.
ghost use Rattle.std.specs.Prelude.{◌≡◌, ◌≤◌, length};
ghost use Rattle.sheet.specs.Rules.{Lawful};
ghost use Rattle.text.specs.Text.{Put};
ghost use Rattle.streams.specs.Sums.{sum_of};
ghost use Rattle.panel_save.specs.Saving.{next_line, refusal_of};
ghost use Rattle.panel_save.specs.Taking.{Takes};

use sheet::Drawing;
use std::io::Write;
use step::{NO_TALLY, step_on};
use streams::{Streams, tell_block};
use text::{put_byte, put_bytes, put_decimal};

// How far the script is: the drawing, the number of the last line, and the sum of what was told on standard error.
#[derive(Clone, Copy)]
pub struct State {
    pub drawing: Drawing,
    pub line: u32,
    pub told: u32,
}

// The number of the next line, from 1. A line behind the last number that 32 bits hold is told by that number.
fn next_line_number(n: u32) -> u32
    ensures { result ≡ next_line n }
{
    if n < u32::MAX {
        return n + 1;
    }
    n
}

// `line <n>: A <reply>`
// Takes the reply as a number, since it prints the document's number.
fn put_refusal(text: &mut [u8], n: u32, reply: u8) -> usize
    requires { reply ≡ 0 → ⊥ }
    ensures { Put text.old 0 (refusal_of n reply) text.new result × (result ≤ 40) }
{
    let p = put_bytes(text, 0, b"line ");
    let p = put_decimal(text, p, n);
    let p = put_bytes(text, p, b": A ");
    let p = put_decimal(text, p, reply as u32);
    put_byte(text, p, b'\n')
}

// A line that is not answered with 0 is told on standard error: the sum with it.
// Takes the reply as a number, as `put_refusal` does.
fn tell_refusal<R, W, E: Write>(streams: &mut Streams<R, W, E>, n: u32, reply: u8, told: u32) -> u32
    ensures { result ≡ sum_of told (refusal_of n reply) }
{
    if reply == 0 {
        return told;
    }
    let mut text = [0u8; 40];
    let used = put_refusal(&mut text, n, reply);
    tell_block(streams, told, &text[..used])
}

// A line more, told as soon as it is taken. What it prints in the lent buffer is left there: 8,192 bytes hold all of it, so that no reply
// is for want of room.
pub(crate) fn save_line<R, W, E: Write>(
    streams: &mut Streams<R, W, E>,
    s: State,
    line: &[u8],
    out: &mut [u8],
) -> State
    requires lawful { Lawful s.drawing }
    requires room { 8192 ≤ length out.old }
    ensures { Takes s line.now result }
{
    let d = s.drawing;
    let before = s.line;
    let number = next_line_number(before);
    let a = step_on(d, line, NO_TALLY, out);
    let told = tell_refusal(streams, number, a.edited.reply, s.told);
    let drawing = a.edited.drawing;
    State {
        drawing,
        line: number,
        told,
    }
}
