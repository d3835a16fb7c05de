// Reads a panel script on standard input and prints, behind each answer, the tally and all rows of the drawing. `stdin` and `stdout`
// are a script and what the Rust prints for it: `oracle/target/release/oracle sample rows crates/panel_rows` makes both again.
#![tactic(auto)]

mod rows;

ghost use Rattle.std.specs.Prelude.{◌≡◌, ◌≤◌, length};
ghost use Rattle.sheet.specs.Rules.{Lawful};
ghost use Rattle.step.specs.Scripts.{redrawn};
ghost use Rattle.panel_rows.specs.Printing.{Done};

use empty::empty_drawing;
use lines::{Cut, next_line};
use rows::rows_step;
use sheet::Drawing;
use std::io::{Read, Write};
use std::process::ExitCode;
use streams::{Got, Streams, ended, read_chunk, standard, write_block};

// The drawing after a line, and whether what it printed was taken.
#[derive(Clone, Copy)]
pub struct Answered {
    pub drawing: Drawing,
    pub taken: bool,
}

// How far the script is: the drawing, how many bytes of a line that goes on are held, and whether a write failed.
#[derive(Clone, Copy)]
pub struct Run {
    pub drawing: Drawing,
    pub count: usize,
    pub failed: bool,
}

// A line, written as soon as it is done.
fn answer<R, W: Write, E: Write>(
    streams: &mut Streams<R, W, E>,
    drawing: Drawing,
    line: &[u8],
    out: &mut [u8],
) -> Answered
    requires lawful { Lawful drawing }
    requires room { 61488 ≤ length out.old }
    ensures { (result.drawing ≡ redrawn drawing line.now) × Lawful result.drawing }
{
    let s = rows_step(drawing, line, out);
    let used = s.length;
    let o = write_block(streams, 0, &out[..used]);
    let d = s.drawing;
    Answered {
        drawing: d,
        taken: !o.failed,
    }
}

// All the lines that end in a chunk.
fn answer_chunk<R, W: Write, E: Write>(
    streams: &mut Streams<R, W, E>,
    drawing: Drawing,
    chunk: &[u8],
    held: &mut [u8],
    begun: usize,
    out: &mut [u8],
) -> Run
    requires lawful { Lawful drawing }
    requires long { 81 ≤ length held.old }
    requires few { begun ≤ 81 }
    requires room { 61488 ≤ length out.old }
    ensures { Done drawing chunk.now held.old begun result held.new }
{
    let mut d = drawing;
    let mut at = 0;
    let mut count = begun;
    // No iterator gives this index: `lines::next_line` tells where the chunk goes on.
    while at < chunk.len() {
        match next_line(chunk, at, held, count) {
            Cut::Line { count: n, next } => {
                let a = answer(streams, d, &held[..n], out);
                d = a.drawing;
                if !a.taken {
                    return Run {
                        drawing: d,
                        count: 0,
                        failed: true,
                    };
                }
                count = 0;
                at = next;
            }
            Cut::More { count: n } => {
                return Run {
                    drawing: d,
                    count: n,
                    failed: false,
                };
            }
        }
    }
    Run {
        drawing: d,
        count,
        failed: false,
    }
}

// A last line without a newline, if it is not empty; and whether a write failed.
fn finish<R, W: Write, E: Write>(
    streams: &mut Streams<R, W, E>,
    drawing: Drawing,
    held: &[u8],
    count: usize,
    out: &mut [u8],
) -> bool
    requires lawful { Lawful drawing }
    requires within { count ≤ length held.now }
    requires room { 61488 ≤ length out.old }
{
    if count > 0 {
        let a = answer(streams, drawing, &held[..count], out);
        return !a.taken;
    }
    false
}

// All that is read, up to the end of the input or a failure; and whether there was one. A proved loop has to end, and nothing says that
// the input does: it reads at most a number of times that no input uses up.
fn answer_all<R: Read, W: Write, E: Write>(
    streams: &mut Streams<R, W, E>,
    chunk: &mut [u8],
    held: &mut [u8],
    out: &mut [u8],
) -> bool
    requires long { 81 ≤ length held.old }
    requires room { 61488 ≤ length out.old }
{
    let mut d = empty_drawing();
    let mut count = 0;
    for _ in 0..u64::MAX {
        match read_chunk(streams, chunk) {
            Got::Bytes(n) => {
                let r = answer_chunk(streams, d, &chunk[..n], held, count, out);
                if r.failed {
                    return true;
                }
                d = r.drawing;
                count = r.count;
            }
            Got::End => {
                return finish(streams, d, held, count, out);
            }
            Got::Failed => {
                return true;
            }
        }
    }
    false
}

fn main(rt: HostRuntime) -> ExitCode {
    let mut streams = standard(&rt);
    let mut chunk = [0u8; 65536];
    let mut held = [0u8; 81];
    let mut out = [0u8; 65536];
    ended(answer_all(&mut streams, &mut chunk, &mut held, &mut out))
}
