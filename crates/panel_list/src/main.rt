// Reads a panel script on standard input and prints its answers: document 01, "panel_list".
// `stdin` and `stdout` are a script, which begins with docs/examples/drop-point.txt, and what the Rust prints for it:
// `oracle/target/release/oracle sample list crates/panel_list` makes both again.
#![tactic(auto)]

mod answers;

ghost use Rattle.std.specs.Prelude.{◌≡◌, ◌≤◌, length};
ghost use Rattle.sheet.specs.Rules.{Lawful};
ghost use Rattle.panel_list.specs.Printing.{Done, Read, Finished, Printed, after_failure};

use answers::take_lines;
use empty::empty_drawing;
use sheet::Drawing;
use std::io::{Read, Write};
use std::process::ExitCode;
use step::{NO_TALLY, step_on};
use streams::{Got, Output, Streams, ended, read_chunk, standard, write_block};

// How far the script is: the drawing, how many bytes of a line that goes on are held, the sum of all that was handed over, and whether a
// read or a write failed.
#[derive(Clone, Copy)]
pub struct Run {
    pub drawing: Drawing,
    pub count: usize,
    pub sum: u32,
    pub failed: bool,
}

// All the lines that end in a chunk. What they print is handed over whenever the room for it may not do for the next line.
fn answer<R, W: Write, E: Write>(
    streams: &mut Streams<R, W, E>,
    d: Drawing,
    chunk: &[u8],
    held: &mut [u8],
    begun: usize,
    before: u32,
    out: &mut [u8],
) -> Run
    requires lawful { Lawful d }
    requires long { 81 ≤ length held.old }
    requires few { begun ≤ 81 }
    requires room { 8192 ≤ length out.old }
    ensures { Done d begun before chunk.now held.old result held.new }
{
    let mut drawing = d;
    let mut count = begun;
    let mut sum = before;
    let mut at = 0;
    // No iterator gives this index: `take_lines` tells how far the room for what is printed went.
    while at < chunk.len() {
        let t = take_lines(drawing, &chunk[at..], held, count, out);
        at += t.at;
        let used = t.used;
        let o = write_block(streams, sum, &out[..used]);
        drawing = t.drawing;
        count = t.count;
        sum = o.sum;
        if o.failed {
            return Run {
                drawing,
                count,
                sum,
                failed: true,
            };
        }
    }
    Run {
        drawing,
        count,
        sum,
        failed: false,
    }
}

// A last line without a newline, if it is not empty. After a failure nothing is done.
fn finish<R, W: Write, E: Write>(
    streams: &mut Streams<R, W, E>,
    run: Run,
    held: &[u8],
    out: &mut [u8],
) -> Output
    requires lawful { Lawful run.drawing }
    requires within { run.count ≤ length held.now }
    requires room { 8192 ≤ length out.old }
    ensures { Finished run held.now result }
{
    if run.failed {
        return Output {
            sum: run.sum,
            failed: true,
        };
    }
    let count = run.count;
    let begun = count > 0;
    if begun {
        let d = run.drawing;
        let s = step_on(d, &held[..count], NO_TALLY, out);
        let used = s.length;
        return write_block(streams, run.sum, &out[..used]);
    }
    Output {
        sum: run.sum,
        failed: false,
    }
}

// The run after a read that failed.
fn failed(run: Run) -> Run
    ensures { result ≡ after_failure run }
{
    let drawing = run.drawing;
    Run {
        drawing,
        count: run.count,
        sum: run.sum,
        failed: true,
    }
}

// The lines of all that is read. A proved loop has to end, and nothing says that the input does: it reads at most a number of
// times that no input uses up.
fn read_lines<R: Read, W: Write, E: Write>(
    streams: &mut Streams<R, W, E>,
    chunk: &mut [u8],
    held: &mut [u8],
    out: &mut [u8],
) -> Run
    requires long { 81 ≤ length held.old }
    requires room { 8192 ≤ length out.old }
    ensures { Read result held.new }
{
    let d = empty_drawing();
    let mut run = Run {
        drawing: d,
        count: 0,
        sum: 0,
        failed: false,
    };
    for _ in 0..u64::MAX {
        match read_chunk(streams, chunk) {
            Got::Bytes(n) => {
                let drawing = run.drawing;
                run = answer(streams, drawing, &chunk[..n], held, run.count, run.sum, out);
                if run.failed {
                    return run;
                }
            }
            Got::End => {
                return run;
            }
            Got::Failed => {
                return failed(run);
            }
        }
    }
    run
}

// All that is read, and a last line without a newline.
fn answer_all<R: Read, W: Write, E: Write>(
    streams: &mut Streams<R, W, E>,
    chunk: &mut [u8],
    held: &mut [u8],
    out: &mut [u8],
) -> Output
    requires long { 81 ≤ length held.old }
    requires room { 8192 ≤ length out.old }
    ensures { Printed result }
{
    let r = read_lines(streams, chunk, held, out);
    finish(streams, r, held, out)
}

fn main(rt: HostRuntime) -> ExitCode {
    let mut streams = standard(&rt);
    let mut chunk = [0u8; 65536];
    let mut held = [0u8; 81];
    let mut out = [0u8; 65536];
    let o = answer_all(&mut streams, &mut chunk, &mut held, &mut out);
    ended(o.failed)
}
