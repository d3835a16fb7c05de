// Reads a panel script on standard input and writes the file of the drawing at its end (docs/FORMAT.md). Each line that is not answered
// with 0 is told on standard error. `stdin` and `stdout` are a script and its file: `oracle/target/release/oracle sample save
// crates/panel_save` makes both again.
#![tactic(auto)]

mod lines_taken;

ghost use Rattle.std.specs.Prelude.{◌≡◌, ◌≤◌, length};
ghost use Rattle.sheet.specs.Rules.{Lawful};
ghost use Rattle.panel_save.specs.Saving.{Saves};
ghost use Rattle.panel_save.specs.Taking.{TakesChunk, TakesLast, WritesFile, Read, Finished, after_failure};

use empty::empty_drawing;
use lines::{Cut, next_line};
use lines_taken::{State, save_line};
use save::save_on;
use sheet::Drawing;
use std::io::{Read, Write};
use std::process::ExitCode;
use streams::{Got, Streams, ended, read_chunk, standard, write_block};

// The sums of all that was handed to standard output and to standard error, and whether a read or a write failed.
#[derive(Clone, Copy)]
pub struct Done {
    pub sum: u32,
    pub told: u32,
    pub failed: bool,
}

// How far the script is, how many bytes of a line that goes on are held, and whether a read failed.
#[derive(Clone, Copy)]
pub struct Run {
    pub state: State,
    pub count: usize,
    pub failed: bool,
}

// All the lines that end in a chunk.
fn take_chunk<R, W, E: Write>(
    streams: &mut Streams<R, W, E>,
    run: Run,
    chunk: &[u8],
    held: &mut [u8],
    out: &mut [u8],
) -> Run
    requires lawful { Lawful run.state.drawing }
    requires long { 81 ≤ length held.old }
    requires few { run.count ≤ 81 }
    requires room { 8192 ≤ length out.old }
    ensures { TakesChunk run chunk.now held.old result held.new }
{
    let mut state = run.state;
    let mut count = run.count;
    let mut at = 0;
    // No iterator gives this index: `lines::next_line` tells where the chunk goes on.
    while at < chunk.len() {
        match next_line(chunk, at, held, count) {
            Cut::Line { count: n, next } => {
                state = save_line(streams, state, &held[..n], out);
                count = 0;
                at = next;
            }
            Cut::More { count: n } => {
                return Run {
                    state,
                    count: n,
                    failed: false,
                };
            }
        }
    }
    Run {
        state,
        count,
        failed: false,
    }
}

// The run after a read that failed.
fn failed(run: Run) -> Run
    ensures { result ≡ after_failure run }
{
    let state = run.state;
    Run {
        state,
        count: run.count,
        failed: true,
    }
}

// The lines of all that is read. A proved loop has to end, and nothing says that the input does: it reads at most a number of
// times that no input uses up.
fn read_lines<R: Read, W: Write, E: Write>(
    streams: &mut Streams<R, W, E>,
    chunk: &mut [u8],
    held: &mut [u8],
    out: &mut [u8],
) -> Run
    requires long { 81 ≤ length held.old }
    requires room { 8192 ≤ length out.old }
    ensures { Read result held.new }
{
    let drawing = empty_drawing();
    let state = State {
        drawing,
        line: 0,
        told: 0,
    };
    let mut run = Run {
        state,
        count: 0,
        failed: false,
    };
    for _ in 0..u64::MAX {
        match read_chunk(streams, chunk) {
            Got::Bytes(n) => {
                run = take_chunk(streams, run, &chunk[..n], held, out);
            }
            Got::End => {
                return run;
            }
            Got::Failed => {
                return failed(run);
            }
        }
    }
    run
}

// A last line without a newline, if it is not empty.
fn last_line<R, W, E: Write>(
    streams: &mut Streams<R, W, E>,
    state: State,
    held: &[u8],
    count: usize,
    out: &mut [u8],
) -> State
    requires lawful { Lawful state.drawing }
    requires within { count ≤ length held.now }
    requires room { 8192 ≤ length out.old }
    ensures { TakesLast state count held.now result }
{
    if count > 0 {
        return save_line(streams, state, &held[..count], out);
    }
    state
}

// The file of a drawing, handed to standard output.
fn write_file<R, W: Write, E: Write>(
    streams: &mut Streams<R, W, E>,
    d: Drawing,
    told: u32,
    out: &mut [u8],
) -> Done
    requires lawful { Lawful d }
    requires room { 8192 ≤ length out.old }
    ensures { WritesFile d told result }
{
    let w = save_on(d, out);
    let used = w.length;
    let o = write_block(streams, 0, &out[..used]);
    Done {
        sum: o.sum,
        told,
        failed: o.failed,
    }
}

// The end of the input: the last line and the file. After a failure nothing is done.
fn finish<R, W: Write, E: Write>(
    streams: &mut Streams<R, W, E>,
    run: Run,
    held: &[u8],
    out: &mut [u8],
) -> Done
    requires lawful { Lawful run.state.drawing }
    requires within { run.count ≤ length held.now }
    requires room { 8192 ≤ length out.old }
    ensures { Finished run held.now result }
{
    let state = run.state;
    if run.failed {
        return Done {
            sum: 0,
            told: state.told,
            failed: true,
        };
    }
    let last = last_line(streams, state, held, run.count, out);
    let d = last.drawing;
    write_file(streams, d, last.told, out)
}

// All that is read, and the file of the drawing at its end.
fn save_all<R: Read, W: Write, E: Write>(
    streams: &mut Streams<R, W, E>,
    chunk: &mut [u8],
    held: &mut [u8],
    out: &mut [u8],
) -> Done
    requires long { 81 ≤ length held.old }
    requires room { 8192 ≤ length out.old }
    ensures { Saves result }
{
    let r = read_lines(streams, chunk, held, out);
    finish(streams, r, held, out)
}

fn main(rt: HostRuntime) -> ExitCode {
    let mut streams = standard(&rt);
    let mut chunk = [0u8; 65536];
    let mut held = [0u8; 81];
    let mut out = [0u8; 65536];
    let o = save_all(&mut streams, &mut chunk, &mut held, &mut out);
    ended(o.failed)
}
