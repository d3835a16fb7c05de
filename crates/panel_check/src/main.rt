// Reads drawings on standard input, a row to a line, each ended by a line `.`, and prints what the drawing check answers to each.
#![tactic(auto)]

mod answers;

ghost use Rattle.std.specs.Prelude.{◌≡◌, ◌≤◌, length, take};
ghost use Rattle.lines.specs.Runs.{ran, finish};
ghost use Rattle.panel_check.specs.Telling.{told_after};
ghost use Rattle.panel_check.specs.Printing.{kept_of, told_so_far, Appended, Takes, Done, after_failure, Read, Concludes, Printed};

use answers::{is_end, next_number, put_checked, put_unreadable};
use check_script::read_line;
use lawful::check;
use lines::Cut;
use sheet::Drawing;
use sketch::{Sketch, add, empty};
use std::io::{Read, Write};
use std::process::ExitCode;
use streams::{Got, Streams, ended, read_chunk, standard, write_block};

// How far the input is read: the drawing that has begun, if a line of it was read; the number of the last line, and whether it was
// unreadable; how many bytes of answers wait; and whether a read or a write failed.
#[derive(Clone, Copy)]
pub struct State {
    pub sketch: Sketch,
    pub begun: bool,
    pub lines: u32,
    pub stopped: bool,
    pub used: usize,
    pub failed: bool,
}

// The state, and how many bytes of a line that goes on are held.
#[derive(Clone, Copy)]
pub struct Carried {
    pub run: State,
    pub count: usize,
}

// How many bytes of answers wait to be written, and whether a read or a write failed.
#[derive(Clone, Copy)]
pub struct Waiting {
    pub used: usize,
    pub failed: bool,
}

// Room for an answer. Answers wait for the end of the input, as an unreadable line is told alone; where some thousands wait, they are
// written.
fn make_room<R, W: Write, E: Write>(
    streams: &mut Streams<R, W, E>,
    out: &[u8],
    used: usize,
) -> Waiting
    requires waiting { used ≤ 65536 }
    requires room { length out.now ≡ 65536 }
    ensures { result.used ≡ kept_of used }
{
    if used <= 65500 {
        return Waiting {
            used,
            failed: false,
        };
    }
    let o = write_block(streams, 0, &out[..used]);
    Waiting {
        used: 0,
        failed: o.failed,
    }
}

// The answer to a drawing, behind those that wait.
fn answer<R, W: Write, E: Write>(
    streams: &mut Streams<R, W, E>,
    d: Drawing,
    used: usize,
    out: &mut [u8],
) -> Waiting
    requires waiting { used ≤ 65536 }
    requires room { length out.old ≡ 65536 }
    ensures { Appended d used out.old result.used out.new }
{
    let room = make_room(streams, out, used);
    let k = check(d);
    let n = put_checked(out, room.used, k.rule, k.first, k.second);
    Waiting {
        used: n,
        failed: room.failed,
    }
}

// One line. Two wrong answers that this rules out: a line `.` that is not counted, and a drawing with rows of the one before.
fn take_line<R, W: Write, E: Write>(
    streams: &mut Streams<R, W, E>,
    r: State,
    line: &[u8],
    out: &mut [u8],
) -> State
    requires waiting { r.used ≤ 65536 }
    requires room { length out.old ≡ 65536 }
    ensures { Takes r line.now out.old result out.new }
{
    if r.stopped {
        return r;
    }
    let lines = next_number(r.lines);
    let said = read_line(line);
    let s = r.sketch;
    if is_end(said) {
        let d = s.drawing;
        let w = answer(streams, d, r.used, out);
        let fresh = empty();
        return State {
            sketch: fresh,
            begun: false,
            lines,
            stopped: false,
            used: w.used,
            failed: w.failed,
        };
    }
    let Some(sketch) = add(s, line, said) else {
        return State {
            begun: true,
            lines,
            stopped: true,
            ..r
        };
    };
    State {
        sketch,
        begun: true,
        lines,
        stopped: false,
        ..r
    }
}

// All the lines that end in a chunk; after a failed write no more of them.
fn take_chunk<R, W: Write, E: Write>(
    streams: &mut Streams<R, W, E>,
    run: State,
    chunk: &[u8],
    held: &mut [u8],
    begun: usize,
    out: &mut [u8],
) -> Carried
    requires waiting { run.used ≤ 65536 }
    requires long { 81 ≤ length held.old }
    requires few { begun ≤ 81 }
    requires room { length out.old ≡ 65536 }
    ensures { Done run chunk.now held.old begun out.old result held.new out.new }
{
    let mut r = run;
    let mut at = 0;
    let mut count = begun;
    // No iterator gives this index: `lines::next_line` tells where the chunk goes on.
    while at < chunk.len() {
        match lines::next_line(chunk, at, held, count) {
            Cut::Line { count: n, next } => {
                r = take_line(streams, r, &held[..n], out);
                if r.failed {
                    return Carried { run: r, count: 0 };
                }
                count = 0;
                at = next;
            }
            Cut::More { count: n } => {
                return Carried { run: r, count: n };
            }
        }
    }
    Carried { run: r, count }
}

// The end of the input: a drawing that has begun is answered, or the unreadable line told alone. What waits then is left to write.
fn tell<R, W: Write, E: Write>(streams: &mut Streams<R, W, E>, r: State, out: &mut [u8]) -> Waiting
    requires waiting { r.used ≤ 65536 }
    requires room { length out.old ≡ 65536 }
    ensures { Concludes (λ written. told_so_far r written out.old) result.used out.new }
{
    if r.stopped {
        let used = put_unreadable(out, r.lines);
        return Waiting {
            used,
            failed: false,
        };
    }
    if r.begun {
        let s = r.sketch;
        let d = s.drawing;
        return answer(streams, d, r.used, out);
    }
    Waiting {
        used: r.used,
        failed: false,
    }
}

// A last line without a newline, if it is not empty, and then the end. Where that line's write fails, it ended a drawing, and `tell` writes
// nothing more.
fn finish<R, W: Write, E: Write>(
    streams: &mut Streams<R, W, E>,
    r: State,
    held: &[u8],
    count: usize,
    out: &mut [u8],
) -> Waiting
    requires waiting { r.used ≤ 65536 }
    requires within { count ≤ length held.now }
    requires room { length out.old ≡ 65536 }
    ensures { Concludes (λ written. finish told_after (ran (told_so_far r written out.old) (take count held.now))) result.used out.new }
{
    if count > 0 {
        let last = take_line(streams, r, &held[..count], out);
        let w = tell(streams, last, out);
        return Waiting {
            used: w.used,
            failed: last.failed | w.failed,
        };
    }
    tell(streams, r, out)
}

// The state after a read that failed.
fn failed(r: State) -> State
    ensures { result ≡ after_failure r }
{
    State { failed: true, ..r }
}

// The lines of all that is read. A proved loop has to end, and nothing says that the input does: it reads at most a number of
// times that no input uses up.
fn read_lines<R: Read, W: Write, E: Write>(
    streams: &mut Streams<R, W, E>,
    chunk: &mut [u8],
    held: &mut [u8],
    out: &mut [u8],
) -> Carried
    requires long { 81 ≤ length held.old }
    requires room { length out.old ≡ 65536 }
    ensures { Read result held.new out.new }
{
    let mut r = State {
        sketch: empty(),
        begun: false,
        lines: 0,
        stopped: false,
        used: 0,
        failed: false,
    };
    let mut count: usize = 0;
    for _ in 0..u64::MAX {
        match read_chunk(streams, chunk) {
            Got::Bytes(n) => {
                let t = take_chunk(streams, r, &chunk[..n], held, count, out);
                r = t.run;
                count = t.count;
                if r.failed {
                    return t;
                }
            }
            Got::End => {
                return Carried { run: r, count };
            }
            Got::Failed => {
                let run = failed(r);
                return Carried { run, count };
            }
        }
    }
    Carried { run: r, count }
}

// All that is read, and the answers that are left to write. After a failure none is.
fn run<R: Read, W: Write, E: Write>(
    streams: &mut Streams<R, W, E>,
    chunk: &mut [u8],
    held: &mut [u8],
    out: &mut [u8],
) -> Waiting
    requires long { 81 ≤ length held.old }
    requires room { length out.old ≡ 65536 }
    ensures { Printed result out.new }
{
    let t = read_lines(streams, chunk, held, out);
    let r = t.run;
    if r.failed {
        return Waiting {
            used: 0,
            failed: true,
        };
    }
    finish(streams, r, held, t.count, out)
}

fn main(rt: HostRuntime) -> ExitCode {
    let mut streams = standard(&rt);
    let mut chunk = [0u8; 65536];
    let mut held = [0u8; 81];
    let mut out = [0u8; 65536];
    let w = run(&mut streams, &mut chunk, &mut held, &mut out);
    if w.failed {
        return ended(true);
    }
    let used = w.used;
    let o = write_block(&mut streams, 0, &out[..used]);
    ended(o.failed)
}
