// Reads many files on standard input, each behind two bytes that tell its length, the low one first, and prints of each what panel_open prints.
// `stdin` and `stdout` are such files, whole and damaged, and what the oracle prints of them: `oracle/target/release/oracle sample files
// crates/panel_files` makes both again.
#![tactic(auto)]

ghost use Rattle.std.specs.Prelude.{◌≡◌, ◌+◌, ◌*◌, ◌<◌, length};
ghost use Rattle.panel_files.specs.Frames.{Answers};

use shown::show;
use std::io::{Read, Write};
use std::process::ExitCode;
use streams::{Output, Streams, ended, fill, standard, write_block};

// A file, as far as the input has it: its length, whether the input ended before its end, and whether a read failed.
#[derive(Clone, Copy)]
pub struct Frame {
    pub length: usize,
    pub ended: bool,
    pub failed: bool,
}

// The length that two bytes tell.
fn length_of(low: u8, high: u8) -> usize
    ensures { (result ≡ low + 256 * high) × (result < 65536) }
{
    low as usize + 256 * high as usize
}

// The next file.
fn read_frame<R: Read, W, E: Write>(
    streams: &mut Streams<R, W, E>,
    head: &mut [u8],
    held: &mut [u8],
) -> Frame
    requires pair { 2 ≡ length head.old }
    requires long { 65536 ≡ length held.old }
    ensures { result.length < 65536 }
{
    let h = fill(streams, head);
    if h.failed | (h.count < 2) {
        return Frame {
            length: 0,
            ended: true,
            failed: h.failed,
        };
    }
    let length = length_of(head[0], head[1]);
    let f = fill(streams, &mut held[..length]);
    Frame {
        length,
        ended: f.count < length,
        failed: f.failed,
    }
}

// What is printed of each file. A proved loop has to end, and nothing says that the input does: it reads at most a number of files
// that no input uses up.
fn answer_all<R: Read, W: Write, E: Write>(
    streams: &mut Streams<R, W, E>,
    head: &mut [u8],
    held: &mut [u8],
    out: &mut [u8],
) -> Output
    requires pair { 2 ≡ length head.old }
    requires long { 65536 ≡ length held.old }
    requires room { 65536 ≡ length out.old }
    ensures { Answers result }
{
    let mut sum: u32 = 0;
    for _ in 0..u64::MAX {
        let f = read_frame(streams, head, held);
        if f.failed | f.ended {
            return Output {
                sum,
                failed: f.failed,
            };
        }
        let n = f.length;
        let k = show(&held[..n], out);
        let o = write_block(streams, sum, &out[..k]);
        sum = o.sum;
        if o.failed {
            return o;
        }
    }
    Output { sum, failed: false }
}

fn main(rt: HostRuntime) -> ExitCode {
    let mut streams = standard(&rt);
    let mut head = [0u8; 2];
    let mut held = [0u8; 65536];
    let mut out = [0u8; 65536];
    let o = answer_all(&mut streams, &mut head, &mut held, &mut out);
    ended(o.failed)
}
