// Reads a file (docs/FORMAT.md) on standard input and prints the reply, and for 0 the drawing's rows, its wiring list and the number of its
// loose pads. Input longer than any file is not read to its end: its first 65,536 bytes tell the answer. `stdin` and `stdout` are the file of
// docs/examples/drop-point.txt and what is printed of it: `oracle/target/release/oracle sample open crates/panel_open` makes both again.
#![tactic(auto)]

ghost use Rattle.std.specs.Prelude.{◌≡◌, length};
ghost use Rattle.panel_open.specs.Printing.{Printed};

use shown::show;
use std::io::{Read, Write};
use std::process::ExitCode;
use streams::{Output, Streams, ended, fill, standard, write_block};

// What is printed of the input.
fn answer<R: Read, W: Write, E: Write>(
    streams: &mut Streams<R, W, E>,
    held: &mut [u8],
    out: &mut [u8],
) -> Output
    requires long { 65536 ≡ length held.old }
    requires room { 65536 ≡ length out.old }
    ensures { Printed result }
{
    let f = fill(streams, held);
    if f.failed {
        return Output {
            sum: 0,
            failed: true,
        };
    }
    let n = f.count;
    let k = show(&held[..n], out);
    write_block(streams, 0, &out[..k])
}

fn main(rt: HostRuntime) -> ExitCode {
    let mut streams = standard(&rt);
    let mut held = [0u8; 65536];
    let mut out = [0u8; 65536];
    let o = answer(&mut streams, &mut held, &mut out);
    ended(o.failed)
}
