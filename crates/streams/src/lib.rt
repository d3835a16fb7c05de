// Standard input and output of a program. What fails is told on standard error, and the caller is told to stop.
#![tactic(auto)]

pub mod output;

ghost use Rattle.std.specs.Prelude.{◌≡◌, cond, length};
ghost use Rattle.std.specs.Process.{exit_status};
ghost use Rattle.streams.specs.Reads.{Brings, Takes, Fills, TakesAll};

pub use output::{Output, tell_block, write_block};
use std::io::{Read, Stderr, Stdin, Stdout, Write};
use std::process::ExitCode;

// What a program reads from, what it writes to, and where it tells what fails.
#[derive(Drop)]
pub struct Streams<R, W, E> {
    pub input: R,
    pub output: W,
    pub errors: E,
}

// A program's own. What the system gives and takes no contract can say, and nothing else can be said of these three.
pub fn standard(rt: &HostRuntime) -> Streams<Stdin, Stdout, Stderr> {
    Streams {
        input: rt.stdin(),
        output: rt.stdout(),
        errors: rt.stderr(),
    }
}

// How a program ends: with status 1 if a read or a write failed.
pub fn ended(failed: bool) -> ExitCode
    ensures { exit_status result ≡ cond failed 1 0 }
{
    if failed {
        ExitCode::FAILURE
    } else {
        ExitCode::SUCCESS
    }
}

// What a read brings: so many bytes in front of the lent buffer, or the end of the input.
#[derive(Clone, Copy)]
pub enum Got {
    Bytes(usize),
    End,
    Failed,
}

// How many bytes were put in front of a lent buffer, and whether a read failed.
#[derive(Clone, Copy)]
pub struct Filled {
    pub count: usize,
    pub failed: bool,
}

// One read of standard input.
pub fn read_chunk<R: Read, W, E: Write>(s: &mut Streams<R, W, E>, chunk: &mut [u8]) -> Got
    ensures brings { Brings (length chunk.new) result }
    ensures takes { Takes (R.remaining s.old.input) (R.remaining s.new.input) result chunk.new }
    ensures output { s.new.output ≡ s.old.output }
{
    match s.input.read(chunk) {
        Ok(0) => Got::End,
        Ok(n) => Got::Bytes(n),
        Err(e) => {
            let _ = writeln!(s.errors, "standard input: {e}");
            Got::Failed
        }
    }
}

// Fills a lent buffer from standard input, until it is full, the input ends or a read fails.
pub fn fill<R: Read, W, E: Write>(s: &mut Streams<R, W, E>, buffer: &mut [u8]) -> Filled
    ensures fills { Fills (length buffer.new) result }
    ensures takes { TakesAll (R.remaining s.old.input) (R.remaining s.new.input) result buffer.new }
    ensures output { s.new.output ≡ s.old.output }
{
    let mut count = 0;
    while count < buffer.len() {
        match read_chunk(s, &mut buffer[count..]) {
            Got::Bytes(n) => {
                count += n;
            }
            Got::End => {
                return Filled {
                    count,
                    failed: false,
                };
            }
            Got::Failed => {
                return Filled {
                    count,
                    failed: true,
                };
            }
        }
    }
    Filled {
        count,
        failed: false,
    }
}
