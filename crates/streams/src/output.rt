// What a program hands to standard output and to standard error. No contract can say which bytes a system writes, so a sum is kept of all bytes that were
// handed over, in their order: the contracts say of which bytes it is the sum.
ghost use Rattle.std.specs.Prelude.{◌≡◌};
ghost use Rattle.streams.specs.Sums.{next_sum, sum_of};
ghost use Rattle.streams.specs.Writes.{Writes};

use crate::Streams;
use std::io::Write;

// The sum of all that was handed over, and whether a write failed.
#[derive(Clone, Copy)]
pub struct Output {
    pub sum: u32,
    pub failed: bool,
}

// The sum with a byte more.
#[tactic(auto, unfolding(crate::specs::Sums::next_sum))]
fn summed(sum: u32, b: u8) -> u32
    ensures { result ≡ next_sum sum b }
{
    ((u64::from(sum) * 257 + u64::from(b) + 1) % 4294967291) as u32
}

// The sum with the bytes of a block.
fn sum_of(sum: u32, block: &[u8]) -> u32
    ensures { result ≡ sum_of sum block.now }
{
    let mut s = sum;
    for b in block {
        s = summed(s, *b);
    }
    s
}

// Hands a block over, behind what was handed over before. A failure is told on standard error.
pub fn write_block<R, W: Write, E: Write>(
    s: &mut Streams<R, W, E>,
    sum: u32,
    block: &[u8],
) -> Output
    ensures sum { result.sum ≡ sum_of sum block.now }
    ensures writes { Writes (W.contents s.old.output) (W.contents s.new.output) result block.now }
    ensures input { s.new.input ≡ s.old.input }
{
    let failed = match s.output.write_all(block) {
        Ok(()) => false,
        Err(e) => {
            let _ = writeln!(s.errors, "standard output: {e}");
            true
        }
    };
    Output {
        sum: sum_of(sum, block),
        failed,
    }
}

// Hands a block to standard error, behind what was handed over there before: the sum with it. A failure has no other place to be told.
pub fn tell_block<R, W, E: Write>(s: &mut Streams<R, W, E>, sum: u32, block: &[u8]) -> u32
    ensures sum { result ≡ sum_of sum block.now }
    ensures input { s.new.input ≡ s.old.input }
    ensures output { s.new.output ≡ s.old.output }
{
    let _ = s.errors.write_all(block);
    sum_of(sum, block)
}
