// Numbers in groups of seven bits, low group first: put into a lent buffer, and read from an index of some bytes on.
#![tactic(auto)]

ghost use Rattle.std.specs.Prelude.{◌≡◌, ◌≤◌, ◌<◌, length, drop, IfOk};
ghost use Rattle.text.specs.Text.{Put, Room};
ghost use Rattle.groups.specs.Groups.{groups_of, later_groups, take_number, take_in};
ghost use Rattle.groups.specs.Indexes.{taken_at};

use refusal::Refusal;
use text::put_byte;

// A number in its fewest groups. The number falls at each call.
pub fn put_number(out: &mut [u8], at: usize, n: u32) -> usize
    requires { Room at (groups_of n) }
    ensures { Put out.old at (groups_of n) out.new result }
{
    if n < 128 {
        return put_byte(out, at, n as u8);
    }
    let next = put_byte(out, at, 128 + (n % 128) as u8);
    put_number(out, next, n / 128)
}

// A later group and those above it, of which `left` may follow. `left` falls at each call.
#[tactic(auto, using(crate::proofs::Reading::later_reads))]
fn later_groups(bytes: &[u8], at: usize, left: usize) -> Result<(u32, usize), Refusal>
    requires { left ≤ 3 }
    ensures is { taken_at bytes.now result ≡ later_groups left (drop at bytes.now) }
    ensures inside { IfOk result (λ r. r.1 ≤ length bytes.now) }
{
    if bytes.len() <= at {
        return Err(Refusal::FileEnds);
    }
    let b = u32::from(bytes[at]);
    if b == 0 {
        return Err(Refusal::FileWrong);
    }
    if left == 0 {
        if b <= 15 {
            return Ok((b, at + 1));
        }
        return Err(Refusal::FileWrong);
    }
    if b < 128 {
        return Ok((b, at + 1));
    }
    let (high, next) = later_groups(bytes, at + 1, left - 1)?;
    Ok((b % 128 + 128 * high, next))
}

// A number of at most 32 bits in its fewest groups.
#[tactic(auto, using(crate::proofs::Reading::number_reads))]
fn read_number(bytes: &[u8], at: usize) -> Result<(u32, usize), Refusal>
    ensures is { taken_at bytes.now result ≡ take_number (drop at bytes.now) }
    ensures inside { IfOk result (λ r. r.1 ≤ length bytes.now) }
{
    if bytes.len() <= at {
        return Err(Refusal::FileEnds);
    }
    let b = u32::from(bytes[at]);
    if b < 128 {
        return Ok((b, at + 1));
    }
    let (high, next) = later_groups(bytes, at + 1, 3)?;
    Ok((b % 128 + 128 * high, next))
}

// A number from low to high, and the index behind it.
#[tactic(auto, unfolding(crate::specs::Groups::take_in, crate::specs::Taken::then))]
pub fn read_in(bytes: &[u8], at: usize, low: u32, high: u32) -> Result<(u32, usize), Refusal>
    ensures is { taken_at bytes.now result ≡ take_in low high (drop at bytes.now) }
    ensures inside { IfOk result (λ r. r.1 ≤ length bytes.now) }
    ensures within { IfOk result (λ r. (low ≤ r.0) × (r.0 ≤ high)) }
{
    let (n, next) = read_number(bytes, at)?;
    if (low <= n) & (n <= high) {
        return Ok((n, next));
    }
    Err(Refusal::FileWrong)
}
