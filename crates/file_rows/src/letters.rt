// A label.
ghost use Rattle.std.specs.Prelude.{◌≡◌, ◌≤◌, length, drop, IfOk};
ghost use Rattle.label.specs.Labels.{padded};
ghost use Rattle.groups.specs.Taken.{then, took};
ghost use Rattle.groups.specs.Indexes.{taken_at};
ghost use Rattle.saved.specs.Reading.{take_graphic, take_label};

use crate::rows::read_rows;
use groups::read_in;
use refusal::Refusal;
use table::Table;

// A byte that a label may have.
#[tactic(auto, using(crate::proofs::Graphics::graphic_reads))]
fn read_graphic(bytes: &[u8], at: usize) -> Result<(u8, usize), Refusal>
    ensures is { taken_at bytes.now result ≡ take_graphic (drop at bytes.now) }
    ensures inside { IfOk result (λ r. r.1 ≤ length bytes.now) }
{
    if bytes.len() <= at {
        return Err(Refusal::FileEnds);
    }
    let b = bytes[at];
    if (0x21 <= b) & (b <= 0x7e) {
        return Ok((b, at + 1));
    }
    Err(Refusal::FileWrong)
}

// A label's length and its bytes, with zeros behind.
pub(crate) fn read_label(bytes: &[u8], at: usize) -> Result<([u8; 16], usize), Refusal>
    ensures is { taken_at bytes.now result ≡ then (take_label (drop at bytes.now)) (λ l. took (padded 16 l)) }
    ensures inside { IfOk result (λ r. r.1 ≤ length bytes.now) }
{
    let (n, at) = read_in(bytes, at, 0, 16)?;
    let mut label = Table::<u8, 16>::empty(0);
    let next = read_rows(read_graphic, bytes, at, n as usize, &mut label)?;
    let held = label.rows;
    Ok((held, next))
}
