// The rows of a file, each read from an index of its bytes on. An answer is the value and the index behind it, or a refusal.
#![tactic(auto)]

mod letters;
mod rows;

ghost use Rattle.std.specs.Prelude.{◌≡◌, ◌≤◌, length, drop, IfOk, true, false};
ghost use Rattle.groups.specs.Indexes.{taken_at};
ghost use Rattle.saved.specs.Reading.{take_wire, take_part};

use groups::read_in;
use letters::read_label;
use refusal::Refusal;
pub use rows::read_rows;
use sheet::{Component, Wire};

// A wire of the direction.
#[tactic(auto, unfolding(saved::specs::Reading::take_wire, groups::specs::Taken::then))]
pub fn read_wire(bytes: &[u8], at: usize, vertical: bool) -> Result<(Wire, usize), Refusal>
    ensures is { taken_at bytes.now result ≡ take_wire vertical (drop at bytes.now) }
    ensures inside { IfOk result (λ r. r.1 ≤ length bytes.now) }
{
    let (line, at) = read_in(bytes, at, 0, 12000)?;
    let (start, at) = read_in(bytes, at, 0, 12000)?;
    let (end, at) = read_in(bytes, at, 0, 12000)?;
    let wire = Wire {
        vertical,
        line: line as u16,
        start: start as u16,
        end: end as u16,
    };
    Ok((wire, at))
}

// A horizontal wire.
pub fn read_level(bytes: &[u8], at: usize) -> Result<(Wire, usize), Refusal>
    ensures is { taken_at bytes.now result ≡ take_wire false (drop at bytes.now) }
    ensures inside { IfOk result (λ r. r.1 ≤ length bytes.now) }
{
    read_wire(bytes, at, false)
}

// A vertical wire.
pub fn read_upright(bytes: &[u8], at: usize) -> Result<(Wire, usize), Refusal>
    ensures is { taken_at bytes.now result ≡ take_wire true (drop at bytes.now) }
    ensures inside { IfOk result (λ r. r.1 ≤ length bytes.now) }
{
    read_wire(bytes, at, true)
}

// A component.
#[tactic(auto, unfolding(saved::specs::Reading::take_part, groups::specs::Taken::then))]
pub fn read_part(bytes: &[u8], at: usize) -> Result<(Component, usize), Refusal>
    ensures is { taken_at bytes.now result ≡ take_part (drop at bytes.now) }
    ensures inside { IfOk result (λ r. r.1 ≤ length bytes.now) }
{
    let (kind, at) = read_in(bytes, at, 0, 2)?;
    let (orientation, at) = read_in(bytes, at, 0, 7)?;
    let (x, at) = read_in(bytes, at, 200, 11800)?;
    let (y, at) = read_in(bytes, at, 200, 11800)?;
    let (label, at) = read_label(bytes, at)?;
    let part = Component {
        kind: kind as u8,
        orientation: orientation as u8,
        x: x as u16,
        y: y as u16,
        label,
    };
    Ok((part, at))
}
