// What a caller asks for, as rows hold it, or the first refusal that the numbers alone decide.
#![tactic(auto)]

ghost use Rattle.std.specs.Prelude.{◌≡◌};
ghost use Rattle.asked.specs.Asked.{wire_told, asked_wire, part_told, asked_part, pointer_told, asked_pointer};
ghost use Rattle.asked.specs.Rows.{row_of, size_row};

use edge::{held_coordinate, held_position};
use label::{Label, held_label};
use refusal::Refusal;
use sheet::{Component, Wire};
use symbol::Point;

// A pointer and its size.
#[derive(Clone, Copy)]
pub struct Pointer {
    pub point: Point,
    pub size: u16,
}

// A coordinate of a wire end or the pointer, or the refusal.
#[tactic(auto, using(crate::proofs::Ranges::row_found))]
fn coordinate(x: i32) -> Result<u16, Refusal>
    ensures { result ≡ row_of 6000 x }
{
    held_coordinate(x).ok_or(Refusal::CoordinateOutside)
}

// A coordinate of a component, or the refusal.
#[tactic(auto, using(crate::proofs::Ranges::row_found))]
fn position(x: i32) -> Result<u16, Refusal>
    ensures { result ≡ row_of 5800 x }
{
    held_position(x).ok_or(Refusal::CoordinateOutside)
}

// A pointer size, or the refusal.
#[tactic(auto, using(crate::proofs::Ranges::size_found))]
fn pointer_size(size: i32) -> Result<u16, Refusal>
    ensures { result ≡ size_row size }
{
    edge::size(size).ok_or(Refusal::SizeOutside)
}

// A wire from its coordinates: each in its range, else 1; the start not greater than the end, else 2. Two wrong answers that this rules
// out: one with an end outside (one_end_outside_taken), and one that goes backward (backward_wire_taken).
#[tactic(auto, using(crate::proofs::Asked::far_line, crate::proofs::Asked::far_start, crate::proofs::Asked::far_end))]
pub fn asked_wire(vertical: bool, line: i32, start: i32, end: i32) -> Result<Wire, Refusal>
    ensures { wire_told result ≡ asked_wire vertical line start end }
{
    let l = coordinate(line)?;
    let s = coordinate(start)?;
    let e = coordinate(end)?;
    if start <= end {
        Ok(Wire {
            vertical,
            line: l,
            start: s,
            end: e,
        })
    } else {
        Err(Refusal::StartPastEnd)
    }
}

// A component: a known kind and orientation, else 4; its position in its range, else 1; its label, else 5. Two wrong answers that this
// rules out: one of a fourth kind (fourth_kind_taken), and one with a bad label (bad_label_taken).
#[tactic(auto, using(crate::proofs::Asked::unknown_part, crate::proofs::Asked::far_x, crate::proofs::Asked::far_y, crate::proofs::Asked::mislabelled))]
pub fn asked_part(
    kind: u8,
    orientation: u8,
    x: i32,
    y: i32,
    label: Label,
) -> Result<Component, Refusal>
    ensures { part_told result ≡ asked_part kind orientation x y label }
{
    if !symbol::is_known(kind, orientation) {
        return Err(Refusal::UnknownSymbol);
    }
    let a = position(x)?;
    let b = position(y)?;
    let bytes = held_label(label)?;
    Ok(Component {
        kind,
        orientation,
        x: a,
        y: b,
        label: bytes,
    })
}

// A pointer: each coordinate in its range, else 1; its size in its range, else 3. Two wrong answers that this rules out: a pointer at
// (y, x) (pointer_swapped), and 1 for a size out of range (size_told_as_1).
#[tactic(auto, using(crate::proofs::Asked::far_pointer_x, crate::proofs::Asked::far_pointer_y, crate::proofs::Asked::sizeless, crate::proofs::Asked::pointer_right))]
pub fn asked_pointer(x: i32, y: i32, size: i32) -> Result<Pointer, Refusal>
    ensures { pointer_told result ≡ asked_pointer x y size }
{
    let a = coordinate(x)?;
    let b = coordinate(y)?;
    let n = pointer_size(size)?;
    Ok(Pointer {
        point: Point { x: a, y: b },
        size: n,
    })
}
