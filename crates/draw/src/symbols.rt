// The shapes of the three symbols, in the order of symbol.rs. A number built with a square root has the bits that a run of the Rust gives it.
ghost use Rattle.std.specs.Prelude.{◌≡◌, slice_get};
ghost use Rattle.draw.specs.Answers.{chosen, asked};
ghost use Rattle.draw.specs.Symbols.{power_draws, moving_contact, contact_draws, inner_circle, coil_draws, draws_of};

use super::{Draw, Vector2};

// 1 / sqrt(3) * 50, and 1 / sqrt(2) * 50 + 100.
const WING: f32 = f32::from_bits(0x41e6f0ab);

const TIP: f32 = f32::from_bits(0x43075af8);

// MOVING_CONTACT_LINE, from (X1, Y1) to (X2, Y2).
const X1: f32 = f32::from_bits(0x404959c6);

const Y1: f32 = f32::from_bits(0xc22207fa);

const X2: f32 = f32::from_bits(0x420b3ff7);

const Y2: f32 = f32::from_bits(0x425c2294);

// power::DRAW.
const POWER: [Draw; 3] = [
    Draw::Line(
        Vector2 { x: 0.0, y: -100.0 },
        Vector2 { x: 0.0, y: 0.0 },
        6.0,
    ),
    Draw::Line(
        Vector2 { x: 0.0, y: -100.0 },
        Vector2 { x: -WING, y: -50.0 },
        6.0,
    ),
    Draw::Line(
        Vector2 { x: 0.0, y: -100.0 },
        Vector2 { x: WING, y: -50.0 },
        6.0,
    ),
];

// contact::STATIC_DRAW: the lines and the eyes of C, A and B.
const CONTACT: [Draw; 6] = [
    Draw::Line(
        Vector2 { x: 0.0, y: -100.0 },
        Vector2 { x: 0.0, y: -60.0 },
        6.0,
    ),
    Draw::Line(
        Vector2 { x: -50.0, y: 60.0 },
        Vector2 { x: -50.0, y: 100.0 },
        6.0,
    ),
    Draw::Line(
        Vector2 { x: 50.0, y: 60.0 },
        Vector2 { x: 50.0, y: 100.0 },
        6.0,
    ),
    Draw::Circle(Vector2 { x: 0.0, y: -50.0 }, 10.0, 6.0),
    Draw::Circle(Vector2 { x: -50.0, y: 50.0 }, 10.0, 6.0),
    Draw::Line(
        Vector2 { x: 50.0, y: 50.0 },
        Vector2 { x: 50.0, y: 50.0 },
        26.0,
    ),
];

// coil::STATIC_DRAW.
const COIL: [Draw; 6] = [
    Draw::Line(
        Vector2 { x: 0.0, y: -100.0 },
        Vector2 { x: 0.0, y: -50.0 },
        6.0,
    ),
    Draw::Line(
        Vector2 { x: 0.0, y: 50.0 },
        Vector2 { x: 0.0, y: 100.0 },
        6.0,
    ),
    Draw::Circle(Vector2 { x: 0.0, y: 0.0 }, 50.0, 6.0),
    Draw::Line(
        Vector2 { x: -25.0, y: 100.0 },
        Vector2 { x: 25.0, y: 100.0 },
        6.0,
    ),
    Draw::Line(
        Vector2 { x: -25.0, y: 100.0 },
        Vector2 { x: 0.0, y: TIP },
        6.0,
    ),
    Draw::Line(
        Vector2 { x: 25.0, y: 100.0 },
        Vector2 { x: 0.0, y: TIP },
        6.0,
    ),
];

// Shape i of a table, or no shape.
fn at_place(table: &[Draw], i: usize) -> Option<Draw>
    ensures { result ≡ slice_get table.now i }
{
    table.get(i).copied()
}

// Shape i of a power symbol, or no shape.
fn power(i: usize) -> Option<Draw>
    ensures { chosen result ≡ asked i power_draws }
{
    at_place(&POWER, i)
}

// A contact's moving line: in the middle where A and B are alike, else toward the closed one.
fn moving_contact(a: bool, b: bool) -> Draw
    ensures { result ≡ moving_contact a b }
{
    if a == b {
        let p = Vector2 { x: 0.0, y: Y1 };
        let q = Vector2 { x: 0.0, y: Y2 };
        return Draw::Line(p, q, 6.0);
    }
    if a {
        let p = Vector2 { x: -X1, y: Y1 };
        let q = Vector2 { x: -X2, y: Y2 };
        return Draw::Line(p, q, 6.0);
    }
    let p = Vector2 { x: X1, y: Y1 };
    let q = Vector2 { x: X2, y: Y2 };
    Draw::Line(p, q, 6.0)
}

// Shape i of a contact, or no shape.
fn contact(i: usize, a: bool, b: bool) -> Option<Draw>
    ensures { chosen result ≡ asked i (contact_draws a b) }
{
    match i {
        6 => Some(moving_contact(a, b)),
        _ => at_place(&CONTACT, i),
    }
}

// A coil's inner circle, by its state.
fn inner_circle(on: bool) -> Draw
    ensures { result ≡ inner_circle on }
{
    let middle = Vector2 { x: 0.0, y: 0.0 };
    if on {
        return Draw::Circle(middle, 25.0, 6.0);
    }
    Draw::Circle(middle, 50.0, 6.0)
}

// Shape i of a coil that is on or off, or no shape.
fn coil(i: usize, on: bool) -> Option<Draw>
    ensures { chosen result ≡ asked i (coil_draws on) }
{
    match i {
        6 => Some(inner_circle(on)),
        _ => at_place(&COIL, i),
    }
}

// Shape i of a kind, 0 Power, 1 Contact, 2 Coil; past the last, and of another kind, no shape. a and b are a contact's A and B, and a is a coil's state.
#[tactic(auto, using(crate::proofs::Tables::of_power, crate::proofs::Tables::of_contact, crate::proofs::Tables::of_coil, crate::proofs::Tables::of_none))]
pub fn shape(kind: u8, i: usize, a: bool, b: bool) -> Option<Draw>
    ensures { chosen result ≡ asked i (draws_of kind a b) }
{
    match kind {
        0 => power(i),
        1 => contact(i, a, b),
        2 => coil(i, a),
        _ => None,
    }
}
