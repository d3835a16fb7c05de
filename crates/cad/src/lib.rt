// The answers to a call for a shape: of a component, a wire or a joint.
#![tactic(auto)]

ghost use Rattle.std.specs.Prelude.{◌≡◌, ◌≤◌, nat_abs};
ghost use Rattle.edge.specs.Coordinates.{ranged};
ghost use Rattle.draw.specs.Transforms.{float_position};
ghost use Rattle.cad.specs.Answers.{shape_answer};
ghost use Rattle.cad.specs.Shapes.{component_shape, wire_shape, junction_shape};

use draw::{Draw, Vector2};
use label::{Label, held_label};
use orientation::numbered;
use refusal::Refusal;

// Whether a component may stand at the coordinate.
#[tactic(auto, using(crate::proofs::Positions::position_test))]
fn is_position(z: i32) -> bool
    ensures { result ≡ ranged 5800 z }
{
    edge::held_position(z).is_some()
}

// Whether a wire or a joint may be at the coordinate.
#[tactic(auto, using(crate::proofs::Positions::position_test))]
fn on_sheet(z: i32) -> bool
    ensures { result ≡ ranged 6000 z }
{
    edge::held_coordinate(z).is_some()
}

// A position in floats, exactly.
fn convert(x: i32, y: i32) -> Vector2
    requires { (nat_abs x ≤ 6000) × (nat_abs y ≤ 6000) }
    ensures { result ≡ float_position x y }
{
    Vector2 {
        x: x as f32,
        y: y as f32,
    }
}

// Shape i of a component, by the order of symbol.rs. a and b are a contact's A and B, and a is a coil's state.
#[tactic(auto, using(crate::proofs::Components::unknown_number))]
pub fn component(
    kind: u8,
    orientation: u8,
    x: i32,
    y: i32,
    label: Label,
    i: usize,
    a: bool,
    b: bool,
) -> Result<Option<Draw>, Refusal>
    ensures { shape_answer result ≡ component_shape kind orientation x y label i a b }
{
    if !symbol::is_known(kind, orientation) {
        return Err(Refusal::UnknownSymbol);
    }
    let o = numbered(orientation)?;
    if !(is_position(x) & is_position(y)) {
        return Err(Refusal::CoordinateOutside);
    }
    held_label(label)?;
    let at = convert(x, y);
    match draw::shape(kind, i, a, b) {
        Some(d) => Ok(Some(d.transform(o, at))),
        None => Ok(None),
    }
}

// The mark of a wire.
#[tactic(auto, using(crate::proofs::Ways::end_small, crate::proofs::Ways::drawn_down))]
pub fn wire(vertical: bool, line: i32, start: i32, end: i32) -> Result<Option<Draw>, Refusal>
    ensures { shape_answer result ≡ wire_shape vertical line start end }
{
    if !(on_sheet(line) & (on_sheet(start) & on_sheet(end))) {
        return Err(Refusal::CoordinateOutside);
    }
    if end < start {
        return Err(Refusal::StartPastEnd);
    }
    if vertical {
        return Ok(Some(Draw::Line(convert(line, start), convert(line, end), 6.0)));
    }
    Ok(Some(Draw::Line(convert(start, line), convert(end, line), 6.0)))
}

// The mark of a joint with so many wire ends and pads.
#[tactic(auto, using(crate::proofs::Ways::dotted, crate::proofs::Ways::ringed))]
pub fn junction(x: i32, y: i32, count: u16) -> Result<Option<Draw>, Refusal>
    ensures { shape_answer result ≡ junction_shape x y count }
{
    if !(on_sheet(x) & on_sheet(y)) {
        return Err(Refusal::CoordinateOutside);
    }
    let p = convert(x, y);
    if 3 <= count {
        return Ok(Some(Draw::Line(p, p, 40.0)));
    }
    if count == 1 {
        return Ok(Some(Draw::Circle(p, 10.0, 1.0)));
    }
    Ok(None)
}
