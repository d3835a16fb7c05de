// Shapes, and the symbols' shapes: what is drawn of a symbol, turned and moved.
#![tactic(auto)]

ghost use Rattle.std.specs.Prelude.{◌≡◌};
ghost use Rattle.std.specs.Float.{binary32};
ghost use Rattle.std.specs.Float.Ieee.{add};
ghost use Rattle.float.specs.Drawn.{turned};
ghost use Rattle.draw.specs.Transforms.{moved_point, transform_of};

use orientation::RotMirror;

mod symbols;

pub use symbols::shape;

// A point of a shape.
#[derive(Clone, Copy)]
pub struct Vector2 {
    pub x: f32,
    pub y: f32,
}

// A line (two points, width) or a circle (centre, radius, width).
#[derive(Clone, Copy)]
pub enum Draw {
    Line(Vector2, Vector2, f32),
    Circle(Vector2, f32, f32),
}

// One coordinate: a * x + b * y, then + the position t, each operation rounded.
fn drawn(a: i8, b: i8, x: f32, y: f32, t: f32) -> f32
    ensures { result ≡ add binary32 (turned a b x y) t }
{
    a as f32 * x + b as f32 * y + t
}

// A point, turned by o and moved by t.
fn moved(p: Vector2, o: RotMirror, t: Vector2) -> Vector2
    ensures { result ≡ moved_point o t p }
{
    let rx = drawn(o.0, o.1, p.x, p.y, t.x);
    let ry = drawn(o.2, o.3, p.x, p.y, t.y);
    Vector2 { x: rx, y: ry }
}

impl Draw {
    // The shape, turned by o and moved to the position t. Radius and width don't change.
    pub fn transform(self, o: RotMirror, t: Vector2) -> Draw
        ensures { result ≡ transform_of o t self }
    {
        match self {
            Draw::Line(p, q, width) => Draw::Line(moved(p, o, t), moved(q, o, t), width),
            Draw::Circle(p, radius, width) => Draw::Circle(moved(p, o, t), radius, width),
        }
    }
}
