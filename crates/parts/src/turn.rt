// A component turned or mirrored in its place.
ghost use Rattle.std.specs.Prelude.{◌≡◌};
ghost use Rattle.sheet.specs.Parts;

use orientation::{mirror, rotate_r};
use sheet::Component;

// The component with another orientation.
fn reoriented(c: Component, n: u8) -> Component
    ensures { result ≡ Parts.reoriented (λ _. n) c }
{
    Component {
        orientation: n,
        ..c
    }
}

// Turned right in its place.
pub fn turned_right(c: Component) -> Component
    requires { Parts.PartFits c }
    ensures { result ≡ Parts.turned_right c }
{
    let n = rotate_r(c.orientation).unwrap();
    reoriented(c, n)
}

// Mirrored in its place.
pub fn mirrored(c: Component) -> Component
    requires { Parts.PartFits c }
    ensures { result ≡ Parts.mirrored c }
{
    let n = mirror(c.orientation).unwrap();
    reoriented(c, n)
}
