// Where a wire goes among the others.
ghost use Rattle.std.specs.Prelude.{◌≡◌};
ghost use Rattle.std.specs.List.{position};
ghost use Rattle.sheet.specs.Geometry;

use sheet::Wire;
use wires::geometry::first;

// The first row that the wire goes before.
pub fn row_after(ws: &[Wire], w: Wire) -> Option<usize>
    ensures { result ≡ position (Geometry.first w) ws.now }
{
    ws.iter().position(|v| first(w, *v))
}
