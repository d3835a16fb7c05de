// A line for each row, in row order.
ghost use Rattle.std.specs.Prelude.{◌≡◌, ◌*◌, ℕ, length};
ghost use Rattle.std.specs.List.{flat_map};
ghost use Rattle.dump.specs.Rows.{Line, Puts, Space};

// Lines of at most `most` bytes.
pub(crate) fn put_lines<T: Copy, F: Fn(&mut [u8], usize, T) -> usize>(
    put: F,
    out: &mut [u8],
    at: usize,
    rows: &[T],
) -> usize
    ghost line: { Line T }
    requires callable { (o : _) (at : ℕ) (row : T) → Space at line.most → F.pre put o at row }
    requires puts { (o : _) (at : ℕ) (row : T) (next : ℕ) (new : _) → F.post put o at row next new → Puts line.most o.now at (line.of row) new.now next }
    requires space { Space at (line.most * length rows.now) }
    ensures { Puts (line.most * length rows.now) out.old at (flat_map line.of rows.now) out.new result }
{
    let mut next = at;
    for row in rows {
        next = put(out, next, *row);
    }
    next
}
