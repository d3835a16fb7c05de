// The joints of each column in a row: joint rows rise by y, so the next one in its column is the next one up.
ghost use Rattle.std.specs.Prelude.{◌≡◌, ◌≤◌, ◌<◌, length};
ghost use Rattle.lawful.specs.Looks.{column_of, next_row, Chained};

use sheet::Joint;

// For each column its first joint row, and for each joint row the next one in its column; 1,408 where there is none.
#[derive(Clone, Copy)]
pub struct Columns {
    pub first: [u16; 12001],
    pub next: [u16; 1408],
}

// The column of a place; a place beyond the range counts as the first.
pub fn column(x: u16) -> usize
    ensures { (result ≡ column_of x) × (result < 12001) }
{
    if x < 12001 {
        return x as usize;
    }
    0
}

// The joint rows by column, from the last row down. What stands first in a column is only where to look: that none is passed over is what counts.
pub fn by_column(js: &[Joint]) -> Columns
    requires { length js.now ≤ 1408 }
    ensures { Chained js.now (length js.now) result.next }
{
    let mut out = Columns {
        first: [1408; 12001],
        next: [1408; 1408],
    };
    for m in (0..js.len()).rev() {
        let c = column(js[m].x);
        out.next[m] = out.first[c];
        out.first[c] = m as u16;
    }
    out
}

// A row number of a table as an index.
pub fn index(n: u16) -> usize
    ensures { result ≡ n }
{
    n as usize
}

// The joint row behind row k of its column, in `next`; n where row k is not among the n rows.
pub fn next_row(next: &[u16; 1408], n: usize, k: usize) -> usize
    requires { n ≤ 1408 }
    ensures { result ≡ next_row next.now n k }
{
    if k < n {
        return index(next[k]);
    }
    n
}
