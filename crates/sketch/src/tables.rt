// A row put into a table.
ghost use Rattle.std.specs.Prelude.{◌≡◌};
ghost use Rattle.sketch.specs.Tables.{inserted};
ghost use Rattle.sketch.specs.Sketches.{row_added};

use crate::filled::Filled;
use table::Table;

// The rows from the row's place on move one further, and the last one falls out.
fn put<T: Copy, const N: usize>(t: Table<T, N>, at: usize, row: T, count: usize) -> Table<T, N>
    ensures { (result.rows ≡ inserted at row t.rows) × (result.count ≡ count) }
{
    let mut rows = t.rows;
    let mut carried = row;
    for k in at..N {
        let next = rows[k];
        rows[k] = carried;
        carried = next;
    }
    Table { rows, count }
}

// The table with one row more, if it has one left, and how far it is filled then.
pub fn with_row<T: Copy, const N: usize>(
    t: Table<T, N>,
    f: Filled,
    behind: bool,
    row: T,
) -> Option<(Table<T, N>, Filled)>
    ensures { result ≡ row_added t f behind row }
{
    if !f.has_room(N) {
        return None;
    }
    let more = f.more(behind);
    let table = put(t, f.row_for(behind), row, more.count_after(t.count));
    Some((table, more))
}
