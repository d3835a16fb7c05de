// Rows, one behind the other, read into a table.
ghost use Rattle.std.specs.Prelude.{◌≡◌, ℕ, ◌+◌, ◌≤◌, List, ◌++◌, length, drop, IfOk};
ghost use Rattle.lists.specs.Tables.{Holds};
ghost use Rattle.groups.specs.Taken.{Taken, times};
ghost use Rattle.file_rows.specs.Answers.{ReadAs, Reads};

use refusal::Refusal;
use table::Table;

// n rows put behind those of the table, and the index behind them. (After a refusal the table has the rows read before it.)
pub fn read_rows<T: Copy, const N: usize, F: Fn(&[u8], usize) -> Result<(T, usize), Refusal>>(
    read: F,
    bytes: &[u8],
    at: usize,
    n: usize,
    table: &mut Table<T, N>,
) -> Result<usize, Refusal>
    requires callable { F.IsAlwaysCallable read }
    requires room { table.old.count + n ≤ N }
    ensures many { IfOk result (λ _. table.new.count ≡ table.old.count + n) }
    ensures read { (f : List ℕ → Taken T) → Reads (F.post read) f → at ≤ length bytes.now → (z : T) (ys : List T) → Holds N z ys table.old.rows table.old.count → ReadAs (times f n (drop at bytes.now)) bytes.now (λ xs. Holds N z (ys ++ xs) table.new.rows table.new.count) result }
{
    let mut next = at;
    'rows: for _ in 0..n {
        let (row, behind) = read(bytes, next)?;
        table.push(row);
        next = behind;
    }
    Ok(next)
}
