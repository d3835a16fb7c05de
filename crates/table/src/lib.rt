// Tables in fixed memory: N rows, of which the first are in use.
#![tactic(auto)]

ghost use Rattle.std.specs.Prelude.{◌≡◌, ◌+◌, ◌≤◌, ◌<◌, [], length, MatchResult};
ghost use Rattle.table.specs.Tables.{rows_of, table_of, pushed, Extends};

// Any count may stand beside the rows: the drawing check judges tables with too great a one.
#[derive(Clone, Copy)]
pub struct Table<T, const N: usize> {
    pub rows: [T; N],
    pub count: usize,
}

// All rows of a table are in use.
#[derive(Clone, Copy)]
pub struct NoRoom;

impl<T, const N: usize> Table<T, N> {
    // The rows in use; all rows where the count is greater than their number.
    pub fn in_use(&self) -> &[T]
        ensures { result.now ≡ rows_of self.now }
    {
        if self.count <= N {
            return &self.rows[..self.count];
        }
        &self.rows
    }
}

impl<T: Copy, const N: usize> Table<T, N> {
    // The table with no row in use, each row being `zero`.
    pub fn empty(zero: T) -> Table<T, N>
        ensures { result ≡ table_of N zero [] }
    {
        Table {
            rows: [zero; N],
            count: 0,
        }
    }

    // One row more, where there is room.
    pub fn push(&mut self, row: T)
        requires { self.old.count < N }
        ensures { self.new ≡ pushed row self.old }
    {
        self.rows[self.count] = row;
        self.count += 1;
    }

    // One row more, or the word that there is no room.
    pub fn try_push(&mut self, row: T) -> Result<(), NoRoom>
        ensures { MatchResult result (λ _. (self.old.count < N) × (self.new ≡ pushed row self.old)) (λ _. (N ≤ self.old.count) × (self.new ≡ self.old)) }
    {
        if N <= self.count {
            return Err(NoRoom);
        }
        self.push(row);
        Ok(())
    }

    // The rows behind those in use, where there is room.
    pub fn extend(&mut self, rows: &[T])
        requires { self.old.count + length rows.now ≤ N }
        ensures { Extends rows.now self.old self.new }
    {
        for row in rows {
            self.push(*row);
        }
    }
}
