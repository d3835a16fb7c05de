// How far a table is filled.
ghost use Rattle.std.specs.Prelude.{◌≡◌, ◌<◌, ◌-◌, ◌^◌};
ghost use Rattle.sketch.specs.Sketches.{has_room, row_for, more_of, count_after};

// With how many rows that count, and with how many in all; and whether the table's count was told outright.
#[derive(Clone, Copy, PartialEq, Eq)]
pub struct Filled {
    pub counted: usize,
    pub used: usize,
    pub told: bool,
}

impl Filled {
    // Whether a table of n rows has one left.
    pub fn has_room(self, n: usize) -> bool
        ensures { result ≡ has_room n self }
    {
        self.counted < n && self.used < n
    }

    // Where the next row goes.
    pub fn row_for(self, behind: bool) -> usize
        ensures { result ≡ row_for self behind }
    {
        if behind { self.used } else { self.counted }
    }

    // With one row more.
    pub(crate) fn more(self, behind: bool) -> Filled
        requires { (self.counted < 2 ^ 64 - 1) × (self.used < 2 ^ 64 - 1) }
        ensures { result ≡ more_of self behind }
    {
        Filled {
            counted: if behind {
                self.counted
            } else {
                self.counted + 1
            },
            used: self.used + 1,
            told: self.told,
        }
    }

    // The count of a table, where it was `old`.
    pub fn count_after(self, old: usize) -> usize
        ensures { result ≡ count_after self old }
    {
        if self.told { old } else { self.counted }
    }
}
