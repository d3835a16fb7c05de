// A number looked up among many: those of one key are chained, so that only a few are looked at.
#![tactic(auto)]

ghost use Rattle.std.specs.Prelude.{◌≡◌, ◌≤◌, ◌<◌, ◌%◌, eqb, take};
ghost use Rattle.std.specs.List.{list_any};
ghost use Rattle.chains.specs.Chains.{Traced, FoundAt};

// The last place of each key, and for each place the one before it with its key; both plus one, and 0 for none.
#[derive(Clone, Copy)]
pub struct Index {
    pub last: [u16; 4096],
    pub before: [u16; 1408],
}

// Numbers with one key are in one chain.
fn key_of(c: u64) -> usize
    ensures { (result ≡ c % 4093) × (result < 4096) }
{
    (c % 4093) as usize
}

// The chains of the first n numbers.
pub fn chain(codes: [u64; 1408], n: usize) -> Index
    requires { n ≤ 1408 }
    ensures { Traced (λ c. c % 4093) (take n codes) result.last result.before }
{
    let last = [0u16; 4096];
    let before = [0u16; 1408];
    let mut out = Index { last, before };
    let mut i = 0;
    while i < n {
        let c = codes[i];
        let k = key_of(c);
        let l = out.last[k];
        out.before[i] = l;
        i += 1;
        out.last[k] = i as u16;
    }
    out
}

// Where the number is among the first n, or n. Not where another one is (another_number_found).
pub fn seek(
    codes: &[u64; 1408],
    n: usize,
    last: &[u16; 4096],
    before: &[u16; 1408],
    c: u64,
) -> usize
    requires { (n ≤ 1408) × Traced (λ c. c % 4093) (take n codes.now) last.now before.now }
    ensures { FoundAt c (take n codes.now) n result }
{
    let key = key_of(c);
    let mut k = last[key] as usize;
    while 0 < k {
        let j = k - 1;
        if codes[j] == c {
            return j;
        }
        k = before[j] as usize;
    }
    n
}

// The number is one of the first n. Not one that is none of them (missing_number_found).
pub fn is_in(
    codes: &[u64; 1408],
    n: usize,
    last: &[u16; 4096],
    before: &[u16; 1408],
    c: u64,
) -> bool
    requires { (n ≤ 1408) × Traced (λ c. c % 4093) (take n codes.now) last.now before.now }
    ensures { result ≡ list_any (eqb c) (take n codes.now) }
{
    seek(codes, n, last, before, c) < n
}
