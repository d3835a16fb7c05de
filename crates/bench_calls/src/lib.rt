// What a timing calls: a drawing built by edits, and then one call so many times on that drawing.
#![tactic(auto)]

pub mod answers;
pub mod editing;
pub mod files;
pub mod tables;

ghost use Rattle.std.specs.Prelude.{◌≡◌, pos, get_or};
ghost use Rattle.sheet.specs.Rules.{Lawful};
ghost use Rattle.bench_calls.specs.Timed.{after_edit, built_by, timed_answer, again};

use crate::answers::answer;
use crate::editing::edit_on;
use empty::empty_drawing;
use sheet::{Drawing, Tally};

// The byte at a place, and 0 past the end.
fn byte_at(bytes: &[u8], i: usize) -> u8
    ensures { result ≡ get_or bytes.now i 0 }
{
    if i < bytes.len() { bytes[i] } else { 0 }
}

// The number at a place, and 0 past the end.
fn number_at(numbers: &[i32], i: usize) -> i32
    ensures { result ≡ get_or numbers.now i (pos 0) }
{
    if i < numbers.len() { numbers[i] } else { 0 }
}

// The drawing after an edit; one that is refused leaves it as it was.
fn next(d: Drawing, what: u8, x: i32, y: i32, z: i32) -> Drawing
    requires { Lawful d }
    ensures { result ≡ after_edit what x y z d }
{
    let t = Tally {
        wires: 0,
        joints: 0,
        components: 0,
        ends: 0,
    };
    let e = edit_on(d, what, x, y, z, t);
    if e.reply == 0 {
        let after = e.drawing;
        return after;
    }
    d
}

// The empty drawing after so many edits: the number of each, and three numbers for each.
fn built(whats: &[u8], numbers: &[i32], count: u32) -> Drawing
    ensures { result ≡ built_by whats.now numbers.now count }
{
    let mut d = empty_drawing();
    for i in 0..count {
        let n = i as usize;
        let what = byte_at(whats, n);
        let x = number_at(numbers, 3 * n);
        let y = number_at(numbers, 3 * n + 1);
        let z = number_at(numbers, 3 * n + 2);
        d = next(d, what, x, y, z);
    }
    d
}

// One call so many times, each on the same drawing and with the answer before.
fn repeated(call: u8, d: Drawing, what: u8, x: i32, y: i32, z: i32, times: u32) -> u32
    requires { Lawful d }
    ensures { result ≡ again times (timed_answer call what x y z d) 0 }
{
    let mut last: u32 = 0;
    for _ in 0..times {
        last = answer(call, d, what, x, y, z, last);
    }
    last
}

// The drawing of the first count edits, and then one call so many times: the last answer. `bench_calls_c` hands it to callers in C.
pub fn wuyansole_time(
    whats: &[u8],
    numbers: &[i32],
    count: u32,
    call: u8,
    what: u8,
    x: i32,
    y: i32,
    z: i32,
    times: u32,
) -> u32
    ensures { result ≡ again times (timed_answer call what x y z (built_by whats.now numbers.now count)) 0 }
{
    let d = built(whats, numbers, count);
    repeated(call, d, what, x, y, z, times)
}
