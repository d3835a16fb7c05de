// The timed calls for a caller in C: `wuyansole_time` of `bench_calls`, by that name in a static library.
#![tactic(auto)]

ghost use Rattle.std.specs.Prelude.{◌≡◌};
ghost use Rattle.bench_calls.specs.Timed.{built_by, timed_answer, again};

// The drawing of the first count edits, and then one call so many times: the last answer.
#[unsafe(no_mangle)]
pub extern "C" fn wuyansole_time(
    whats: &[u8],
    numbers: &[i32],
    count: u32,
    call: u8,
    what: u8,
    x: i32,
    y: i32,
    z: i32,
    times: u32,
) -> u32
    ensures { result ≡ again times (timed_answer call what x y z (built_by whats.now numbers.now count)) 0 }
{
    bench_calls::wuyansole_time(whats, numbers, count, call, what, x, y, z, times)
}
