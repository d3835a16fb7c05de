// Bytes put into a lent buffer. A `put_..` function writes what fits and tells the index behind all that it was to write:
// so a first run over a byte of one's own tells the length of a text. (`out` and `at` are no struct with methods: `Put old at bytes new next`
// speaks of the two alone, and each clause of the callers would be as long over a struct's fields before and after.)
#![tactic(auto)]

ghost use Rattle.std.specs.Prelude.{◌≡◌, [], ◌∷◌};
ghost use Rattle.text.specs.Text.{Put, Room, decimal_of, signed_of};

// A reply, and how many bytes of the lent buffer were written. (No Result: `length_on_refusal` of `netlist` tells a length beside a refusal.)
#[derive(Clone, Copy)]
pub struct Written {
    pub reply: u8,
    pub length: usize,
}

// One byte.
#[tactic(auto, using(std::proofs::lemmas::List::set_past))]
pub fn put_byte(out: &mut [u8], at: usize, b: u8) -> usize
    requires { Room at (b ∷ []) }
    ensures { Put out.old at (b ∷ []) out.new result }
{
    if at < out.len() {
        out[at] = b;
    }
    at + 1
}

// The bytes of a slice.
pub fn put_bytes(out: &mut [u8], at: usize, bytes: &[u8]) -> usize
    requires { Room at bytes.now }
    ensures { Put out.old at bytes.now out.new result }
{
    let mut next = at;
    for b in bytes {
        next = put_byte(out, next, *b);
    }
    next
}

// A number in decimal. The number falls at each call.
#[tactic(auto, using(crate::proofs::Decimals::decimal_digit))]
pub fn put_decimal(out: &mut [u8], at: usize, n: u32) -> usize
    requires { Room at (decimal_of n) }
    ensures { Put out.old at (decimal_of n) out.new result }
{
    if n < 10 {
        return put_byte(out, at, 48 + n as u8);
    }
    let next = put_decimal(out, at, n / 10);
    put_byte(out, next, 48 + (n % 10) as u8)
}

// A number with its sign: a minus before a negative one.
pub fn put_signed(out: &mut [u8], at: usize, n: i32) -> usize
    requires { Room at (signed_of n) }
    ensures { Put out.old at (signed_of n) out.new result }
{
    if n < 0 {
        let next = put_byte(out, at, b'-');
        return put_decimal(out, next, n.unsigned_abs());
    }
    put_decimal(out, at, n.unsigned_abs())
}
