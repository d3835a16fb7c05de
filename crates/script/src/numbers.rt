// The numbers of a script line. Each is read at the front of a text, and comes with the text behind it.
ghost use Rattle.std.specs.Prelude.{◌≡◌, ◌<◌, IfSome, drop};
ghost use Rattle.script.specs.Reading.{whole_of, with_sign, signed_numeral, numeral_of, field_of, three_of};
ghost use Rattle.script.specs.Fronts.{front, leading_digit};

// The value of the digit at an index, if one stands there.
#[tactic(auto, using(crate::proofs::Digits::digit_out, crate::proofs::Digits::digit_is, crate::proofs::Digits::digit_low, crate::proofs::Digits::digit_high))]
fn digit_at(text: &[u8], at: usize) -> Option<u32>
    ensures { result ≡ leading_digit (drop at text.now) }
{
    match text.get(at) {
        Some(b @ b'0'..=b'9') => Some(u32::from(*b - b'0')),
        _ => None,
    }
}

// One to six digits.
fn whole(text: &[u8]) -> Option<(u32, &[u8])>
    ensures read { front result ≡ whole_of text.now }
    ensures small { IfSome result (λ r. r.0 < 1000000) }
{
    let mut value = digit_at(text, 0)?;
    for i in 1..6usize {
        let Some(digit) = digit_at(text, i) else {
            return Some((value, &text[i..]));
        };
        value = value * 10 + digit;
    }
    Some((value, &text[6..]))
}

fn with_sign(minus: bool, value: u32) -> i32
    requires { value < 1000000 }
    ensures { result ≡ with_sign minus value }
{
    if minus { -(value as i32) } else { value as i32 }
}

// One to six digits, which a minus goes before or not.
#[tactic(auto, unfolding(crate::specs::Reading::signed_numeral))]
fn signed(text: &[u8], minus: bool) -> Option<(i32, &[u8])>
    ensures { front result ≡ signed_numeral minus text.now }
{
    let (value, rest) = whole(text)?;
    Some((with_sign(minus, value), rest))
}

// An optional minus and one to six digits.
#[tactic(auto, unfolding(crate::specs::Reading::numeral_of))]
fn number(text: &[u8]) -> Option<(i32, &[u8])>
    ensures { front result ≡ numeral_of text.now }
{
    match text {
        [b'-', rest @ ..] => signed(rest, true),
        _ => signed(text, false),
    }
}

// A space and a number.
#[tactic(auto, unfolding(crate::specs::Reading::field_of))]
pub fn field(text: &[u8]) -> Option<(i32, &[u8])>
    ensures { front result ≡ field_of text.now }
{
    match text {
        [b' ', rest @ ..] => number(rest),
        _ => None,
    }
}

// Three numbers, a space before each.
#[tactic(auto, unfolding(crate::specs::Reading::three_of))]
pub fn three(text: &[u8]) -> Option<((i32, i32, i32), &[u8])>
    ensures { front result ≡ three_of text.now }
{
    let (a, text) = field(text)?;
    let (b, text) = field(text)?;
    let (c, text) = field(text)?;
    Some(((a, b, c), text))
}
