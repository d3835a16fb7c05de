// What is printed, put into a lent buffer.
ghost use Rattle.std.specs.Prelude.{◌≡◌, ◌+◌, ◌≤◌};
ghost use Rattle.text.specs.Text.{Put};
ghost use Rattle.check_script.specs.Saying.{said_as};
ghost use Rattle.panel_check.specs.Answers.{verdict_line, unreadable_of, is_end, next_number};

use check_script::Said;
use text::{put_byte, put_bytes, put_decimal};

// `rule first second`
// Takes the rule as a number, since it prints the document's number.
pub fn put_checked(out: &mut [u8], at: usize, rule: u8, first: u16, second: u16) -> usize
    requires { at ≤ 900000 }
    ensures { Put out.old at (verdict_line rule first second) out.new result × (result ≤ at + 36) }
{
    let p = put_decimal(out, at, rule as u32);
    let p = put_byte(out, p, b' ');
    let p = put_decimal(out, p, first as u32);
    let p = put_byte(out, p, b' ');
    let p = put_decimal(out, p, second as u32);
    put_byte(out, p, b'\n')
}

// `unreadable LINE-NUMBER`
pub fn put_unreadable(out: &mut [u8], line: u32) -> usize
    ensures { Put out.old 0 (unreadable_of line) out.new result × (result ≤ 36) }
{
    let p = put_bytes(out, 0, b"unreadable ");
    let p = put_decimal(out, p, line);
    put_byte(out, p, b'\n')
}

// Whether a line ends a drawing.
pub fn is_end(said: Option<Said>) -> bool
    ensures { result ≡ is_end (said_as said) }
{
    matches!(said, Some(Said::End))
}

// The number of the next line.
pub fn next_number(n: u32) -> u32
    ensures { result ≡ next_number n }
{
    n.saturating_add(1)
}
