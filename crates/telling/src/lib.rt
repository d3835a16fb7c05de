// What is printed for a line: its answer line, which is written if the lent buffer has room for it, and for `n` the list before it.
#![tactic(auto)]

ghost use Rattle.std.specs.Prelude.{◌≡◌, ◌≤◌, length};
ghost use Rattle.sheet.specs.Rules.{Lawful};
ghost use Rattle.text.specs.Text.{Put};
ghost use Rattle.script.specs.Commands as said;
ghost use Rattle.script.specs.Commands.{commanded};
ghost use Rattle.telling.specs.Told;
ghost use Rattle.telling.specs.Told.{counted, listedly, numbered};
ghost use Rattle.telling.specs.Fitting.{Fitted, Tells, asks_list, is_counted, reply_line, told_with};

use listing::write_list_by;
use loose_pads::count_loose;
use net_numbers::pad_numbers;
use redraw::{Edited, refused};
use script::Command;
use sheet::{Drawing, Tally};
use text::{put_byte, put_bytes, put_decimal};

// What came of a line, and how many bytes of the lent buffer are what it printed.
#[derive(Clone, Copy)]
pub struct Stepped {
    pub edited: Edited,
    pub length: usize,
}

// `<letter> <number>`
pub fn put_numbered(line: &mut [u8], letter: u8, n: u32) -> usize
    ensures { Put line.old 0 (numbered letter n) line.new result × (result ≤ 40) }
{
    let p = put_byte(line, 0, letter);
    let p = put_byte(line, p, b' ');
    let p = put_decimal(line, p, n);
    put_byte(line, p, b'\n')
}

// `A <reply> <hit> <lost>`
fn put_counted(line: &mut [u8], e: &Edited) -> usize
    ensures { Put line.old 0 (counted e.now.reply e.now.hit e.now.lost) line.new result × (result ≤ 40) }
{
    let p = put_bytes(line, 0, b"A ");
    let p = put_decimal(line, p, e.reply as u32);
    let p = put_byte(line, p, b' ');
    let p = put_decimal(line, p, e.hit);
    let p = put_byte(line, p, b' ');
    let p = put_decimal(line, p, e.lost);
    put_byte(line, p, b'\n')
}

// The bytes of a line behind the first `at` of a buffer, if they fit there, and the index behind them; or nothing, and `at`.
fn put_fitting(out: &mut [u8], at: usize, line: &[u8]) -> usize
    requires at_low { at ≤ 7936 }
    requires at_within { at ≤ length out.old }
    requires line_short { length line.now ≤ 40 }
    ensures { Fitted out.old at line.now out.new result }
{
    if line.len() <= out.len() - at {
        return put_bytes(out, at, line);
    }
    at
}

// The answer line of an edit, with hit and lost or without.
fn put_reply(line: &mut [u8], counts: bool, e: &Edited) -> usize
    ensures { Put line.old 0 (reply_line counts e.now) line.new result × (result ≤ 40) }
{
    if counts {
        put_counted(line, e)
    } else {
        put_numbered(line, b'A', e.reply as u32)
    }
}

// The list, and then `E <loose>`, of a drawing that was not refused; 8 where the list is longer than the buffer. The nets are numbered once
// for both.
fn tell_list(e: Edited, out: &mut [u8]) -> Stepped
    requires { e.reply ≡ 0 → Lawful e.drawing }
    ensures { Tells (listedly e) out.old out.new result }
{
    if e.reply != 0 {
        return Stepped {
            edited: e,
            length: 0,
        };
    }
    let d = e.drawing;
    let numbers = pad_numbers(d);
    let l = write_list_by(d, numbers, out);
    if l.reply != 0 {
        return Stepped {
            edited: refused(8, d, e.tally),
            length: 0,
        };
    }
    let mut line = [0u8; 40];
    let n = put_numbered(&mut line, b'E', count_loose(d, numbers));
    let length = put_fitting(out, l.length, &line[..n]);
    Stepped { edited: e, length }
}

// Whether a command is answered with hit and lost: a turn or a mirror.
fn tells_counts(command: Option<Command>) -> bool
    ensures { result ≡ is_counted (commanded command) }
{
    matches!(command, Some(Command::Turn { .. } | Command::Mirror { .. }))
}

// Whether a command asks for the list.
pub fn asks_list(command: Option<Command>) -> bool
    ensures { result ≡ asks_list (commanded command) }
{
    matches!(command, Some(Command::Nets))
}

// What a command prints, of the edit that came of it.
pub fn tell(e: Edited, command: Option<Command>, out: &mut [u8]) -> Stepped
    requires { commanded command ≡ said.Nets → e.reply ≡ 0 → Lawful e.drawing }
    ensures { Tells (Told.told (commanded command) e) out.old out.new result }
{
    if asks_list(command) {
        return tell_list(e, out);
    }
    let mut line = [0u8; 40];
    let n = put_reply(&mut line, tells_counts(command), &e);
    let length = put_fitting(out, 0, &line[..n]);
    Stepped { edited: e, length }
}
