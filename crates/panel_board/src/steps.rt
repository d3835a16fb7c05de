// A script from a drawing, each line by the public call, printed with what came of it.
ghost use Rattle.std.specs.Prelude.{◌≤◌, length};

use crate::print::{put, put_drawing, put_front, put_row};
use line_call::step;
use sheet::{Drawing, Tally};
use std::io;
use step::NO_TALLY;
use telling::Stepped;

// A line: the reply and the row that it tells; or what the call prints, and behind an edit the tally and all rows.
fn answer(rt: &impl Print, d: Drawing, t: Tally, line: &[u8], told: bool) -> io::Result<Stepped> {
    put(rt, b"> ")?;
    put(rt, line)?;
    put(rt, b"\n")?;
    let mut out = [0u8; 8192];
    let s = step(d, line, t, &mut out);
    if told {
        put_row(rt, s.edited.reply, s.edited.row)?;
        return Ok(s);
    }
    put_front(rt, &out, s.length)?;
    if line.starts_with(b"n") {
        put(rt, b".\n")?;
    } else {
        put_drawing(rt, s.edited.drawing, s.edited.tally)?;
    }
    Ok(s)
}

// The index of the end of the line that begins at an index.
fn line_end(text: &[u8], at: usize) -> usize
    requires { at ≤ length text.now }
    ensures { (at ≤ result) × (result ≤ length text.now) }
{
    let mut i = at;
    while i < text.len() {
        if text[i] == b'\n' {
            return i;
        }
        i += 1;
    }
    i
}

// All lines of a text, from a drawing on.
fn lines(rt: &impl Print, d: Drawing, text: &[u8], told: bool) -> io::Result<Drawing> {
    let mut drawing = d;
    let mut tally = NO_TALLY;
    let mut at: usize = 0;
    while at < text.len() {
        let end = line_end(text, at);
        let s = answer(rt, drawing, tally, &text[at..end], told)?;
        drawing = s.edited.drawing;
        tally = s.edited.tally;
        if end == text.len() {
            return Ok(drawing);
        }
        at = end + 1;
    }
    Ok(drawing)
}

// All lines of a text, each with what it prints.
pub(crate) fn run(rt: &impl Print, d: Drawing, text: &[u8]) -> io::Result<Drawing> {
    put(rt, b"#\n")?;
    lines(rt, d, text, false)
}

// All lines of a text, each with the row that its reply tells.
pub(crate) fn run_told(
    rt: &impl Print,
    d: Drawing,
    title: &[u8],
    text: &[u8],
) -> io::Result<Drawing> {
    put(rt, b"# rows told, ")?;
    put(rt, title)?;
    put(rt, b"\n")?;
    lines(rt, d, text, true)
}
