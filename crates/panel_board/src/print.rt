// What the program prints, in the form of `oracle rows`: an answer, the tally, rows.
use dump::put_rows;
use redraw::Edited;
use sheet::{Drawing, Tally};
use std::io;

pub(crate) fn put(rt: &impl Print, text: &[u8]) -> io::Result<()> {
    rt.write_all(text)
}

// The first n bytes of a text, if it has so many.
pub(crate) fn put_front(rt: &impl Print, text: &[u8], n: usize) -> io::Result<()> {
    if n <= text.len() {
        put(rt, &text[..n])?;
    }
    Ok(())
}

// A space and a number.
pub(crate) fn put_count(rt: &impl Print, n: u32) -> io::Result<()> {
    print!(rt; " {n}")
}

pub(crate) fn put_length(rt: &impl Print, n: usize) -> io::Result<()> {
    print!(rt; " {n}")
}

pub(crate) fn put_tally(rt: &impl Print, t: Tally) -> io::Result<()> {
    put(rt, b"T")?;
    put_count(rt, t.wires)?;
    put_count(rt, t.joints)?;
    put_count(rt, t.components)?;
    put_count(rt, t.ends)?;
    put(rt, b"\n")
}

// `A <reply>`, for r and m followed by hit and lost.
fn put_reply(rt: &impl Print, e: Edited, hits: bool) -> io::Result<()> {
    put(rt, b"A")?;
    put_count(rt, e.reply as u32)?;
    if hits {
        put_count(rt, e.hit)?;
        put_count(rt, e.lost)?;
    }
    put(rt, b"\n")
}

// `A <reply> row <row>`
// Takes the reply as a number, since it prints the document's number.
pub(crate) fn put_row(rt: &impl Print, reply: u8, row: u16) -> io::Result<()> {
    put(rt, b"A")?;
    put_count(rt, reply as u32)?;
    put(rt, b" row")?;
    put_count(rt, row as u32)?;
    put(rt, b"\n")
}

// The tally and all rows in use; of a large drawing the tally alone, and of one that is not lawful.
pub(crate) fn put_drawing(rt: &impl Print, d: Drawing, t: Tally) -> io::Result<()> {
    let js = d.joints;
    if js.count < 100 {
        let k = lawful::check(d);
        if k.rule == 0 {
            let mut out = [0u8; 65536];
            let n = put_rows(&mut out, 0, t, d);
            return put_front(rt, &out, n);
        }
    }
    put_tally(rt, t)?;
    put(rt, b".\n")
}

// The answer and all rows.
pub(crate) fn put_edited(rt: &impl Print, e: Edited, hits: bool) -> io::Result<()> {
    put_reply(rt, e, hits)?;
    let t = e.tally;
    let d = e.drawing;
    put_drawing(rt, d, t)
}

// A call's name, and its answer without rows.
pub(crate) fn put_told(rt: &impl Print, call: &[u8], e: Edited) -> io::Result<()> {
    put(rt, call)?;
    put(rt, b" ")?;
    put_reply(rt, e, true)?;
    let t = e.tally;
    put_tally(rt, t)
}
