// A saved drawing by the public calls: buffers of any length, a drawing that is not lawful, files one behind the other, refusals.
use crate::drawings::{empty, wire, wires};
use crate::print::{put, put_count, put_length};
use crate::steps::run;
use opening::{open, read_drawing};
use save::save;
use sheet::Drawing;
use std::io;

// The file in a lent buffer: reply, length, and the whole buffer afterwards.
fn saved(rt: &impl Print, d: Drawing, out: &mut [u8]) -> io::Result<()> {
    let told = save(d, out);
    put(rt, b"save")?;
    put_count(rt, told.reply as u32)?;
    put_length(rt, told.length)?;
    put(rt, b"\n")?;
    put(rt, out)?;
    put(rt, b"\n")
}

// Reply, index behind it, and the numbers of wires and joints of the drawing from an index on.
fn read(rt: &impl Print, bytes: &[u8], at: usize) -> io::Result<()> {
    let f = read_drawing(bytes, at);
    put(rt, b"read_drawing")?;
    put_count(rt, f.reply as u32)?;
    put_length(rt, f.next)?;
    put_length(rt, f.drawing.wires.count)?;
    put_length(rt, f.drawing.joints.count)?;
    put(rt, b"\n")
}

// Reply, and the numbers of wires and joints of the drawing of a file.
fn opened(rt: &impl Print, bytes: &[u8]) -> io::Result<()> {
    let o = open(bytes);
    put(rt, b"open")?;
    put_count(rt, o.reply as u32)?;
    put_length(rt, o.drawing.wires.count)?;
    put_length(rt, o.drawing.joints.count)?;
    put(rt, b"\n")
}

pub(crate) fn files(rt: &impl Print) -> io::Result<()> {
    put(
        rt,
        b"# the file of one wire in buffers of 8, 9 and 12 bytes, and of none; without its joints it gets 9\n",
    )?;
    let d = run(rt, empty(), b"h 0 0 9")?;
    let mut short = [b'.'; 8];
    saved(rt, d, &mut short)?;
    let mut exact = [b'.'; 9];
    saved(rt, d, &mut exact)?;
    let mut long = [b'.'; 12];
    saved(rt, d, &mut long)?;
    let mut none = [0u8; 0];
    saved(rt, d, &mut none)?;
    let e = empty();
    let cs = e.components;
    let js = e.joints;
    let damaged = Drawing {
        wires: wires(wire(false, 6000, 6000, 6009), wire(false, 0, 0, 0), 1),
        components: cs,
        joints: js,
    };
    saved(rt, damaged, &mut long)?;
    put(
        rt,
        b"# that file and the empty drawing's behind it, from 0, 9, 12 and 13 on\n",
    )?;
    let both: [u8; 12] = [1, 240, 46, 240, 46, 249, 46, 0, 0, 0, 0, 0];
    read(rt, &both, 0)?;
    read(rt, &both, 9)?;
    read(rt, &both, 12)?;
    read(rt, &both, 13)?;
    put(
        rt,
        b"# the file, both, the file without its last byte, with a longer form, with a wire of no length and a byte more\n",
    )?;
    opened(rt, &[1, 240, 46, 240, 46, 249, 46, 0, 0])?;
    opened(rt, &both)?;
    opened(rt, &[1, 240, 46, 240, 46, 249, 46, 0])?;
    opened(rt, &[1, 240, 174, 0, 240, 46, 249, 46, 0, 0])?;
    opened(rt, &[1, 240, 46, 240, 46, 240, 46, 0, 0, 0])
}
