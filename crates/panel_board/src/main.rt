// Examples of documents 01 and 02 through the public calls, and what only calls can show. `#` begins an example, what stands behind
// `> ` is a script line, and the lines up to `.` are what `oracle rows` prints for it. Of the full drawings, which are made by hand, only
// the answer and the tally are printed; the tally stays at the zeros that were lent until an edit is accepted.
#![tactic(auto)]

mod calls;
mod drawings;
mod files;
mod print;
mod shapes;
mod steps;

use crate::drawings::{empty, full, full_parts, full_wires};
use crate::steps::{run, run_told};
use std::io;

// "Examples on the drawing board"
fn board(rt: &impl Print) -> io::Result<()> {
    run(rt, empty(), b"h 0 0 100\nv 50 0 80\nd 50 40 5")?;
    run(rt, empty(), b"h 0 0 100\nv 50 -40 40\nh 0 50 60")?;
    run(rt, empty(), b"h 0 0 50\nh 0 50 100")?;
    run(rt, empty(), b"h 0 0 100\nv 100 0 50")?;
    run(rt, empty(), b"h 0 5 5\nh 0 6 5\nh 6001 0 9\nh 6000 0 9")?;
    run(rt, empty(), b"p 1 0 0 0\np 1 0 100 0\np 1 0 101 0\nr 0 0 0")?;
    run(rt, empty(), b"p 1 0 0 0\np 1 0 101 0\nr 0 0 60")?;
    run(rt, empty(), b"h -100 -200 200\np 1 0 0 0")?;
    Ok(())
}

// "Edits"
fn edits(rt: &impl Print) -> io::Result<()> {
    // "A corner does not" become one wire: a third wire comes and goes
    run(
        rt,
        empty(),
        b"h 0 0 100\nv 100 0 50\nh 0 100 200\nd 150 0 5",
    )?;
    // "past a pad under its middle"; then the contact goes, and the two wires in line are one
    run(
        rt,
        empty(),
        b"p 1 0 0 0\nh -100 -200 200\nd 1000 1000 0\nd 0 0 0",
    )?;
    // "the new run reaches to their outermost ends", "an end touch included"
    run(rt, empty(), b"h 0 0 50\nh 0 100 150\nh 0 50 120")?;
    // a contact's pads go with it
    run(
        rt,
        empty(),
        b"h -100 -200 200\nv 100 -90 90\np 1 0 0 0 K1\nr 0 0 0\nm 0 0 0",
    )?;
    // "Only contacts turn or mirror in place; any kind may be placed in any orientation."
    run(
        rt,
        empty(),
        b"p 0 5 0 0\np 2 7 300 0 K1\np 1 6 0 300 K2\nr 0 0 1000\nm 0 0 1000",
    )?;
    // "A delete, turn or mirror that hits nothing gives 0."
    run(rt, empty(), b"p 1 0 0 0\nd 51 0 0\nr 0 101 0\nm 0 -101 0")?;
    Ok(())
}

// Document 02, P14: a wire traced as it was drawn, in part and with a branch on it; through a crossing that it joined; over a pad. Contacts
// mirrored side by side
fn traced(rt: &impl Print) -> io::Result<()> {
    run(
        rt,
        empty(),
        b"h 0 0 100\nh 0 0 100\nh 0 20 50\nv 30 0 80\nh 0 0 100\nh 0 10 30",
    )?;
    run(
        rt,
        empty(),
        b"h 0 0 100\nv 50 -40 40\nh 0 50 60\nh 0 50 60\nv 50 -40 40",
    )?;
    run(
        rt,
        empty(),
        b"p 1 0 0 0\nh -100 -200 200\nh -100 -200 200\nh -100 -20 20",
    )?;
    run(
        rt,
        empty(),
        b"h 100 -100 200\np 1 0 0 0 K1\np 1 0 101 0 K2\np 1 1 300 0 K3\nm 0 0 1000\nm 0 0 60",
    )?;
    Ok(())
}

// "Nets and the list", "Against the Rust"
fn nets(rt: &impl Print) -> io::Result<()> {
    run(
        rt,
        empty(),
        b"p 0 0 0 0\np 2 0 0 400 K1\np 1 0 300 0 K1\nv 0 0 300\nh 0 0 200\nv 200 -100 0\nh -100 200 300\nn",
    )?;
    // the Rust forgets that K1's pad C is fed here, in one tree order
    run(
        rt,
        empty(),
        b"p 0 0 0 0\np 1 3 300 300 K1\nh 300 -100 250\nv 0 0 300\nn",
    )?;
    // a contact without a label and with A and B on one net, a label of 16 bytes
    run(
        rt,
        empty(),
        b"p 1 0 0 0\np 2 0 300 0 ABCDEFGHIJKLMNOP\nh 100 -50 50\nn",
    )?;
    run(rt, empty(), b"n")?;
    Ok(())
}

// Document 02, P2: A and B of a contact both spare, then a spare B beside a wired A; a pad with a wire that leads nowhere
fn loose(rt: &impl Print) -> io::Result<()> {
    run(
        rt,
        empty(),
        b"p 0 0 0 -300\nv 0 -300 -100\np 1 0 0 0 K1\nn\np 2 0 -50 400 K1\nv -50 100 300\nn",
    )?;
    run(rt, empty(), b"p 2 0 0 400 K1\nv 0 200 300\nn")?;
    Ok(())
}

// Replies in document 01's order, on drawings of 512 wires and of 128 components, so that 7 or 11 would apply too
fn order(rt: &impl Print) -> io::Result<()> {
    run(
        rt,
        full_wires(),
        b"h 6001 9 0\nh 600 9 0\nh 600 0 9\nh 600 5 5",
    )?;
    run(
        rt,
        full_parts(),
        b"p 3 8 9999 0 \x7f\np 0 8 9999 0 \x7f\np 0 0 9999 0 \x7f\np 0 0 0 0 \x7f\np 0 0 0 0 K\np 0 0 100 1700 K\nd 0 0 0",
    )?;
    run(
        rt,
        empty(),
        b"d 6001 0 1001\nr 0 -6001 -1\nm 0 0 1001\nd 0 0 -1\nd 6000 -6000 1000",
    )?;
    // a turn may lack room: the contact's pads would split two wires more
    run(
        rt,
        full_wires(),
        b"d -200 511 0\nd -200 510 0\np 1 0 0 -200\nv -100 -160 -140\nh -200 90 110\nr 0 -200 0",
    )?;
    Ok(())
}

// Document 02, P4: the first component touched, in row order, not the last and not the one placed first; 7, and 11 by a wire, a place and a
// turn; where both apply, 7
fn told(rt: &impl Print) -> io::Result<()> {
    run_told(
        rt,
        empty(),
        b"from nothing",
        b"p 1 0 0 0\np 1 0 101 0\np 1 0 202 0\np 1 0 150 0\np 1 0 0 0\np 1 0 0 -300\np 1 0 150 0\np 1 8 150 0\nh 0 9 0",
    )?;
    run_told(
        rt,
        full_parts(),
        b"from 128 components",
        b"p 0 0 400 200\np 0 0 100 1700\nd 0 0 0\np 0 0 100 1700",
    )?;
    run_told(
        rt,
        full_wires(),
        b"from 512 wires",
        b"h 600 0 9\np 0 0 -195 300\np 0 0 600 0\nh 9 -200 -190\nd -200 511 0\nd -200 510 0\np 1 0 0 -200\nv -100 -160 -140\nh -200 90 110\nr 0 -200 0",
    )?;
    run_told(
        rt,
        full(),
        b"from both",
        b"p 0 0 -195 300\nd 3000 1400 0\np 0 0 -195 300\nd -200 511 0\np 0 0 -195 300",
    )?;
    Ok(())
}

fn main(rt: HostRuntime) -> io::Result<()> {
    board(&rt)?;
    edits(&rt)?;
    traced(&rt)?;
    nets(&rt)?;
    loose(&rt)?;
    order(&rt)?;
    told(&rt)?;
    calls::damaged(&rt)?;
    calls::outside(&rt)?;
    calls::labels(&rt)?;
    calls::lent(&rt)?;
    calls::lines(&rt)?;
    shapes::shapes(&rt)?;
    calls::buffers(&rt)?;
    files::files(&rt)
}
