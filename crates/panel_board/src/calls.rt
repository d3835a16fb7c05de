// What no script can ask for: drawings that are not lawful, numbers that are no orientation's, labels as callers give them, buffers
// of any length. Of each call the name, `A <reply> <hit> <lost>` and the tally, which was lent as 9 9 9 9.
use crate::drawings::{component, components, empty, full_wires, joint, joints, wire, wires};
use crate::print::{put, put_count, put_edited, put_length, put_tally, put_told};
use crate::steps::run;
use label::{Label, label_of};
use lending::{
    tally_after_component, tally_after_delete, tally_after_mirror, tally_after_turn,
    tally_after_wire,
};
use line_call::step;
use refusal::Refusal;
use schematic::{
    add_component, add_wire, delete_at_point, mirror_component_at_point, rotate_component_at_point,
};
use sheet::{Drawing, Tally, Wire};
use std::io;

const NINES: Tally = Tally {
    wires: 9,
    joints: 9,
    components: 9,
    ends: 9,
};

// The reply and the count of `loose`.
fn put_loose(rt: &impl Print, d: Drawing) -> io::Result<()> {
    let loose = netlist::loose(d);
    put(rt, b"loose")?;
    put_count(rt, loose.reply as u32)?;
    put_count(rt, loose.count)?;
    put(rt, b"\n")
}

// The list in a lent buffer: reply, length, and the whole buffer afterwards.
fn list(rt: &impl Print, d: Drawing, out: &mut [u8]) -> io::Result<()> {
    let told = netlist::build_netlist(d, out);
    put(rt, b"build_netlist")?;
    put_count(rt, told.reply as u32)?;
    put_length(rt, told.length)?;
    put(rt, b"\n")?;
    put(rt, out)?;
    put(rt, b"\n")
}

// The check, and each call with all wrong that can be: the first of document 01's order is told.
fn all_wrong(rt: &impl Print, d: Drawing) -> io::Result<()> {
    let k = lawful::check(d);
    put(rt, b"check")?;
    put_count(rt, k.rule as u32)?;
    put_count(rt, k.first as u32)?;
    put_count(rt, k.second as u32)?;
    put(rt, b"\n")?;
    put_told(rt, b"add_wire", add_wire(d, false, 6001, 5, 4, NINES))?;
    let long = label_of(b"a label too long ");
    put_told(
        rt,
        b"add_component",
        add_component(d, 3, 8, 5801, 0, long, NINES),
    )?;
    put_told(
        rt,
        b"delete_at_point",
        delete_at_point(d, 6001, 0, 1001, NINES),
    )?;
    put_told(
        rt,
        b"rotate_component_at_point",
        rotate_component_at_point(d, 6001, 0, 1001, NINES),
    )?;
    put_told(
        rt,
        b"mirror_component_at_point",
        mirror_component_at_point(d, 6001, 0, 1001, NINES),
    )?;
    let mut buffer = [b'.'; 4];
    list(rt, d, &mut buffer)?;
    put_loose(rt, d)
}

// h 0 0 100 and a second wire, of which so many count, with joints at x1 and x2 of which so many count, by coordinates plus 6,000.
fn wired(
    rt: &impl Print,
    second: Wire,
    count: usize,
    x1: u16,
    x2: u16,
    ends: u16,
    points: usize,
) -> io::Result<()> {
    let ws = wires(wire(false, 6000, 6000, 6100), second, count);
    let js = joints(joint(x1, 6000, 1), joint(x2, 6000, ends), points);
    let e = empty();
    let cs = e.components;
    all_wrong(
        rt,
        Drawing {
            wires: ws,
            components: cs,
            joints: js,
        },
    )?;
    Ok(())
}

// A lawful drawing, and drawings that break a rule, the first of those that they break.
pub(crate) fn damaged(rt: &impl Print) -> io::Result<()> {
    put(rt, b"# lawful\n")?;
    let none = wire(false, 0, 0, 0);
    wired(rt, none, 1, 6000, 6100, 1, 2)?;
    put(
        rt,
        b"# rule 1: 513 wires; a wire behind the count; a wire from 5 to 5; a joint behind the count\n",
    )?;
    wired(rt, none, 513, 6000, 6100, 1, 2)?;
    wired(rt, wire(false, 6000, 6100, 6200), 1, 6000, 6100, 1, 2)?;
    wired(rt, wire(false, 6000, 6005, 6005), 2, 6000, 6100, 1, 2)?;
    wired(rt, none, 1, 6000, 6100, 1, 1)?;
    put(
        rt,
        b"# rules 2 to 4: h 0 0 100 with h 0 50 150, with v 50 0 80, with h 0 100 200\n",
    )?;
    wired(rt, wire(false, 6000, 6050, 6150), 2, 6000, 6100, 1, 2)?;
    wired(rt, wire(true, 6050, 6000, 6080), 2, 6000, 6100, 1, 2)?;
    wired(rt, wire(false, 6000, 6100, 6200), 2, 6000, 6100, 1, 2)?;
    put(
        rt,
        b"# rules 6 and 7: (100,0) with count 2; the joints the other way round\n",
    )?;
    wired(rt, none, 1, 6000, 6100, 2, 2)?;
    wired(rt, none, 1, 6100, 6000, 1, 2)
}

// Contacts at (0,0) in an orientation, (300,0) and (350,0), with no joint.
fn three_contacts(rt: &impl Print, o: u8) -> io::Result<()> {
    let b = component(1, 0, 6300, 6000);
    let c = component(1, 0, 6350, 6000);
    let cs = components(component(1, o, 6000, 6000), b, c, 3);
    let e = empty();
    let ws = e.wires;
    let js = e.joints;
    all_wrong(
        rt,
        Drawing {
            wires: ws,
            components: cs,
            joints: js,
        },
    )?;
    Ok(())
}

// The number of what a turn answers.
fn put_turn(rt: &impl Print, t: Result<u8, Refusal>) -> io::Result<()> {
    match t {
        Ok(_) => put_count(rt, 0),
        Err(r) => put_count(rt, u8::from(r) as u32),
    }
}

// A component of a kind in an orientation, and the turns asked of that orientation: 4 where it is none.
fn oriented(rt: &impl Print, name: &[u8], kind: u8, o: u8) -> io::Result<()> {
    put_told(
        rt,
        name,
        add_component(empty(), kind, o, 0, 0, label_of(b"K1"), NINES),
    )?;
    put(rt, b"turns")?;
    put_turn(rt, orientation::rotate_r(o))?;
    put_turn(rt, orientation::rotate_l(o))?;
    put_turn(rt, orientation::mirror(o))?;
    put(rt, b"\n")
}

pub(crate) fn outside(rt: &impl Print) -> io::Result<()> {
    put(
        rt,
        b"# rule 5: contacts at (0,0), (300,0) and (350,0); rule 1: an orientation that is none\n",
    )?;
    three_contacts(rt, 0)?;
    three_contacts(rt, 8)?;
    put(
        rt,
        b"# orientations that are none of the eight, and a kind that is none\n",
    )?;
    oriented(rt, b"8", 1, 8)?;
    oriented(rt, b"128", 1, 128)?;
    oriented(rt, b"255", 1, 255)?;
    oriented(rt, b"kind 255", 255, 7)
}

// A contact at (0, 0) with a label as a caller gives it.
fn labelled(rt: &impl Print, name: &[u8], bytes: [u8; 16], length: usize) -> io::Result<()> {
    let e = add_component(empty(), 1, 0, 0, 0, Label { bytes, length }, NINES);
    put(rt, name)?;
    put(rt, b"\n")?;
    put_edited(rt, e, false)
}

// "Label: 0 to 16 bytes, each 0x21 to 0x7E": the length tells how many, and bytes behind it say nothing.
pub(crate) fn labels(rt: &impl Print) -> io::Result<()> {
    put(rt, b"# labels\n")?;
    let mut bytes = [b'K'; 16];
    labelled(rt, b"16 bytes", bytes, 16)?;
    labelled(rt, b"17 bytes", bytes, 17)?;
    labelled(rt, b"far more", bytes, 18446744073709551615)?;
    bytes[2] = 0;
    labelled(rt, b"a zero byte, behind the length", bytes, 2)?;
    labelled(rt, b"and not", bytes, 3)?;
    bytes[2] = 0x20;
    labelled(rt, b"a space", bytes, 3)?;
    bytes[2] = 0x7f;
    labelled(rt, b"0x7F", bytes, 3)
}

// The tallies after a delete, a turn and a mirroring at (x, 0).
fn pointed(rt: &impl Print, d: Drawing, x: i32, size: i32) -> io::Result<()> {
    put_tally(rt, tally_after_delete(d, x, 0, size))?;
    put_tally(rt, tally_after_turn(d, x, 0, size))?;
    put_tally(rt, tally_after_mirror(d, x, 0, size))
}

// "The caller lends a tally that is brought up to date in its place": 9 9 9 9 is lent, and stays after a refusal.
pub(crate) fn lent(rt: &impl Print) -> io::Result<()> {
    put(
        rt,
        b"# a lent tally: 2, 1, 11; a wire of zero length, and a wire\n",
    )?;
    put_tally(rt, tally_after_wire(empty(), false, 0, 6, 5))?;
    put_tally(rt, tally_after_wire(empty(), true, 6001, 0, 9))?;
    put_tally(rt, tally_after_wire(full_wires(), false, 600, 0, 9))?;
    put_tally(rt, tally_after_wire(empty(), false, 0, 5, 5))?;
    put_tally(rt, tally_after_wire(empty(), false, 0, 0, 100))?;
    put(
        rt,
        b"# 4, 1, 5, 6; a contact with pad C on v 100 -200 200\n",
    )?;
    let wired = add_wire(empty(), true, 100, -200, 200, NINES);
    let v = wired.drawing;
    let k1 = label_of(b"K1");
    let placed = add_component(v, 1, 1, 0, 0, k1, NINES);
    let d = placed.drawing;
    put_tally(rt, tally_after_component(v, 3, 1, 0, 0, k1))?;
    put_tally(rt, tally_after_component(v, 1, 1, 5801, 0, k1))?;
    let long = label_of(b"a label too long ");
    put_tally(rt, tally_after_component(v, 1, 1, 0, 0, long))?;
    put_tally(rt, tally_after_component(d, 1, 0, 150, 0, k1))?;
    put_tally(rt, tally_after_component(v, 1, 1, 0, 0, k1))?;
    put(
        rt,
        b"# delete, turn and mirror there: 1; 3; no hit; the contact\n",
    )?;
    pointed(rt, d, 6001, 1001)?;
    pointed(rt, d, 0, 1001)?;
    pointed(rt, d, 1000, 0)?;
    pointed(rt, d, 0, 0)
}

// A script line as a call: reply, hit and lost, tally, and the whole buffer afterwards.
fn line(rt: &impl Print, d: Drawing, text: &[u8], out: &mut [u8]) -> io::Result<()> {
    put(rt, b"> ")?;
    put(rt, text)?;
    let s = step(d, text, NINES, out);
    put(rt, b"\nstep")?;
    let e = s.edited;
    put_count(rt, u32::from(e.reply))?;
    put_count(rt, e.hit)?;
    put_count(rt, e.lost)?;
    put_length(rt, s.length)?;
    put(rt, b"\n")?;
    put(rt, out)?;
    put(rt, b"\n")?;
    put_tally(rt, e.tally)
}

// "Order: 10, 9, ..": lines on a drawing that is not lawful, in a buffer of 9 bytes.
pub(crate) fn lines(rt: &impl Print) -> io::Result<()> {
    put(
        rt,
        b"# script lines on a drawing that is not lawful, in a buffer of 9 bytes\n",
    )?;
    let ws = wires(wire(false, 6000, 6000, 6100), wire(false, 0, 0, 0), 1);
    let e = empty();
    let cs = e.components;
    let js = e.joints;
    let d = Drawing {
        wires: ws,
        components: cs,
        joints: js,
    };
    let mut out = [b'.'; 9];
    line(rt, d, b"h 6001  5 4", &mut out)?;
    line(rt, d, b"h 6001 5 4", &mut out)?;
    line(rt, d, b"m 6001 0 1001", &mut out)?;
    line(rt, d, b"n", &mut out)
}

// "8: the list is longer than the lent buffer"; "bytes behind it stay. A refusal tells length 0."
pub(crate) fn buffers(rt: &impl Print) -> io::Result<()> {
    let d = run(
        rt,
        empty(),
        b"p 0 0 0 0\np 2 0 0 400 K1\np 1 0 300 0 K1\nv 0 0 300\nh 0 0 200\nv 200 -100 0\nh -100 200 300",
    )?;
    put(rt, b"# buffers of 40, 41 and 45 bytes, and of none\n")?;
    let mut short = [b'.'; 40];
    list(rt, d, &mut short)?;
    let mut exact = [b'.'; 41];
    list(rt, d, &mut exact)?;
    let mut long = [b'.'; 45];
    list(rt, d, &mut long)?;
    let mut none = [0u8; 0];
    list(rt, d, &mut none)?;
    list(rt, empty(), &mut none)?;
    put_loose(rt, d)?;
    put(
        rt,
        b"# lines in buffers of 40, 41, 44 and 45 bytes, and of none\n",
    )?;
    let mut short = [b'.'; 40];
    line(rt, d, b"n", &mut short)?;
    let mut exact = [b'.'; 41];
    line(rt, d, b"n", &mut exact)?;
    let mut most = [b'.'; 44];
    line(rt, d, b"n", &mut most)?;
    let mut long = [b'.'; 45];
    line(rt, d, b"n", &mut long)?;
    line(rt, d, b"h 6000 0 9", &mut none)
}
