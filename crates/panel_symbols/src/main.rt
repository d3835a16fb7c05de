// Prints the turns, boxes and pads of all kinds and orientations at a few positions, and refusals; held to what the Rust prints.
#![tactic(auto)]

use component::{Corners, Pads, Position};
use refusal::Refusal;
use std::io;

// A space and a number.
fn put_number(rt: &impl Print, n: u16) -> io::Result<()> {
    print!(rt; " {n}")
}

// A space and a coordinate; one outside the range of wire ends as *.
fn put_coordinate(rt: &impl Print, x: i32) -> io::Result<()> {
    let Some(n) = edge::held_coordinate(x) else {
        return print!(rt; " *");
    };
    if n < 6000 {
        let below = 6000 - n;
        print!(rt; " -{below}")
    } else {
        put_number(rt, n - 6000)
    }
}

fn put_point(rt: &impl Print, p: Position) -> io::Result<()> {
    put_coordinate(rt, p.x)?;
    put_coordinate(rt, p.y)
}

// A space and the number of what a turn gives.
fn put_turned(rt: &impl Print, t: Result<u8, Refusal>) -> io::Result<()> {
    match t {
        Ok(n) => put_number(rt, n as u16),
        Err(_) => print!(rt; " *"),
    }
}

// A space and the number of a refusal.
fn put_refusal(rt: &impl Print, r: Refusal) -> io::Result<()> {
    put_number(rt, u8::from(r) as u16)
}

fn put_turns(rt: &impl Print, orient: u8) -> io::Result<()> {
    print!(rt; "T {orient}:")?;
    put_turned(rt, orientation::rotate_r(orient))?;
    put_turned(rt, orientation::rotate_l(orient))?;
    put_turned(rt, orientation::mirror(orient))?;
    println!(rt; "")
}

fn put_kind(rt: &impl Print, kind: u8) -> io::Result<()> {
    let turns = if orientation::can_turn(kind) { 1 } else { 0 };
    println!(rt; "K {kind}: {turns}")
}

fn put_asked(rt: &impl Print, kind: u8, orient: u8, x: i32, y: i32) -> io::Result<()> {
    print!(rt; " {kind} {orient}")?;
    put_coordinate(rt, x)?;
    put_coordinate(rt, y)?;
    print!(rt; ":")
}

fn put_box(rt: &impl Print, b: Result<Corners, Refusal>) -> io::Result<()> {
    match b {
        Ok(b) => {
            put_point(rt, b.low)?;
            put_point(rt, b.high)?;
        }
        Err(r) => put_refusal(rt, r)?,
    }
    println!(rt; "")
}

fn put_pads(rt: &impl Print, p: Result<Pads, Refusal>) -> io::Result<()> {
    match p {
        Ok(pads) => {
            let points = pads.points;
            let count = pads.count;
            print!(rt; " {count}")?;
            for p in points.iter().take(count) {
                put_point(rt, *p)?;
            }
        }
        Err(r) => put_refusal(rt, r)?,
    }
    println!(rt; "")
}

fn put_symbol(rt: &impl Print, kind: u8, orient: u8, x: i32, y: i32) -> io::Result<()> {
    print!(rt; "B")?;
    put_asked(rt, kind, orient, x, y)?;
    put_box(rt, component::component_box(kind, orient, x, y))?;
    print!(rt; "P")?;
    put_asked(rt, kind, orient, x, y)?;
    put_pads(rt, component::component_pads(kind, orient, x, y))
}

// A kind in all orientations at one position.
fn put_kind_at(rt: &impl Print, kind: u8, x: i32, y: i32) -> io::Result<()> {
    for orient in 0u8..8 {
        put_symbol(rt, kind, orient, x, y)?;
    }
    Ok(())
}

fn put_kinds_at(rt: &impl Print, x: i32, y: i32) -> io::Result<()> {
    put_kind_at(rt, 0, x, y)?;
    put_kind_at(rt, 1, x, y)?;
    put_kind_at(rt, 2, x, y)
}

fn put_all_turns(rt: &impl Print) -> io::Result<()> {
    for orient in 0u8..8 {
        put_turns(rt, orient)?;
    }
    Ok(())
}

fn put_refusals(rt: &impl Print) -> io::Result<()> {
    put_symbol(rt, 3, 0, 0, 0)?;
    put_symbol(rt, 0, 8, 0, 0)?;
    put_symbol(rt, 1, 0, 5801, 0)?;
    put_symbol(rt, 1, 0, 0, -5801)?;
    print!(rt; "B 9 9 9999 9999:")?;
    put_box(rt, component::component_box(9, 9, 9999, 9999))?;
    print!(rt; "P 9 9 9999 9999:")?;
    put_pads(rt, component::component_pads(9, 9, 9999, 9999))
}

fn main(rt: HostRuntime) -> io::Result<()> {
    put_all_turns(&rt)?;
    put_kind(&rt, 0)?;
    put_kind(&rt, 1)?;
    put_kind(&rt, 2)?;
    put_kinds_at(&rt, 0, 0)?;
    put_kinds_at(&rt, -5800, -5800)?;
    put_kinds_at(&rt, 5800, 5800)?;
    put_kinds_at(&rt, -5800, 5800)?;
    put_kinds_at(&rt, 137, -4211)?;
    put_kinds_at(&rt, -7, 9)?;
    put_refusals(&rt)
}
