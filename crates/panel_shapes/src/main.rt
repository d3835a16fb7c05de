// Prints the bits of shapes: at each of 600 positions a line of checksums over every shape there, and at two of them every shape in full.
// `stdout` is what the Rust prints.
#![tactic(auto)]

ghost use Rattle.std.specs.Prelude.{◌<◌};

use draw::Draw;
use label::label_of;
use refusal::Refusal;
use std::io;

// A float's bits. A drawn number is no NaN, whose bits nothing tells.
fn bits(f: f32) -> u32 {
    if f != f {
        return 0xffffffff;
    }
    f32::to_bits(f)
}

// ---- positions, as rows hold them

fn across(p: u32) -> u16
    requires { p < 600 }
    ensures { result < 12001 }
{
    if p < 4 {
        return ((p % 2) * 11600 + 200) as u16;
    }
    (((p - 4) * 7919 + 5800) % 11601 + 200) as u16
}

fn down(p: u32) -> u16
    requires { p < 600 }
    ensures { result < 12001 }
{
    if p < 4 {
        return ((p / 2) * 11600 + 200) as u16;
    }
    (((p - 4) * 4211 + 5800) % 11601 + 200) as u16
}

// ---- shapes at a position

// Shape n % 8 of a kind in orientation n / 32, its state n / 8 % 4.
fn symbol(kind: u8, n: usize, x: u16, y: u16) -> Result<Option<Draw>, Refusal>
    requires { n < 256 }
{
    let o = (n / 32) as u8;
    let label = label_of(b"");
    let state = n / 8 % 4;
    let px = edge::coordinate(x);
    let py = edge::coordinate(y);
    cad::component(
        kind,
        o,
        px,
        py,
        label,
        n % 8,
        state % 2 == 1,
        state / 2 == 1,
    )
}

// Three wires: to the right edge, from the top edge, and of no length.
fn wire(n: usize, x: u16, y: u16) -> Result<Option<Draw>, Refusal> {
    let px = edge::coordinate(x);
    let py = edge::coordinate(y);
    match n {
        0 => cad::wire(false, py, px, 6000),
        1 => cad::wire(true, px, -6000, py),
        _ => cad::wire(true, px, py, py),
    }
}

fn joint(n: usize, x: u16, y: u16) -> Result<Option<Draw>, Refusal>
    requires { n < 5 }
{
    let px = edge::coordinate(x);
    let py = edge::coordinate(y);
    cad::junction(px, py, n as u16)
}

// ---- checksums

fn mix(h: u64, v: u32) -> u64
    requires { h < 4294967291 }
    ensures { result < 4294967291 }
{
    (h * 16777619 + v as u64 + 1) % 4294967291
}

fn mix_shape(h: u64, s: Result<Option<Draw>, Refusal>) -> u64
    requires { h < 4294967291 }
    ensures { result < 4294967291 }
{
    let Ok(Some(d)) = s else {
        return mix(h, 3);
    };
    match d {
        Draw::Line(p, q, width) => {
            let a = mix(mix(mix(h, 1), bits(p.x)), bits(p.y));
            let b = mix(mix(a, bits(q.x)), bits(q.y));
            mix(b, bits(width))
        }
        Draw::Circle(p, radius, width) => {
            let a = mix(mix(mix(h, 2), bits(p.x)), bits(p.y));
            mix(mix(a, bits(radius)), bits(width))
        }
    }
}

fn symbols_sum(kind: u8, x: u16, y: u16) -> u64 {
    let mut h: u64 = 7;
    for n in 0..256 {
        h = mix_shape(h, symbol(kind, n, x, y));
    }
    h
}

fn wires_sum(x: u16, y: u16) -> u64 {
    let mut h: u64 = 7;
    for n in 0..3 {
        h = mix_shape(h, wire(n, x, y));
    }
    h
}

fn joints_sum(x: u16, y: u16) -> u64 {
    let mut h: u64 = 7;
    for n in 0..5 {
        h = mix_shape(h, joint(n, x, y));
    }
    h
}

// ---- printing

fn print_digit(rt: &impl Print, n: usize) -> io::Result<()>
    requires { n < 10 }
{
    print!(rt; " {n}")
}

// A coordinate: a sign and four digits.
fn print_coordinate(rt: &impl Print, n: u16) -> io::Result<()>
    requires { n < 12001 }
{
    if n < 6000 {
        let below = 6000 - n;
        print!(rt; " -{below:04}")
    } else {
        let above = n - 6000;
        print!(rt; " +{above:04}")
    }
}

fn print_word(rt: &impl Print, n: u64) -> io::Result<()> {
    print!(rt; " {n:08x}")
}

fn print_f32(rt: &impl Print, f: f32) -> io::Result<()> {
    print_word(rt, bits(f) as u64)
}

fn print_shape(rt: &impl Print, s: Result<Option<Draw>, Refusal>) -> io::Result<()> {
    let Ok(Some(d)) = s else {
        return println!(rt; " N");
    };
    match d {
        Draw::Line(p, q, width) => {
            print!(rt; " L")?;
            print_f32(rt, p.x)?;
            print_f32(rt, p.y)?;
            print_f32(rt, q.x)?;
            print_f32(rt, q.y)?;
            print_f32(rt, width)?;
        }
        Draw::Circle(p, radius, width) => {
            print!(rt; " C")?;
            print_f32(rt, p.x)?;
            print_f32(rt, p.y)?;
            print_f32(rt, radius)?;
            print_f32(rt, width)?;
        }
    }
    println!(rt; "")
}

fn print_symbol(rt: &impl Print, kind: u8, n: usize, x: u16, y: u16) -> io::Result<()>
    requires kind { kind < 3 }
    requires shape { n < 256 }
{
    print!(rt; "S")?;
    print_digit(rt, kind as usize)?;
    print_digit(rt, n / 32)?;
    print_digit(rt, n / 8 % 4)?;
    print_digit(rt, n % 8)?;
    print_shape(rt, symbol(kind, n, x, y))
}

fn print_symbols(rt: &impl Print, kind: u8, x: u16, y: u16) -> io::Result<()>
    requires { kind < 3 }
{
    for n in 0..256 {
        print_symbol(rt, kind, n, x, y)?;
    }
    Ok(())
}

fn print_wire(rt: &impl Print, n: usize, x: u16, y: u16) -> io::Result<()>
    requires { n < 3 }
{
    print!(rt; "W")?;
    print_digit(rt, n)?;
    print_shape(rt, wire(n, x, y))
}

fn print_joint(rt: &impl Print, n: usize, x: u16, y: u16) -> io::Result<()>
    requires { n < 5 }
{
    print!(rt; "J")?;
    print_digit(rt, n)?;
    print_shape(rt, joint(n, x, y))
}

// Every shape in full.
fn print_all(rt: &impl Print, x: u16, y: u16) -> io::Result<()> {
    print_symbols(rt, 0, x, y)?;
    print_symbols(rt, 1, x, y)?;
    print_symbols(rt, 2, x, y)?;
    for n in 0..3 {
        print_wire(rt, n, x, y)?;
    }
    for n in 0..5 {
        print_joint(rt, n, x, y)?;
    }
    Ok(())
}

// The line of a position.
fn print_position(rt: &impl Print, x: u16, y: u16) -> io::Result<()>
    requires across { x < 12001 }
    requires down { y < 12001 }
{
    print!(rt; "P")?;
    print_coordinate(rt, x)?;
    print_coordinate(rt, y)?;
    print_word(rt, symbols_sum(0, x, y))?;
    print_word(rt, symbols_sum(1, x, y))?;
    print_word(rt, symbols_sum(2, x, y))?;
    print_word(rt, wires_sum(x, y))?;
    print_word(rt, joints_sum(x, y))?;
    println!(rt; "")
}

// The lines of position p.
fn print_at(rt: &impl Print, p: u32) -> io::Result<()>
    requires { p < 600 }
{
    let x = across(p);
    let y = down(p);
    print_position(rt, x, y)?;
    if p == 4 || p == 6 {
        print_all(rt, x, y)?;
    }
    Ok(())
}

fn main(rt: HostRuntime) -> io::Result<()> {
    for p in 0..600 {
        print_at(&rt, p)?;
    }
    Ok(())
}
