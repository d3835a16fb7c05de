// Shapes asked for that are refused, or that there are not: a component's 4, 1 or 5 before "no shape", a wire's 1 or 2, a joint's 1
// "before its count is looked at". Drawn shapes are printed by `panel_shapes`.
use crate::print::{put, put_count};
use draw::Draw;
use label::{Label, label_of};
use refusal::Refusal;
use std::io;

fn put_shape(rt: &impl Print, asked: &[u8], s: Result<Option<Draw>, Refusal>) -> io::Result<()> {
    put(rt, asked)?;
    match s {
        Ok(Some(_)) => put(rt, b": drawn\n"),
        Ok(None) => put(rt, b": no shape\n"),
        Err(r) => {
            put(rt, b":")?;
            put_count(rt, u8::from(r) as u32)?;
            put(rt, b"\n")
        }
    }
}

// A component at (x, 0) in its first orientation.
fn shape(
    rt: &impl Print,
    asked: &[u8],
    kind: u8,
    x: i32,
    label: &[u8],
    i: usize,
) -> io::Result<()> {
    put_shape(
        rt,
        asked,
        cad::component(kind, 0, x, 0, label_of(label), i, true, false),
    )
}

pub(crate) fn shapes(rt: &impl Print) -> io::Result<()> {
    put(rt, b"# shapes\n")?;
    let none = Label {
        bytes: [0u8; 16],
        length: 17,
    };
    put_shape(
        rt,
        b"no orientation",
        cad::component(1, 8, 5801, 0, none, 99, true, false),
    )?;
    shape(rt, b"no kind", 3, 5801, b"K K", 99)?;
    shape(rt, b"outside", 1, 5801, b"K K", 99)?;
    shape(rt, b"a bad label", 1, 5800, b"K K", 99)?;
    shape(rt, b"power 2", 0, 5800, b"", 2)?;
    shape(rt, b"power 3", 0, 5800, b"", 3)?;
    shape(rt, b"contact 7", 1, -5800, b"K1", 7)?;
    shape(rt, b"coil 7", 2, -5800, b"K1", 7)?;
    put_shape(rt, b"wire 6001 5 4", cad::wire(false, 6001, 5, 4))?;
    put_shape(rt, b"wire 6000 5 4", cad::wire(true, 6000, 5, 4))?;
    put_shape(rt, b"wire 6000 5 5", cad::wire(true, 6000, 5, 5))?;
    put_shape(rt, b"joint 6001 0 0", cad::junction(6001, 0, 0))?;
    put_shape(rt, b"joint 0 0 2", cad::junction(0, 0, 2))?;
    put_shape(rt, b"joint 0 0 1", cad::junction(0, 0, 1))
}
