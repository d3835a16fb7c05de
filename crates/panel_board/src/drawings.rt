// Drawings made by hand, row by row; and one full of wires to which components were added.
use label::label_of;
use schematic::add_component;
use sheet::{Component, Components, Drawing, Joint, Joints, Wire, Wires};
use step::NO_TALLY;

const NO_WIRE: Wire = Wire {
    vertical: false,
    line: 0,
    start: 0,
    end: 0,
};

// A wire by its coordinates plus 6,000, as rows hold them.
pub(crate) fn wire(vertical: bool, line: u16, start: u16, end: u16) -> Wire {
    Wire {
        vertical,
        line,
        start,
        end,
    }
}

pub(crate) fn joint(x: u16, y: u16, count: u16) -> Joint {
    Joint { x, y, count }
}

// An unlabelled component.
pub(crate) fn component(kind: u8, orientation: u8, x: u16, y: u16) -> Component {
    Component {
        kind,
        orientation,
        x,
        y,
        label: [0u8; 16],
    }
}

// A table whose first two rows are given, with any count.
pub(crate) fn wires(a: Wire, b: Wire, count: usize) -> Wires {
    let mut rows = [NO_WIRE; 512];
    rows[0] = a;
    rows[1] = b;
    Wires { rows, count }
}

pub(crate) fn joints(a: Joint, b: Joint, count: usize) -> Joints {
    let none = joint(0, 0, 0);
    let mut rows = [none; 1408];
    rows[0] = a;
    rows[1] = b;
    Joints { rows, count }
}

pub(crate) fn components(a: Component, b: Component, c: Component, count: usize) -> Components {
    let none = component(0, 0, 0, 0);
    let mut rows = [none; 128];
    rows[0] = a;
    rows[1] = b;
    rows[2] = c;
    Components { rows, count }
}

// The empty drawing.
pub(crate) fn empty() -> Drawing {
    let point = joint(0, 0, 0);
    let part = component(0, 0, 0, 0);
    Drawing {
        wires: wires(NO_WIRE, NO_WIRE, 0),
        components: components(part, part, part, 0),
        joints: joints(point, point, 0),
    }
}

// Wires and joints, and no component.
fn wired(ws: Wires, js: Joints) -> Drawing {
    let part = component(0, 0, 0, 0);
    Drawing {
        wires: ws,
        components: components(part, part, part, 0),
        joints: js,
    }
}

// 512 wires from -200 to -190, at y = 0 to 511.
pub(crate) fn full_wires() -> Drawing {
    let none = joint(0, 0, 0);
    let mut ws = [NO_WIRE; 512];
    let mut js = [none; 1408];
    for y in 0..512u16 {
        let i = y as usize;
        ws[i] = wire(false, y + 6000, 5800, 5810);
        js[2 * i] = joint(5800, y + 6000, 1);
        js[2 * i + 1] = joint(5810, y + 6000, 1);
    }
    let rows = Wires {
        rows: ws,
        count: 512,
    };
    let points = Joints {
        rows: js,
        count: 1024,
    };
    wired(rows, points)
}

// 128 power symbols in eight rows of sixteen, 200 apart, from (0, 0) on.
pub(crate) fn full_parts() -> Drawing {
    let none = joint(0, 0, 0);
    let part = component(0, 0, 0, 0);
    let mut cs = [part; 128];
    let mut js = [none; 1408];
    for k in 0..128u16 {
        let i = k as usize;
        let x = k % 16 * 200 + 6000;
        let y = k / 16 * 200 + 6000;
        cs[i] = component(0, 0, x, y);
        js[i] = joint(x, y, 1);
    }
    Drawing {
        wires: wires(NO_WIRE, NO_WIRE, 0),
        components: Components {
            rows: cs,
            count: 128,
        },
        joints: Joints {
            rows: js,
            count: 128,
        },
    }
}

// The 512 wires of the one, and 128 power symbols where the other has them.
pub(crate) fn full() -> Drawing {
    let none = label_of(b"");
    let mut d = full_wires();
    for k in 0..128u16 {
        let x = (k % 16 * 200) as i32;
        let y = (k / 16 * 200) as i32;
        let e = add_component(d, 0, 0, x, y, none, NO_TALLY);
        d = e.drawing;
    }
    d
}
