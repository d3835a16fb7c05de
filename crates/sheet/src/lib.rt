// A drawing as it is held: rows of wires, components and joints, each in row order, with zero rows behind the count.
// Coordinates are held plus 6,000, so that none is negative.
#![tactic(auto)]

use table::Table;

// line: y of a horizontal wire, x of a vertical one; start and end along it.
#[derive(Clone, Copy, PartialEq, Eq)]
pub struct Wire {
    pub vertical: bool,
    pub line: u16,
    pub start: u16,
    pub end: u16,
}

// A row with no wire.
pub const ZERO_WIRE: Wire = Wire {
    vertical: false,
    line: 0,
    start: 0,
    end: 0,
};

// kind: 0 Power, 1 Contact, 2 Coil; orientation: the number of one of the eight, 0 to 7; label: its bytes with zeros behind.
#[derive(Clone, Copy, PartialEq, Eq)]
pub struct Component {
    pub kind: u8,
    pub orientation: u8,
    pub x: u16,
    pub y: u16,
    pub label: [u8; 16],
}

// A row with no component.
pub const ZERO_COMPONENT: Component = Component {
    kind: 0,
    orientation: 0,
    x: 0,
    y: 0,
    label: [0; 16],
};

// A point with wire ends or pads, and the number of both.
#[derive(Clone, Copy, PartialEq, Eq)]
pub struct Joint {
    pub x: u16,
    pub y: u16,
    pub count: u16,
}

// A row with no joint.
pub const ZERO_JOINT: Joint = Joint {
    x: 0,
    y: 0,
    count: 0,
};

pub type Wires = Table<Wire, 512>;

pub type Components = Table<Component, 128>;

pub type Joints = Table<Joint, 1408>;

#[derive(Clone, Copy)]
pub struct Drawing {
    pub wires: Wires,
    pub components: Components,
    pub joints: Joints,
}

// The numbers of wires, joints and components, and the sum of all joint counts.
#[derive(Clone, Copy)]
pub struct Tally {
    pub wires: u32,
    pub joints: u32,
    pub components: u32,
    pub ends: u32,
}
