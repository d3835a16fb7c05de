// A drawing that is given row by row: each row is put into its table, and counts may be told outright. The drawing need not be lawful.
#![tactic(auto)]

pub mod filled;
pub mod tables;

ghost use Rattle.std.specs.Prelude.{◌≡◌, drop};
ghost use Rattle.label.specs.Labels.{padded};
ghost use Rattle.check_script.specs.Saying.{said_as};
ghost use Rattle.sketch.specs.Sketches.{empty_sketch, added_as, added_of};

use check_script::Said;
use filled::Filled;
use label::label_of;
use sheet::{Component, Drawing, Joint, Wire};
use table::Table;
use tables::with_row;

// The drawing so far, and how far its tables are filled.
#[derive(Clone, Copy)]
pub struct Sketch {
    pub drawing: Drawing,
    pub wires: Filled,
    pub components: Filled,
    pub joints: Filled,
}

// The drawing without rows.
fn blank_drawing() -> Drawing
    ensures { result ≡ empty_sketch.drawing }
{
    let wire = Wire {
        vertical: false,
        line: 0,
        start: 0,
        end: 0,
    };
    let component = Component {
        kind: 0,
        orientation: 0,
        x: 0,
        y: 0,
        label: [0u8; 16],
    };
    let joint = Joint {
        x: 0,
        y: 0,
        count: 0,
    };
    Drawing {
        wires: Table {
            rows: [wire; 512],
            count: 0,
        },
        components: Table {
            rows: [component; 128],
            count: 0,
        },
        joints: Table {
            rows: [joint; 1408],
            count: 0,
        },
    }
}

// No rows.
pub fn empty() -> Sketch
    ensures { result ≡ empty_sketch }
{
    let none = Filled {
        counted: 0,
        used: 0,
        told: false,
    };
    let drawing = blank_drawing();
    Sketch {
        drawing,
        wires: none,
        components: none,
        joints: none,
    }
}

// A label as rows hold it: the line from the index `at` on, with zeros behind.
fn label_from(line: &[u8], at: usize) -> [u8; 16]
    ensures { result ≡ padded 16 (drop at line.now) }
{
    if at <= line.len() {
        let l = label_of(&line[at..]);
        return l.bytes;
    }
    [0u8; 16]
}

// What a line says, added to the sketch, if a row can hold it.
#[tactic(auto, unfolding(crate::specs::Sketches::added_of))]
pub fn add(s: Sketch, line: &[u8], said: Option<Said>) -> Option<Sketch>
    ensures { added_as s result ≡ added_of s line.now (said_as said) }
{
    let mut next = s;
    match said? {
        Said::Wire { behind, wire } => {
            (next.drawing.wires, next.wires) = with_row(s.drawing.wires, s.wires, behind, wire)?;
        }
        Said::Component {
            behind,
            kind,
            orientation,
            x,
            y,
            label,
        } => {
            let row = Component {
                kind,
                orientation,
                x,
                y,
                label: label_from(line, label),
            };
            (next.drawing.components, next.components) = with_row(
                s.drawing.components,
                s.components,
                behind,
                row,
            )?;
        }
        Said::Joint { behind, joint } => {
            (next.drawing.joints, next.joints) = with_row(
                s.drawing.joints,
                s.joints,
                behind,
                joint,
            )?;
        }
        Said::WireCount(n) => {
            next.drawing.wires.count = n;
            next.wires.told = true;
        }
        Said::ComponentCount(n) => {
            next.drawing.components.count = n;
            next.components.told = true;
        }
        Said::JointCount(n) => {
            next.drawing.joints.count = n;
            next.joints.told = true;
        }
        Said::End => return None,
    }
    Some(next)
}
