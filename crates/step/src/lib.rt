// One line of a script: what it does to a drawing known to be lawful, and what it prints into a lent buffer.
#![tactic(auto)]

ghost use Rattle.std.specs.Prelude.{◌≡◌};
ghost use Rattle.sheet.specs.Rules.{Lawful};
ghost use Rattle.redraw.specs.Calls.{add_component};
ghost use Rattle.label.specs.Labels.{label_of};
ghost use Rattle.script.specs.Commands.{commanded};
ghost use Rattle.script.specs.Reading.{command_of};
ghost use Rattle.step.specs.Steps.{choice_of, edit_of};
ghost use Rattle.step.specs.Stepping.{Steps};

use label::label_of;
use redraw::component::add_component_on;
use redraw::pointer::{delete_on, mirror_on, rotate_on};
use redraw::wire::add_wire_on;
use redraw::{Edited, refused};
use script::{Command, read_line};
use sheet::{Drawing, Tally};
use telling::{Stepped, tell};

// For callers that ask for no tally: no line prints it.
pub const NO_TALLY: Tally = Tally {
    wires: 0,
    joints: 0,
    components: 0,
    ends: 0,
};

// KIND or ORIENT: 0 to 7, and 8 for any other number.
#[tactic(auto, unfolding(crate::specs::Steps::choice_of))]
fn choice(z: i32) -> u8
    ensures { result ≡ choice_of z }
{
    match z {
        0..=7 => z as u8,
        _ => 8,
    }
}

// A component, by the numbers of its line.
fn place(d: Drawing, kind: i32, orient: i32, x: i32, y: i32, label: &[u8], t: Tally) -> Edited
    requires { Lawful d }
    ensures { result ≡ add_component d (choice_of kind) (choice_of orient) x y (label_of label.now) t }
{
    add_component_on(d, choice(kind), choice(orient), x, y, label_of(label), t)
}

// The edit that a readable line asks for.
fn edit_on(d: Drawing, line: &[u8], command: Command, t: Tally) -> Edited
    requires lawful { Lawful d }
    requires said { commanded (Some command) ≡ command_of line.now }
    ensures { result ≡ edit_of d t line.now (commanded (Some command)) }
{
    match command {
        Command::Horizontal { y, x1, x2 } => add_wire_on(d, false, y, x1, x2, t),
        Command::Vertical { x, y1, y2 } => add_wire_on(d, true, x, y1, y2, t),
        Command::Place {
            kind,
            orient,
            x,
            y,
            label,
        } => place(d, kind, orient, x, y, &line[label..], t),
        Command::Delete { x, y, size } => delete_on(d, x, y, size, t),
        Command::Turn { x, y, size } => rotate_on(d, x, y, size, t),
        Command::Mirror { x, y, size } => mirror_on(d, x, y, size, t),
        Command::Nets => refused(0, d, t),
    }
}

// What a line does to a drawing known to be lawful, and what it prints; `n` edits nothing. 8,192 bytes always suffice: a list has at most
// 7,936.
pub fn step_on(d: Drawing, line: &[u8], t: Tally, out: &mut [u8]) -> Stepped
    requires { Lawful d }
    ensures { Steps d t line.now out.old out.new result }
{
    let command = read_line(line);
    let Some(asked) = command else {
        return tell(refused(10, d, t), None, out);
    };
    tell(edit_on(d, line, asked, t), command, out)
}
