// Reads one line of a panel script: which command it is, and its numbers. What a line says is the definition
// of specs/Grammar.antt; `command_of` is that definition as a function.
#![tactic(auto)]

pub mod numbers;

ghost use Rattle.std.specs.Prelude.{◌≡◌, ℕ, length};
ghost use Rattle.script.specs.Commands as said;
ghost use Rattle.script.specs.Commands.{commanded};
ghost use Rattle.script.specs.Reading.{lettered, three_line, labelled, place_line, command_of};
ghost use Rattle.script.specs.Fronts.{begun};

// What a readable line says. A label is the part of the line from the index `label` to its end; it is empty where
// the line has none.
#[derive(Clone, Copy, PartialEq, Eq)]
pub enum Command {
    Horizontal {
        y: i32,
        x1: i32,
        x2: i32,
    },
    Vertical {
        x: i32,
        y1: i32,
        y2: i32,
    },
    Place {
        kind: i32,
        orient: i32,
        x: i32,
        y: i32,
        label: usize,
    },
    Delete {
        x: i32,
        y: i32,
        size: i32,
    },
    Turn {
        x: i32,
        y: i32,
        size: i32,
    },
    Mirror {
        x: i32,
        y: i32,
        size: i32,
    },
    Nets,
}

// The command of a letter and three numbers.
#[tactic(auto, unfolding(crate::specs::Reading::lettered))]
fn of_letter(letter: u8, a: i32, b: i32, c: i32) -> Option<Command>
    ensures { commanded result ≡ lettered letter a b c }
{
    let command = match letter {
        b'h' => Command::Horizontal { y: a, x1: b, x2: c },
        b'v' => Command::Vertical { x: a, y1: b, y2: c },
        b'd' => Command::Delete {
            x: a,
            y: b,
            size: c,
        },
        b'r' => Command::Turn {
            x: a,
            y: b,
            size: c,
        },
        b'm' => Command::Mirror {
            x: a,
            y: b,
            size: c,
        },
        _ => return None,
    };
    Some(command)
}

// A line of a letter and three numbers, behind its letter.
#[tactic(auto, unfolding(crate::specs::Reading::three_line))]
fn three_line(letter: u8, text: &[u8]) -> Option<Command>
    ensures { commanded result ≡ three_line letter text.now }
{
    let ((a, b, c), rest) = numbers::three(text)?;
    if !rest.is_empty() {
        return None;
    }
    of_letter(letter, a, b, c)
}

// Where the label begins in a line of `len` bytes, by what stands behind the numbers: at its end, or behind a space. It is a part
// of the line, so it is no longer.
#[tactic(auto, unfolding(crate::specs::Reading::labelled))]
fn label_start(rest: &[u8], len: usize) -> Option<usize>
    ensures { (f : ℕ → said.Command) → begun f result ≡ labelled len f rest.now }
{
    match rest {
        [] => Some(len),
        [b' ', label @ ..] if !label.is_empty() => Some(len.saturating_sub(label.len())),
        _ => None,
    }
}

// A `p` line of `len` bytes, behind its letter.
#[tactic(auto, unfolding(crate::specs::Reading::place_line))]
fn place_line(text: &[u8], len: usize) -> Option<Command>
    ensures { commanded result ≡ place_line len text.now }
{
    let ((kind, orient, x), rest) = numbers::three(text)?;
    let (y, rest) = numbers::field(rest)?;
    let label = label_start(rest, len)?;
    Some(Command::Place {
        kind,
        orient,
        x,
        y,
        label,
    })
}

// What a line says. Two wrong answers that this rules out: reading a line of 81 bytes, and taking `n` with
// bytes behind it (must-fail/ has more).
#[tactic(auto, using(crate::proofs::Meaning::too_long), unfolding(crate::specs::Reading::command_of, crate::specs::Reading::line_of))]
pub fn read_line(line: &[u8]) -> Option<Command>
    ensures { commanded result ≡ command_of line.now }
{
    if line.len() > 80 {
        return None;
    }
    match line {
        [b'p', text @ ..] => place_line(text, line.len()),
        [b'n'] => Some(Command::Nets),
        [b'n', ..] => None,
        [letter, text @ ..] => three_line(*letter, text),
        [] => None,
    }
}
