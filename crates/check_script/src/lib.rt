// Reads one line of a drawing as `panel_check` takes it: which row it gives, or which count. What a line says is the definition of
// specs/Grammar.antt; `said_of` is that definition as a function.
#![tactic(auto)]

pub mod fields;

ghost use Rattle.std.specs.Prelude.{◌≡◌, ℕ, length};
ghost use Rattle.check_script.specs.Saying as said;
ghost use Rattle.check_script.specs.Saying.{said_as, begun};
ghost use Rattle.check_script.specs.Reading.{wire_of, joint_of, labelled_row, component_of, row_of, counted_of, count_of, said_of};

use script::numbers;
use sheet::{Joint, Wire};

// What a readable line says. `behind`: the row stands behind the counts. A label is the part of the line from the index `label` to
// its end.
#[derive(Clone, Copy)]
pub enum Said {
    Wire {
        behind: bool,
        wire: Wire,
    },
    Component {
        behind: bool,
        kind: u8,
        orientation: u8,
        x: u16,
        y: u16,
        label: usize,
    },
    Joint {
        behind: bool,
        joint: Joint,
    },
    WireCount(usize),
    ComponentCount(usize),
    JointCount(usize),
    End,
}

// A wire's row, behind its letter.
#[tactic(auto, unfolding(crate::specs::Reading::wire_of))]
fn wire_row(text: &[u8], behind: bool) -> Option<Said>
    ensures { said_as result ≡ wire_of behind text.now }
{
    let (vertical, text) = fields::direction(text)?;
    let (line, text) = fields::coordinate(text)?;
    let (start, text) = fields::coordinate(text)?;
    let (end, text) = fields::coordinate(text)?;
    if !text.is_empty() {
        return None;
    }
    let wire = Wire {
        vertical,
        line,
        start,
        end,
    };
    Some(Said::Wire { behind, wire })
}

// A joint's row, behind its letter.
#[tactic(auto, unfolding(crate::specs::Reading::joint_of))]
fn joint_row(text: &[u8], behind: bool) -> Option<Said>
    ensures { said_as result ≡ joint_of behind text.now }
{
    let (x, text) = fields::coordinate(text)?;
    let (y, text) = fields::coordinate(text)?;
    let (count, text) = fields::natural(text)?;
    if !text.is_empty() {
        return None;
    }
    let joint = Joint { x, y, count };
    Some(Said::Joint { behind, joint })
}

// Where the label of at most 16 bytes begins in a line of `len` bytes, by what stands behind the numbers: at its end, or behind a
// space. It is a part of the line, so it is no longer.
#[tactic(auto, unfolding(crate::specs::Reading::labelled_row))]
fn label_start(rest: &[u8], len: usize) -> Option<usize>
    ensures { (f : ℕ → said.Said) → begun f result ≡ labelled_row len f rest.now }
{
    match rest {
        [] => Some(len),
        [b' ', label @ ..] if !label.is_empty() && label.len() <= 16 => Some(len.saturating_sub(
            label.len(),
        )),
        _ => None,
    }
}

// A component's row of a line of `len` bytes, behind its letter.
#[tactic(auto, unfolding(crate::specs::Reading::component_of, crate::specs::Reading::stands_of))]
fn component_row(text: &[u8], len: usize, behind: bool) -> Option<Said>
    ensures { said_as result ≡ component_of len behind text.now }
{
    let (kind, text) = fields::byte(text)?;
    let (orientation, text) = fields::byte(text)?;
    let (x, text) = fields::coordinate(text)?;
    let (y, rest) = fields::coordinate(text)?;
    let label = label_start(rest, len)?;
    Some(Said::Component {
        behind,
        kind,
        orientation,
        x,
        y,
        label,
    })
}

// A row of a line of `len` bytes, by its letter.
#[tactic(auto, unfolding(crate::specs::Reading::row_of))]
fn row(text: &[u8], len: usize, behind: bool) -> Option<Said>
    ensures { said_as result ≡ row_of len behind text.now }
{
    match text {
        [b'W', rest @ ..] => wire_row(rest, behind),
        [b'C', rest @ ..] => component_row(rest, len, behind),
        [b'J', rest @ ..] => joint_row(rest, behind),
        _ => None,
    }
}

// A count told outright, by its letter.
#[tactic(auto, unfolding(crate::specs::Reading::counted_of))]
fn counted(letter: u8, n: i32) -> Option<Said>
    ensures { said_as result ≡ counted_of letter n }
{
    let count = usize::try_from(n).ok()?;
    match letter {
        b'w' => Some(Said::WireCount(count)),
        b'c' => Some(Said::ComponentCount(count)),
        b'j' => Some(Said::JointCount(count)),
        _ => None,
    }
}

// A line that tells a count, behind its `#`.
#[tactic(auto, unfolding(crate::specs::Reading::count_of))]
fn count_line(text: &[u8]) -> Option<Said>
    ensures { said_as result ≡ count_of text.now }
{
    let [b' ', letter, rest @ ..] = text else {
        return None;
    };
    let (n, rest) = numbers::field(rest)?;
    if !rest.is_empty() {
        return None;
    }
    counted(*letter, n)
}

// What a line says. Two wrong answers that this rules out: a label of 17 bytes cut to 16, and a row behind the counts that counts.
#[tactic(auto, using(crate::proofs::Lines::too_long), unfolding(crate::specs::Reading::said_of, crate::specs::Reading::line_said))]
pub fn read_line(line: &[u8]) -> Option<Said>
    ensures { said_as result ≡ said_of line.now }
{
    if line.len() > 80 {
        return None;
    }
    match line {
        [b'Z', b' ', text @ ..] => row(text, line.len(), true),
        [b'Z', ..] => None,
        [b'#', text @ ..] => count_line(text),
        [b'.'] => Some(Said::End),
        [b'.', ..] => None,
        _ => row(line, line.len(), false),
    }
}
