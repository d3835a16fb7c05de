// A saved drawing read: a file, or a drawing out of some that stand one behind the other.
#![tactic(auto)]

ghost use Rattle.std.specs.Prelude.{◌≡◌, ◌≤◌, length, drop, IfOk};
ghost use Rattle.groups.specs.Indexes.{taken_at};
ghost use Rattle.saved.specs.Reading.{read_file, read_front};
ghost use Rattle.opening.specs.Whole.{take_up_to};

use empty::empty_drawing;
use file_tables::read_tables;
use joints::drawn;
use lawful::check;
use refusal::Refusal;
use saved::{Front, Opened};
use sheet::Drawing;

// The drawing from an index on: its rows are read, its joints counted, its rules checked; then, if it is to be the last, the end.
fn read_up_to(bytes: &[u8], at: usize, last: bool) -> Result<(Drawing, usize), Refusal>
    ensures is { taken_at bytes.now result ≡ take_up_to last (drop at bytes.now) }
    ensures inside { IfOk result (λ r. r.1 ≤ length bytes.now) }
{
    let f = read_tables(bytes, at)?;
    let next = f.next;
    let ws = f.wires;
    let cs = f.parts;
    let d = drawn(ws, cs);
    let c = check(d);
    if c.rule != 0 {
        return Err(Refusal::FileWrong);
    }
    if last & (next < bytes.len()) {
        return Err(Refusal::BytesBehind);
    }
    Ok((d, next))
}

// One drawing out of some that stand one behind the other: 12, 13 or 0, and the index behind it.
pub fn read_drawing(bytes: &[u8], at: usize) -> Front
    ensures { result ≡ read_front bytes.now at }
{
    match read_up_to(bytes, at, false) {
        Ok((drawing, next)) => Front {
            reply: 0,
            next,
            drawing,
        },
        Err(r) => {
            let drawing = empty_drawing();
            Front {
                reply: u8::from(r),
                next: at,
                drawing,
            }
        }
    }
}

// The drawing of a file: 12, 13, 14 or 0; the empty drawing with a refusal. Wrong answers that this rules out: 14 before the rules
// (fourteen_first), a refused file's rows handed back (rows_handed_back), joints not counted (joints_not_counted), and those of `groups`
// and `file_tables`.
pub fn open(bytes: &[u8]) -> Opened
    ensures { result ≡ read_file bytes.now }
{
    match read_up_to(bytes, 0, true) {
        Ok((drawing, _)) => Opened { reply: 0, drawing },
        Err(r) => {
            let none = empty_drawing();
            Opened {
                reply: u8::from(r),
                drawing: none,
            }
        }
    }
}
