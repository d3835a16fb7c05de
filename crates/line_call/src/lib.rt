// A script line as a call on any drawing: the line is read and the drawing checked before the edit is made.
#![tactic(auto)]

ghost use Rattle.std.specs.Prelude.{◌≡◌, length};
ghost use Rattle.telling.specs.Told.{in_room, Answers};
ghost use Rattle.step.specs.Steps.{step_of};

use lawful::check;
use redraw::refused;
use script::read_line;
use sheet::{Drawing, Tally};
use step::step_on;
use telling::{Stepped, tell};

// A script line of a lent drawing: 10, 9, then as the edit that it asks for, for `n` 8 last. Two wrong answers that this rules out:
// 9 told of an unreadable line (unreadable_gets_nine), and a line made on a drawing that is not lawful (unlawful_line_made).
pub fn step(d: Drawing, line: &[u8], t: Tally, out: &mut [u8]) -> Stepped
    ensures { Answers (in_room (length out.old) (step_of d t line.now)) out.old out.new result }
{
    let command = read_line(line);
    let Some(_) = command else {
        return tell(refused(10, d, t), None, out);
    };
    let k = check(d);
    if k.rule != 0 {
        return tell(refused(9, d, t), command, out);
    }
    step_on(d, line, t, out)
}
