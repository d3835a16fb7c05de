// A saved drawing: written, and read back.
ghost use Rattle.std.specs.Prelude.{◌≡◌};
ghost use Rattle.sheet.specs.Rules.{Lawful};
ghost use Rattle.bench_calls.specs.Files.{saved_byte, back_reply, file_answer};

use crate::answers::number_of_byte;
use opening::open;
use save::{save, save_on};
use sheet::Drawing;

// A byte of the file: 17 by the public call, else of a drawing known to be lawful.
fn saved_byte(call: u8, d: Drawing, last: u32) -> u32
    requires { Lawful d }
    ensures { result ≡ saved_byte call d last }
{
    let mut out = [0u8; 6022];
    let i = (last % 6022) as usize;
    if call == 17 {
        save(d, &mut out);
        return number_of_byte(out[i]);
    }
    save_on(d, &mut out);
    number_of_byte(out[i])
}

// The reply of reading the file back.
fn back_reply(d: Drawing) -> u32
    requires { Lawful d }
    ensures { result ≡ back_reply d }
{
    let mut out = [0u8; 6022];
    let w = save_on(d, &mut out);
    let n = w.length;
    let o = open(&out[..n]);
    o.reply as u32
}

// The call by its number.
pub fn file_answer(call: u8, d: Drawing, last: u32) -> u32
    requires { Lawful d }
    ensures { result ≡ file_answer call d last }
{
    if call < 19 {
        return saved_byte(call, d, last);
    }
    back_reply(d)
}
