// One timed call: its answer as one number, which hangs on the answer before.
ghost use Rattle.std.specs.Prelude.{◌≡◌, ◌%◌};
ghost use Rattle.sheet.specs.Rules.{Lawful};
ghost use Rattle.rules.specs.Check.{check_of};
ghost use Rattle.bench_calls.specs.Timed.{even_tally, edit_answer, list_answer, timed_loose, timed_answer};

use crate::editing::{edit_checked, edit_on};
use crate::files::file_answer;
use crate::tables::table_answer;
use netlist::{build_netlist, loose, loose_on, write_list_on};
use sheet::{Drawing, Tally};

pub(crate) fn number_of_byte(b: u8) -> u32
    ensures { result ≡ b }
{
    b as u32
}

fn tally_of(last: u32) -> Tally
    ensures { result ≡ even_tally last }
{
    Tally {
        wires: last,
        joints: last,
        components: last,
        ends: last,
    }
}

// The joints after an edit: 0 on a drawing known to be lawful, else by the public call.
fn edit_answer(call: u8, d: Drawing, what: u8, x: i32, y: i32, z: i32, last: u32) -> u32
    requires { Lawful d }
    ensures { result ≡ edit_answer call what x y z d last }
{
    let t = tally_of(last);
    if call == 0 {
        let e = edit_on(d, what, x, y, z, t);
        return e.tally.joints;
    }
    let e = edit_checked(d, what, x, y, z, t);
    e.tally.joints
}

// The first broken rule: 2 by the plain check, else by the check of public calls.
fn check_answer(call: u8, d: Drawing) -> u32
    ensures { result ≡ (check_of d).rule }
{
    if call == 2 {
        let k = rules::check_plainly(d);
        return k.rule as u32;
    }
    let k = lawful::check(d);
    k.rule as u32
}

// A byte of the list: 4 of a drawing known to be lawful, else by the public call.
fn list_answer(call: u8, d: Drawing, last: u32) -> u32
    requires { Lawful d }
    ensures { result ≡ list_answer call d last }
{
    let mut out = [0u8; 7936];
    let i = (last % 7936) as usize;
    if call == 4 {
        write_list_on(d, &mut out);
        return number_of_byte(out[i]);
    }
    build_netlist(d, &mut out);
    number_of_byte(out[i])
}

// The number of loose pads: 6 of a drawing known to be lawful, else by the public call.
fn loose_answer(call: u8, d: Drawing) -> u32
    requires { Lawful d }
    ensures { result ≡ timed_loose call d }
{
    if call == 6 {
        return loose_on(d);
    }
    let l = loose(d);
    l.count
}

// The call by its number.
pub fn answer(call: u8, d: Drawing, what: u8, x: i32, y: i32, z: i32, last: u32) -> u32
    requires { Lawful d }
    ensures { result ≡ timed_answer call what x y z d last }
{
    if call < 2 {
        return edit_answer(call, d, what, x, y, z, last);
    }
    if call < 4 {
        return check_answer(call, d);
    }
    if call < 6 {
        return list_answer(call, d, last);
    }
    if call < 8 {
        return loose_answer(call, d);
    }
    if call < 17 {
        return table_answer(call, d, x, y, z);
    }
    file_answer(call, d, last)
}
