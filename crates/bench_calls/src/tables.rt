// One operation on the tables of a drawing: how many rows come out, or a number of one of them.
ghost use Rattle.std.specs.Prelude.{not, ◌≡◌, ◌≤◌, ◌<◌, ◌%◌, length, get_or};
ghost use Rattle.lists.specs.Lists.{insert};
ghost use Rattle.std.specs.List.{filter};
ghost use Rattle.lists.specs.Tables.{pad};
ghost use Rattle.sheet.specs.Drawings.{wire_rows, component_rows, lists_of};
ghost use Rattle.sheet.specs.Edits.{meets_wire, meets_part};
ghost use Rattle.sheet.specs.Joints.{joints_of};
ghost use Rattle.sheet.specs.Geometry.{marks};
ghost use Rattle.sheet.specs.Merge;
ghost use Rattle.sheet.specs.Parts.{ahead, pads_of};
ghost use Rattle.sheet.specs.Rules.{Lawful};
ghost use Rattle.sheet.specs.Run;
ghost use Rattle.sheet.specs.Split.{split_at};
ghost use Rattle.net_numbers.specs.Netted.{net_numbers};
ghost use Rattle.parts.specs.Tables.{PartsFit, TabledParts};
ghost use Rattle.bench_calls.specs.Tables.{grown_rows, line_at, x_at, pointed_answer, laid_answer, inserted_answer, whole_answer, table_answer};

use crate::editing::k_label;
use asked::{asked_part, asked_pointer, asked_wire};
use joints::count_joints;
use net_numbers::pad_numbers;
use parts::insert::insert_part;
use parts::pads::all_pads;
use parts::square::keep_unmet;
use sheet::{Component, Components, Drawing, Wire, Wires};
use symbol::Point;
use wires::split::split_at;
use wires::square::keep_unhit;

fn split_rows(ws: Wires, p: Point) -> u32
    requires { ws.count ≤ 512 }
    ensures { result ≡ grown_rows (split_at p (wire_rows ws)) }
{
    match split_at(ws.in_use(), p) {
        Ok(t) => t.count as u32,
        Err(_) => 0,
    }
}

fn unhit_row(ws: Wires, p: Point, size: u16) -> u32
    requires { (ws.count ≤ 512) × ((p.x ≤ 12000) × ((p.y ≤ 12000) × (size ≤ 1000))) }
    ensures { result ≡ line_at (size % 512) (filter (λ w. not (meets_wire p size w)) (wire_rows ws)) }
{
    let t = keep_unhit(ws.in_use(), p, size);
    let i = (size % 512) as usize;
    let w = t.rows[i];
    w.line as u32
}

fn unmet_row(cs: Components, p: Point, size: u16) -> u32
    requires { PartsFit cs × ((p.x ≤ 12000) × ((p.y ≤ 12000) × (size ≤ 1000))) }
    ensures { result ≡ x_at (size % 128) (filter (λ c. not (meets_part p size c)) (component_rows cs)) }
{
    let t = keep_unmet(cs.in_use(), p, size);
    let i = (size % 128) as usize;
    let c = t.rows[i];
    c.x as u32
}

fn laid_rows(ws: Wires, cs: Components, n: Wire) -> u32
    requires { (ws.count ≤ 512) × (PartsFit cs × (n.end ≤ 12000)) }
    ensures { result ≡ grown_rows (Run.lay_wire n (wire_rows ws) (pads_of (component_rows cs))) }
{
    let pads = all_pads(cs.in_use());
    match add_wire::add_wire(ws.in_use(), n, pads.in_use()) {
        Ok(t) => t.count as u32,
        Err(_) => 0,
    }
}

fn inserted_row(cs: Components, c: Component) -> u32
    requires { TabledParts (component_rows cs) cs × (cs.count < 128) }
    ensures { result ≡ x_at (c.x % 128) (insert ahead c (component_rows cs)) }
{
    let t = insert_part(cs, c);
    let i = (c.x % 128) as usize;
    let b = t.rows[i];
    b.x as u32
}

fn merged_rows(ws: Wires, cs: Components) -> u32
    requires { (ws.count ≤ 512) × PartsFit cs }
    ensures { result ≡ length (Merge.merge (wire_rows ws) (pads_of (component_rows cs))) }
{
    let pads = all_pads(cs.in_use());
    let t = merge::merge(ws.in_use(), pads.in_use());
    t.count as u32
}

fn joint_rows(ws: Wires, cs: Components) -> u32
    requires { (ws.count ≤ 512) × PartsFit cs }
    ensures { result ≡ length (joints_of (marks (wire_rows ws) (pads_of (component_rows cs)))) }
{
    let pads = all_pads(cs.in_use());
    let t = count_joints(ws.in_use(), pads.in_use());
    t.count as u32
}

fn pad_rows(cs: Components) -> u32
    requires { PartsFit cs }
    ensures { result ≡ length (pads_of (component_rows cs)) }
{
    let pads = all_pads(cs.in_use());
    pads.count as u32
}

// About a pointer: 8 wires split there, 9 wires and 10 components that the square does not meet.
fn pointed_answer(call: u8, d: Drawing, x: i32, y: i32, z: i32) -> u32
    requires { Lawful d }
    ensures { result ≡ pointed_answer call x y z d }
{
    let a = match asked_pointer(x, y, z) {
        Ok(a) => a,
        Err(_) => return 0,
    };
    let p = a.point;
    let ws = d.wires;
    let cs = d.components;
    if call == 8 {
        return split_rows(ws, p);
    }
    if call == 9 {
        return unhit_row(ws, p, a.size);
    }
    unmet_row(cs, p, a.size)
}

// A horizontal wire laid among the others.
fn laid_answer(d: Drawing, x: i32, y: i32, z: i32) -> u32
    requires { Lawful d }
    ensures { result ≡ laid_answer x y z d }
{
    let n = match asked_wire(false, x, y, z) {
        Ok(n) => n,
        Err(_) => return 0,
    };
    let ws = d.wires;
    let cs = d.components;
    laid_rows(ws, cs, n)
}

// A contact put into its table.
fn inserted_answer(d: Drawing, x: i32, y: i32) -> u32
    requires { Lawful d }
    ensures { result ≡ inserted_answer x y d }
{
    let l = k_label();
    let none = Component {
        kind: 0,
        orientation: 0,
        x: 0,
        y: 0,
        label: [0; 16],
    };
    let c = asked_part(1, 0, x, y, l).unwrap_or(none);
    let cs = d.components;
    if cs.count >= 128 {
        return 0;
    }
    inserted_row(cs, c)
}

fn last_net(d: Drawing) -> u32
    requires { Lawful d }
    ensures { result ≡ get_or (pad 384 0 (net_numbers (lists_of d))) 383 0 }
{
    let numbers = pad_numbers(d);
    numbers[383] as u32
}

// Of the whole drawing: 13 wires merged, 14 joints counted, 15 pads, else net numbers.
fn whole_answer(call: u8, d: Drawing) -> u32
    requires { Lawful d }
    ensures { result ≡ whole_answer call d }
{
    let ws = d.wires;
    let cs = d.components;
    if call == 13 {
        return merged_rows(ws, cs);
    }
    if call == 14 {
        return joint_rows(ws, cs);
    }
    if call == 15 {
        return pad_rows(cs);
    }
    last_net(d)
}

// The operation by its number.
pub fn table_answer(call: u8, d: Drawing, x: i32, y: i32, z: i32) -> u32
    requires { Lawful d }
    ensures { result ≡ table_answer call x y z d }
{
    if call < 11 {
        return pointed_answer(call, d, x, y, z);
    }
    if call == 11 {
        return laid_answer(d, x, y, z);
    }
    if call == 12 {
        return inserted_answer(d, x, y);
    }
    whole_answer(call, d)
}
