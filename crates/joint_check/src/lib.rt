// Rule 6 over joint rows that rise: each wire end and pad is searched for among the rows and counted there, and the counts are
// compared.
#![tactic(auto)]

ghost use Rattle.std.specs.Prelude.{◌≡◌, true, not, ◌&&◌, map, ◌≤◌, eqb, length, IfSome};
ghost use Rattle.sheet.specs.Geometry.{marks};
ghost use Rattle.sheet.specs.Joints.{joint_point, Rising};
ghost use Rattle.sheet.specs.Rules.{Rule6};
ghost use Rattle.sheet.specs.Drawings.{joint_rows};
ghost use Rattle.joints.specs.Keys.{spot};
ghost use Rattle.joint_check.specs.Meetings.{MetBy, CountsAgree};

use chains::{chain, seek};
use joints::keys::{joint_keys, mark_keys};
use sheet::{Joint, Joints, Wire};
use symbol::Point;

// How often the keys meet each joint row, if every key meets one.
fn count_met(js: &[Joint], ks: &[u32]) -> Option<[u16; 1408]>
    requires { (length js.now ≤ 1408) × ((length ks.now ≤ 1408) × Rising js.now) }
    ensures { IfSome result (MetBy (map spot ks.now) (map joint_point js.now)) }
{
    let n = js.len();
    let codes = joint_keys(js);
    let index = chain(codes, n);
    let mut counts = [0; 1408];
    for k in ks {
        let r = seek(&codes, n, &index.last, &index.before, *k as u64);
        if n <= r {
            return None;
        }
        counts[r] += 1;
    }
    Some(counts)
}

// A row was met, and as often as it tells.
fn agrees(met: u16, count: u16) -> bool
    ensures { result ≡ (not (eqb met 0) && eqb met count) }
{
    !(met == 0) & (met == count)
}

// Each row was met, and as often as it tells.
fn counts_agree(js: Joints, counts: &[u16; 1408]) -> bool
    requires { js.count ≤ 1408 }
    ensures { result ≡ true → CountsAgree js.rows js.count counts.now }
{
    for i in 0..js.count {
        if !agrees(counts[i], js.rows[i].count) {
            return false;
        }
    }
    true
}

// Only rows that list each point with a wire end or pad once, with the number of both, and nothing else, pass. Two wrong answers that this
// rules out: a row with a wrong count passes (wrong_count_listed), and a row where nothing lies (row_of_no_point_listed).
pub fn joints_listed(js: Joints, ws: &[Wire], pads: &[Point]) -> bool
    requires { (js.count ≤ 1408) × (Rising (joint_rows js) × ((length ws.now ≤ 512) × (length pads.now ≤ 384))) }
    ensures { result ≡ true → Rule6 (joint_rows js) (marks ws.now pads.now) }
{
    let ks = mark_keys(ws, pads);
    match count_met(js.in_use(), ks.in_use()) {
        Some(counts) => counts_agree(js, &counts),
        None => false,
    }
}
