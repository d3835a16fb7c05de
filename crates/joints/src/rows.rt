// Rising keys gathered into joint rows.
ghost use Rattle.std.specs.Prelude.{◌≡◌, map, ◌≤◌, length};
ghost use Rattle.lists.specs.Lists.{Rows};
ghost use Rattle.sheet.specs.Joints.{joint_at, joints_of};
ghost use Rattle.sheet.specs.Drawings.{joint_table};
ghost use Rattle.joints.specs.Keys.{spot};

use sheet::{Joint, Joints, ZERO_JOINT};

// The joint at the point of a key.
fn joint_at(k: u32, count: u16) -> Joint
    ensures { result ≡ joint_at (spot k) count }
{
    Joint {
        x: (k % 65536) as u16,
        y: (k / 65536) as u16,
        count,
    }
}

// A row for each point, with the number of its keys.
pub(crate) fn gathered(ks: &[u32]) -> Joints
    requires { (length ks.now ≤ 1408) × Rows ◌≤◌ ks.now }
    ensures { result ≡ joint_table (joints_of (map spot ks.now)) }
{
    let mut out = Joints::empty(ZERO_JOINT);
    if ks.len() == 0 {
        return out;
    }
    let mut last = ks[0];
    let mut count: u16 = 1;
    for i in 1..ks.len() {
        let k = ks[i];
        if k == last {
            count += 1;
        } else {
            out.push(joint_at(last, count));
            last = k;
            count = 1;
        }
    }
    out.push(joint_at(last, count));
    out
}
