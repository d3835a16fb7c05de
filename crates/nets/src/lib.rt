// Which pads are on one net, and the numbers of the nets. Wires and pads come by the numbers of their joints: row + 1.
#![tactic(auto)]

ghost use Rattle.std.specs.Prelude.{◌≡◌, List, map, ℕ, ◌<◌, ◌≤◌, length, get_or};
ghost use Rattle.lists.specs.Tables.{pad};
ghost use Rattle.nets.specs.Numbers;
ghost use Rattle.nets.specs.Numbers.{first_net, net_of, numbering, numbers_of};
ghost use Rattle.nets.specs.Tables.{JointNumber, EachJoint, EachEnd, LinksFit, PadsFit, link_ends, net_in, pad_rows, tabulate, Falling, root_of, join_of, Rooted, Ranked};

use table::Table;

// A wire by the joints at its two ends.
#[derive(Clone, Copy)]
pub struct Link {
    pub from: u16,
    pub to: u16,
}

pub type Links = Table<Link, 512>;

// Pads by their joints.
pub type Pads = Table<u16, 384>;

// The smallest number that the aliases lead to from n. The number falls at each call.
fn root(alias: &[u16; 1409], n: u16) -> u16
    requires { (n < 1409) × (Falling alias.now) }
    ensures { result ≡ root_of alias.now n }
{
    let less = alias[n as usize];
    if less == n { n } else { root(alias, less) }
}

// A wire from u to v: the larger of the two roots gets the smaller one as its alias.
fn join(alias: &mut [u16; 1409], u: u16, v: u16)
    requires falling { Falling alias.old }
    requires joint_u { JointNumber u }
    requires joint_v { JointNumber v }
    ensures { alias.new ≡ join_of alias.old u v }
{
    let x = root(alias, u);
    let y = root(alias, v);
    if x < y {
        alias[y as usize] = x;
    } else {
        alias[x as usize] = y;
    }
}

// Each number its own alias.
fn own() -> [u16; 1409]
    ensures { result ≡ tabulate (λ n. n) 1409 }
{
    let mut alias = [0u16; 1409];
    for n in 0..1409usize {
        alias[n] = n as u16;
    }
    alias
}

// The aliases before any wire: 0 at a joint with a power pad, and its own number at any other.
fn start(powers: &[u16]) -> [u16; 1409]
    requires { EachJoint powers.now }
    ensures { result ≡ tabulate (first_net powers.now) 1409 }
{
    let mut alias = own();
    for n in powers {
        alias[*n as usize] = 0;
    }
    alias
}

// The aliases after all the wires.
fn aliases(wires: &[Link], powers: &[u16]) -> [u16; 1409]
    requires ends { EachEnd (map link_ends wires.now) }
    requires joints { EachJoint powers.now }
    ensures { Rooted (record { links = map link_ends wires.now; powers = powers.now }) result }
{
    let mut alias = start(powers);
    for wire in wires {
        join(&mut alias, wire.from, wire.to);
    }
    alias
}

// The root of each number, in one pass: the alias of a number is below it, and its root is known by then.
fn flatten(alias: [u16; 1409]) -> [u16; 1409]
    requires { Falling alias }
    ensures { result ≡ tabulate (root_of alias) 1409 }
{
    let mut nets = alias;
    for n in 0..1409usize {
        let less = nets[n];
        nets[n] = nets[less as usize];
    }
    nets
}

// The net of each joint, 0 for the fed ones.
pub fn nets(wires: Links, powers: Pads) -> [u16; 1409]
    requires links_fit { LinksFit wires }
    requires powers_fit { PadsFit powers }
    ensures { result ≡ tabulate (net_of (net_in wires powers)) 1409 }
{
    flatten(aliases(wires.in_use(), powers.in_use()))
}

// A net is met: a new one gets the next rank. The number of nets met, and `given` has the rank of each.
fn meet(given: &mut [u16; 1409], count: u16, net: u16) -> u16
    requires net_low { net < 1409 }
    requires count_low { count < 1409 }
    ensures { (met : List ℕ) → Ranked met count given.old → Ranked (Numbers.meet net met) result given.new }
{
    if given[net as usize] == 0 {
        given[net as usize] = count + 1;
        return count + 1;
    }
    count
}

// The numbers of the pads' nets in the order in which these are met, 0 for net 0; and zeros behind them.
fn number(nets: [u16; 1409], pads: &[u16]) -> [u16; 384]
    requires falling { Falling nets }
    requires few { length pads.now ≤ 384 }
    requires joints { EachJoint pads.now }
    ensures { result ≡ pad 384 0 (numbering (map (λ n. get_or nets n 0) pads.now)) }
{
    let mut out = [0u16; 384];
    let mut given = [0u16; 1409];
    let mut count = meet(&mut given, 0, 0);
    for (i, n) in pads.iter().enumerate() {
        let net = nets[*n as usize];
        count = meet(&mut given, count, net);
        out[i] = given[net as usize] - 1;
    }
    out
}

// The net numbers of the pads of a drawing.
pub fn pad_nets(wires: Links, powers: Pads, pads: Pads) -> [u16; 384]
    requires links_fit { LinksFit wires }
    requires powers_fit { PadsFit powers }
    requires pads_fit { PadsFit pads }
    ensures { result ≡ pad 384 0 (numbers_of (net_in wires powers) (pad_rows pads)) }
{
    number(nets(wires, powers), pads.in_use())
}
