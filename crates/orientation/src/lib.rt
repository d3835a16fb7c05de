// The eight orientations by their numbers, and the three turns.
#![tactic(auto)]

ghost use Rattle.std.specs.Option.{ok_or};
ghost use Rattle.std.specs.Prelude.{◌≡◌, slice_get};
ghost use Rattle.orientation.specs.Orientations.{four_answered, numbered_of, turn_answered, turned_by, rights, lefts, mirrors, can_turn};

use refusal::Refusal;

// An orientation (a, b, c, d): (x, y) goes to (ax + by, cx + dy).
#[derive(Clone, Copy)]
pub struct RotMirror(pub i8, pub i8, pub i8, pub i8);

// The eight, in the order of their numbers.
const EIGHT: [RotMirror; 8] = [
    RotMirror(1, 0, 0, 1),
    RotMirror(0, -1, 1, 0),
    RotMirror(-1, 0, 0, -1),
    RotMirror(0, 1, -1, 0),
    RotMirror(-1, 0, 0, 1),
    RotMirror(0, -1, -1, 0),
    RotMirror(1, 0, 0, -1),
    RotMirror(0, 1, 1, 0),
];

// The number after a turn to the right, a turn to the left, and a mirror, for each number.
const RIGHTS: [u8; 8] = [1, 2, 3, 0, 5, 6, 7, 4];

const LEFTS: [u8; 8] = [3, 0, 1, 2, 7, 4, 5, 6];

const MIRRORS: [u8; 8] = [4, 7, 6, 5, 0, 3, 2, 1];

// What a table of the eight has for a number, or the refusal.
fn of_eight<T: Copy>(table: &[T], n: u8) -> Result<T, Refusal>
    ensures { result ≡ ok_or (slice_get table.now n) Refusal.UnknownSymbol }
{
    table.get(n as usize).copied().ok_or(Refusal::UnknownSymbol)
}

// The four numbers of a number. Two wrong answers that this rules out: 7 given as 3 (numbered_seven_is_three), a number past 7 answered by 1
// (numbered_refused_by_1).
#[tactic(auto, using(crate::proofs::Turns::four_read))]
pub fn numbered(n: u8) -> Result<RotMirror, Refusal>
    ensures { four_answered result ≡ numbered_of n }
{
    of_eight(&EIGHT, n)
}

// A quarter turn to the right. Two wrong answers that this rules out: 4 made of 3 (rotate_r_leaves_the_ring), a mirrored one turned left
// (rotate_r_mirrored_left).
#[tactic(auto, using(crate::proofs::Turns::rights_read))]
pub fn rotate_r(n: u8) -> Result<u8, Refusal>
    ensures { turn_answered result ≡ turned_by rights n }
{
    of_eight(&RIGHTS, n)
}

// A quarter turn to the left. Two wrong answers that this rules out: a right turn (rotate_l_turns_right), a mirrored one turned right
// (rotate_l_mirrored_right).
#[tactic(auto, using(crate::proofs::Turns::lefts_read))]
pub fn rotate_l(n: u8) -> Result<u8, Refusal>
    ensures { turn_answered result ≡ turned_by lefts n }
{
    of_eight(&LEFTS, n)
}

// Left and right change places. Two wrong answers that this rules out: the turn kept, as n + 4 has it (mirror_keeps_the_turn), top and bottom
// exchanged (mirror_upside_down).
#[tactic(auto, using(crate::proofs::Turns::mirrors_read))]
pub fn mirror(n: u8) -> Result<u8, Refusal>
    ensures { turn_answered result ≡ turned_by mirrors n }
{
    of_eight(&MIRRORS, n)
}

// Whether a component of this kind turns or mirrors in place: only contacts do.
pub fn can_turn(kind: u8) -> bool
    ensures { result ≡ can_turn kind }
{
    kind == 1
}
