// The edge between the coordinates of document 01 and the numbers that rows hold: 6,000 more.
#![tactic(auto)]

ghost use Rattle.std.specs.Prelude.{◌≡◌};
ghost use Rattle.edge.specs.Coordinates.{coord_of, biased_within, is_position, size_of, found_in, sized};

// A coordinate of a wire end or the pointer, -6,000 to 6,000, as rows hold it.
#[tactic(auto, using(crate::proofs::Coordinates::low, crate::proofs::Coordinates::high, crate::proofs::Coordinates::sum_fits, crate::proofs::Coordinates::cast_fits, crate::proofs::Coordinates::held))]
pub fn held_coordinate(x: i32) -> Option<u16>
    ensures { found_in result ≡ biased_within 6000 x }
{
    if x < -6000 || 6000 < x {
        return None;
    }
    Some((x + 6000) as u16)
}

// Whether a row's number is a component's position.
pub fn is_position(n: u16) -> bool
    ensures { result ≡ is_position n }
{
    (200 <= n) & (n <= 11800)
}

// A coordinate of a component, -5,800 to 5,800, as rows hold it.
#[tactic(auto, using(crate::proofs::Coordinates::narrowed_none, crate::proofs::Coordinates::narrowed_some))]
pub fn held_position(x: i32) -> Option<u16>
    ensures { found_in result ≡ biased_within 5800 x }
{
    let p = held_coordinate(x)?;
    is_position(p).then_some(p)
}

// The coordinate of a row's number.
#[tactic(auto, using(crate::proofs::Coordinates::shown_fits, crate::proofs::Coordinates::shown))]
pub fn coordinate(n: u16) -> i32
    ensures { result ≡ coord_of n }
{
    (n as i32) - 6000
}

// A pointer size, 0 to 1,000.
#[tactic(auto, using(crate::proofs::Sizes::refused_low, crate::proofs::Sizes::refused_high, crate::proofs::Sizes::size_fits, crate::proofs::Sizes::sized_is))]
pub fn size(s: i32) -> Option<u16>
    ensures { sized result ≡ size_of s }
{
    if s < 0 || 1000 < s {
        return None;
    }
    Some(s as u16)
}
