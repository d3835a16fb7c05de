// The parts of a row, each read at the front of a text: with it comes the text behind.
ghost use Rattle.std.specs.Prelude.{◌≡◌};
ghost use Rattle.script.specs.Fronts.{front};
ghost use Rattle.edge.specs.Coordinates.{biased, to_ℕ};
ghost use Rattle.check_script.specs.Reading.{held_as, coordinate_of, natural_of, byte_of, direction_of};

use script::numbers;

// A coordinate as rows hold it: 6,000 more, in 16 bits.
#[tactic(auto, unfolding(crate::specs::Reading::fitted, edge::specs::Coordinates::biased))]
fn held_coordinate(z: i32) -> Option<u16>
    ensures { result ≡ held_as 6000 59535 biased z }
{
    u16::try_from(z.checked_add(6000)?).ok()
}

// A number of 16 bits.
#[tactic(auto, unfolding(crate::specs::Reading::fitted))]
fn held_natural(z: i32) -> Option<u16>
    ensures { result ≡ held_as 0 65535 to_ℕ z }
{
    u16::try_from(z).ok()
}

// A number of 8 bits.
#[tactic(auto, unfolding(crate::specs::Reading::fitted))]
fn held_byte(z: i32) -> Option<u8>
    ensures { result ≡ held_as 0 255 to_ℕ z }
{
    u8::try_from(z).ok()
}

// A space and a coordinate.
#[tactic(auto, unfolding(crate::specs::Reading::fitted_field))]
pub fn coordinate(text: &[u8]) -> Option<(u16, &[u8])>
    ensures { front result ≡ coordinate_of text.now }
{
    let (z, rest) = numbers::field(text)?;
    Some((held_coordinate(z)?, rest))
}

// A space and a number of 16 bits.
#[tactic(auto, unfolding(crate::specs::Reading::fitted_field))]
pub fn natural(text: &[u8]) -> Option<(u16, &[u8])>
    ensures { front result ≡ natural_of text.now }
{
    let (z, rest) = numbers::field(text)?;
    Some((held_natural(z)?, rest))
}

// A space and a number of 8 bits.
#[tactic(auto, unfolding(crate::specs::Reading::fitted_field))]
pub fn byte(text: &[u8]) -> Option<(u8, &[u8])>
    ensures { front result ≡ byte_of text.now }
{
    let (z, rest) = numbers::field(text)?;
    Some((held_byte(z)?, rest))
}

// A space and `h` or `v`: whether the wire is vertical.
#[tactic(auto, unfolding(crate::specs::Reading::direction_of, crate::specs::Reading::vertical_of))]
pub fn direction(text: &[u8]) -> Option<(bool, &[u8])>
    ensures { front result ≡ direction_of text.now }
{
    match text {
        [b' ', b'h', rest @ ..] => Some((false, rest)),
        [b' ', b'v', rest @ ..] => Some((true, rest)),
        _ => None,
    }
}
