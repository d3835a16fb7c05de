// The refusals of documents 01 and 02, and their numbers.
#![tactic(auto)]

ghost use Rattle.std.specs.Prelude.{◌≡◌};
ghost use Rattle.refusal.specs.Numbers.{number_of};

// Why a call is refused: beside each, its number and its words.
#[derive(Clone, Copy, PartialEq, Eq)]
pub enum Refusal {
    // 1 "a coordinate outside its range"
    CoordinateOutside,
    // 2 "wire start greater than its end"
    StartPastEnd,
    // 3 "size outside its range"
    SizeOutside,
    // 4 "unknown kind, or not one of the eight orientations"
    UnknownSymbol,
    // 5 "label too long or with another byte"
    BadLabel,
    // 6 "the new component's box shares a point with a placed one"
    BoxTouches,
    // 7 "would hold over .. 128 components", "components only" (document 02, P4)
    TooManyComponents,
    // 8 "the list is longer than the lent buffer", "a buffer too short to write into" (P5)
    BufferTooShort,
    // 9 "the lent drawing isn't lawful"
    Unlawful,
    // 10 "script line unreadable"
    Unreadable,
    // 11 "more than 512 wires after the edit" (P4)
    TooManyWires,
    // 12 "the file ends with a byte still due" (P5)
    FileEnds,
    // 13 "a number not in its fewest groups or above 32 bits .., or a drawing that isn't lawful" (P5)
    FileWrong,
    // 14 "bytes behind the end" (P5)
    BytesBehind,
}

// The number of a refusal. Two wrong answers that this rules out: 5 for a size (size_told_as_a_label), 7 for too many wires
// (wires_told_as_components).
impl From<Refusal> for u8 {
    ghost from_gives = { λ r n. n ≡ number_of r };

    fn from(r: Refusal) -> u8 {
        match r {
            Refusal::CoordinateOutside => 1,
            Refusal::StartPastEnd => 2,
            Refusal::SizeOutside => 3,
            Refusal::UnknownSymbol => 4,
            Refusal::BadLabel => 5,
            Refusal::BoxTouches => 6,
            Refusal::TooManyComponents => 7,
            Refusal::BufferTooShort => 8,
            Refusal::Unlawful => 9,
            Refusal::Unreadable => 10,
            Refusal::TooManyWires => 11,
            Refusal::FileEnds => 12,
            Refusal::FileWrong => 13,
            Refusal::BytesBehind => 14,
        }
    }
}
