// A saved drawing: what its file is, and what reading one answers.
#![tactic(auto)]

use sheet::Drawing;

// A reply, and the drawing; the empty one with a refusal.
// (No Result: `rows_handed_back` of `opening` tells a drawing beside a refusal, and P5 asks for the empty one there. The same holds of `Front`.)
#[derive(Clone, Copy)]
pub struct Opened {
    pub reply: u8,
    pub drawing: Drawing,
}

// A reply, the index behind the drawing that was read, and the drawing; with a refusal the index where it was to begin, and the empty drawing.
#[derive(Clone, Copy)]
pub struct Front {
    pub reply: u8,
    pub next: usize,
    pub drawing: Drawing,
}
