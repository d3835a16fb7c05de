#![tactic(auto)]

// The drawing with an orientation of four numbers, as document 01 has it, and the proof that holding its number changes no call:
// definitions and laws alone, no code.
