// Document 01's examples on the drawing board, as one proved table; no function.
#![tactic(auto)]
