// The drawn coordinate in single precision, and how close it is to the exact sum; no function.
#![tactic(auto)]
