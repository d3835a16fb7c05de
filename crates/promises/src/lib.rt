// What callers may be told of the calls together, a page of statement for each request; no function.
#![tactic(auto)]
