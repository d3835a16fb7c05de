#![tactic(auto)]

// Laws on lists; no function.
